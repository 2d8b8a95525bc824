// A pile is two arrays: the calls on them in place, and by value over these (contract 12).
//
// A query may interrupt any other call. So the word that says that the pile has passed goes before a byte of the rows is written, and comes
// after every section was looked at: at each moment a query gets the reply from before the call, the one from after it, or 12.
//
// The two arrays stay parameters of their own: the C interface names them one by one, and some calls take the rows only to read.
#![tactic(auto)]

ghost use Rattle.std.specs.Prelude.{◌≡◌, true, List, [], ◌∷◌, ℕ, ◌≤◌, ◌<◌, get_or, MatchResult};
ghost use Rattle.chart.specs.Limits.{side};
ghost use Rattle.chart.specs.Outline.{outline};
ghost use Rattle.verdict.specs.Named.{CellNamed};
ghost use Rattle.spans.specs.Spans.{no_spans, spans_of};
ghost use Rattle.span_list.specs.SpanList.{rows_put};
ghost use Rattle.sections.specs.Sections.{layers, last_layer};
ghost use Rattle.pile_sections.specs.Sections.{dented_column, dented_row};
ghost use Rattle.pile_sections.specs.Meaning.{CheckedRuns};
ghost use Rattle.pile_replies.specs.Replies.{pile_fields};
ghost use Rattle.pile_model.specs.Calls.{Set, SetEmpty, Check, Query};
ghost use Rattle.live_sections.specs.Layers.{layers_of};
ghost use Rattle.live_sections.specs.parts.Reach.{reach_of};
ghost use Rattle.pile_calls.specs.Arrays.{arrays, says, passed_word, failing, query_of, answer_of, fresh_pile};
ghost use Rattle.pile_calls.specs.Steps.{stepped, sections, clear_at, dent_at, tested_at, ending, step_of, steps_of};

use chart::{Point, Refusal, SIDE, SectionKind};
use judge::verdict_of;
pub use live_sections::ROW_BYTES;
use live_sections::{clear_column, clear_row, dented_column, dented_row, reach};
use pile_replies::PileAnswer;
use polygon::bad_cell;
use sections::{LAST_LAYER, LAYERS, Section};
use span_list::{put_none, put_outline, within};

// Whether the pile has passed, and where a check in steps stands.
pub const STATE_NUMBERS: usize = 2;

const WORD: usize = 0;

const POSITION: usize = 1;

// The one number that says that the pile has passed.
pub const PASSED: u16 = 23205;

// How many sections a pile has: at each column, then at each row.
const SECTIONS: u16 = 2 * SIDE;

#[repr(C)]
#[derive(Clone, Copy)]
pub struct Pile {
    pub rows: [u8; ROW_BYTES],
    pub state: [u16; STATE_NUMBERS],
}

// A reply, and the next pile.
#[derive(Clone, Copy)]
pub struct Piled {
    pub reply: Result<PileAnswer, Refusal>,
    pub pile: Pile,
}

// The next pile, and what a step of a check replies: what the whole check does, or none while there is more to come.
#[derive(Clone, Copy)]
pub struct Stepped {
    pub progress: Option<Result<PileAnswer, Refusal>>,
    pub pile: Pile,
}

// ---- the state: the word goes first, and comes last

// The pile has not passed, and no check is under way. This and the next function differ in the order of their stores.
fn unpass(state: &mut [u16; STATE_NUMBERS])
    ensures { (state.new ≡ 0 ∷ 0 ∷ []) × (get_or state.new 0 0 ≡ 0) }
{
    state[WORD] = 0;
    state[POSITION] = 0;
}

// The pile has passed: the word is the last store.
fn put_pass(state: &mut [u16; STATE_NUMBERS])
    ensures { state.new ≡ passed_word ∷ 0 ∷ [] }
{
    state[POSITION] = 0;
    state[WORD] = PASSED;
}

// Only where no section is dented. This and the next function differ in what they require.
fn pass(state: &mut [u16; STATE_NUMBERS], rows: &[u8; ROW_BYTES])
    requires { (side ≤ dented_column (layers_of rows.now)) × (side ≤ dented_row (layers_of rows.now)) }
    ensures { state.new ≡ passed_word ∷ 0 ∷ [] }
{
    put_pass(state);
}

// In steps, only where the last section was tested and is not dented.
fn pass_last(state: &mut [u16; STATE_NUMBERS], rows: &[u8; ROW_BYTES], k: u16)
    requires { (k ≡ 509) × (clear_at (layers_of rows.now) k ≡ true) }
    ensures { state.new ≡ passed_word ∷ 0 ∷ [] }
{
    put_pass(state);
}

// A check has failed.
#[tactic(auto, unfolding(crate::specs::Arrays::failing))]
fn fail(state: &mut [u16; STATE_NUMBERS])
    ensures { (rows : List ℕ) → arrays rows state.new ≡ failing (arrays rows state.old) }
{
    if state[WORD] == PASSED {
        unpass(state);
    }
}

// A check in steps goes on at a section.
fn go_on(state: &mut [u16; STATE_NUMBERS], position: u16)
    ensures { state.new ≡ get_or state.old 0 0 ∷ position ∷ [] }
{
    state[POSITION] = position;
}

// A dented section ends a check in steps.
#[tactic(auto, unfolding(crate::specs::Steps::ending))]
fn end(state: &mut [u16; STATE_NUMBERS])
    ensures { (rows : List ℕ) → arrays rows state.new ≡ ending (arrays rows state.old) }
{
    let word = state[WORD];
    if word == PASSED {
        unpass(state);
    } else {
        go_on(state, 0);
    }
}

// ---- the rows: written only after the word was taken away

fn write_outline(
    rows: &mut [u8; ROW_BYTES],
    state: &[u16; STATE_NUMBERS],
    layer: usize,
    start: Point,
    letters: &[u8],
)
    requires { (layer < layers) × (get_or state.now 0 0 ≡ 0) }
    ensures { rows.new ≡ rows_put rows.old layer (spans_of (outline start letters.now)) }
{
    put_outline(&mut rows[..], layer, start, letters);
}

fn write_none(rows: &mut [u8; ROW_BYTES], state: &[u16; STATE_NUMBERS], layer: usize)
    requires { (layer < layers) × (get_or state.now 0 0 ≡ 0) }
    ensures { rows.new ≡ rows_put rows.old layer no_spans }
{
    put_none(&mut rows[..], layer);
}

// ---- the calls

// The index of a layer, or 22.
pub fn layer_index(layer: u8) -> Result<usize, Refusal>
    ensures { MatchResult result (λ l. (l ≡ layer) × (layer ≤ last_layer))
        (λ why. (why ≡ Refusal.Layer) × (last_layer < layer)) }
{
    if LAST_LAYER < layer {
        return Err(Refusal::Layer);
    }
    Ok(usize::from(layer))
}

// Makes the arrays a fresh pile, whatever they held.
pub fn clear_all(rows: &mut [u8; ROW_BYTES], state: &mut [u16; STATE_NUMBERS])
    ensures { arrays rows.new state.new ≡ fresh_pile }
{
    unpass(state);
    *rows = [0; ROW_BYTES];
}

// Sets a layer to an outline: 22, or the test's verdict. A taken outline becomes the layer.
pub fn set(
    rows: &mut [u8; ROW_BYTES],
    state: &mut [u16; STATE_NUMBERS],
    layer: u8,
    start: Point,
    letters: &[u8],
) -> Result<PileAnswer, Refusal>
    ensures answer { says result (arrays rows.new state.new)
        ≡ answer_of (arrays rows.old state.old) (Set layer (outline start letters.now)) }
    ensures cell { CellNamed (outline start letters.now) (pile_fields result) }
{
    let layer = layer_index(layer)?;
    let taken = verdict_of(start, letters)?;
    unpass(state);
    write_outline(rows, state, layer, start, letters);
    Ok(PileAnswer::Taken(taken))
}

// Sets a layer to empty: 22, or done.
#[tactic(auto, unfolding(crate::specs::Arrays::answer_of, crate::specs::Arrays::empty_of))]
pub fn set_empty(
    rows: &mut [u8; ROW_BYTES],
    state: &mut [u16; STATE_NUMBERS],
    layer: u8,
) -> Result<PileAnswer, Refusal>
    ensures { says result (arrays rows.new state.new)
        ≡ answer_of (arrays rows.old state.old) (SetEmpty layer) }
{
    let layer = layer_index(layer)?;
    unpass(state);
    write_none(rows, state, layer);
    Ok(PileAnswer::Done)
}

// Checks every section: the columns, then the rows.
pub fn check(
    rows: &[u8; ROW_BYTES],
    state: &mut [u16; STATE_NUMBERS],
) -> Result<PileAnswer, Refusal>
    ensures answer { says result (arrays rows.now state.new)
        ≡ answer_of (arrays rows.now state.old) Check }
    ensures meaning { CheckedRuns (layers_of rows.now) result }
{
    let col = dented_column(rows);
    if col < SIDE {
        fail(state);
        return Err(Refusal::Section {
            kind: SectionKind::Column,
            at: col,
        });
    }
    let row = dented_row(rows);
    if row < SIDE {
        fail(state);
        return Err(Refusal::Section {
            kind: SectionKind::Row,
            at: row,
        });
    }
    pass(state, rows);
    Ok(PileAnswer::Done)
}

// The section that a step tests: the one at its position, or the first.
#[tactic(auto, unfolding(crate::specs::Steps::tested_at))]
fn tested_at(position: u16) -> u16
    ensures { (result ≡ tested_at position) × (result < sections) }
{
    if position < SECTIONS { position } else { 0 }
}

// The rows of each layer that have a cell. They serve every column from `k` on, and where no column is left they are not looked for.
fn reach_from(rows: &[u8; ROW_BYTES], k: u16) -> Section
    ensures { k < side → result ≡ reach_of (layers_of rows.now) }
{
    if k < SIDE {
        reach(rows)
    } else {
        Section {
            lo: [0; LAYERS],
            past: [0; LAYERS],
        }
    }
}

// Whether a section is convex, the columns before the rows.
#[tactic(auto, unfolding(crate::specs::Steps::clear_at))]
fn clear_at(rows: &[u8; ROW_BYTES], reach: Section, k: u16) -> bool
    requires { (k < sections) × (k < side → reach ≡ reach_of (layers_of rows.now)) }
    ensures { result ≡ clear_at (layers_of rows.now) k }
{
    if k < SIDE {
        clear_column(rows, reach, k as u8)
    } else {
        clear_row(rows, (k - SIDE) as usize)
    }
}

// The reply if it is dented.
#[tactic(auto, unfolding(crate::specs::Steps::dent_at))]
fn dent_at(k: u16) -> Result<PileAnswer, Refusal>
    ensures { result ≡ dent_at k }
{
    if k < SIDE {
        Err(Refusal::Section {
            kind: SectionKind::Column,
            at: k,
        })
    } else {
        Err(Refusal::Section {
            kind: SectionKind::Row,
            at: k - SIDE,
        })
    }
}

// One section of a check in steps.
fn check_step(
    rows: &[u8; ROW_BYTES],
    state: &mut [u16; STATE_NUMBERS],
    reach: Section,
) -> Option<Result<PileAnswer, Refusal>>
    requires { tested_at (get_or state.old 1 0) < side → reach ≡ reach_of (layers_of rows.now) }
    ensures { stepped result (arrays rows.now state.new)
        ≡ step_of (arrays rows.now state.old) }
{
    let k = tested_at(state[POSITION]);
    if !clear_at(rows, reach, k) {
        end(state);
        return Some(dent_at(k));
    }
    if k < SECTIONS - 1 {
        go_on(state, k + 1);
        return None;
    }
    pass_last(state, rows, k);
    Some(Ok(PileAnswer::Done))
}

// Sections of a check in steps until it replies, at most `count`. With none, nothing is done and there is more to come.
pub fn check_steps(
    rows: &[u8; ROW_BYTES],
    state: &mut [u16; STATE_NUMBERS],
    count: u16,
) -> Option<Result<PileAnswer, Refusal>>
    ensures { stepped result (arrays rows.now state.new)
        ≡ steps_of count (arrays rows.now state.old) }
{
    let reach = reach_from(rows, tested_at(state[POSITION]));
    for _made in 0..count {
        if let Some(reply) = check_step(rows, state, reach) {
            return Some(reply);
        }
    }
    None
}

// 22, 12, 11, or whether the layer has the cell.
#[tactic(auto, using(crate::proofs::Cases::good_row), unfolding(crate::specs::Arrays::query_of))]
pub fn query<'a>(
    rows: &'a [u8; ROW_BYTES],
    state: &'a [u16; STATE_NUMBERS],
    layer: u8,
    cell: Point,
) -> Result<PileAnswer, Refusal>
    ensures { result ≡ query_of (arrays rows.now state.now) layer cell }
{
    let layer = layer_index(layer)?;
    if state[WORD] != PASSED {
        return Err(Refusal::NothingAtWork);
    }
    if bad_cell(cell) {
        return Err(Refusal::Cell);
    }
    if within(&rows[..], layer, cell) {
        Ok(PileAnswer::Inside)
    } else {
        Ok(PileAnswer::Outside)
    }
}

// ---- by value

// Sixteen empty layers, unchecked. All zeros is a fresh pile.
#[tactic(auto, unfolding(crate::specs::Arrays::fresh_pile))]
pub fn fresh() -> Pile
    ensures { result ≡ fresh_pile }
{
    Pile {
        rows: [0; ROW_BYTES],
        state: [0; STATE_NUMBERS],
    }
}

impl Pile {
    pub fn set(mut self, layer: u8, start: Point, letters: &[u8]) -> Piled
        ensures answer { result ≡ answer_of self (Set layer (outline start letters.now)) }
        ensures cell { CellNamed (outline start letters.now) (pile_fields result.reply) }
    {
        let reply = set(&mut self.rows, &mut self.state, layer, start, letters);
        Piled { reply, pile: self }
    }

    pub fn set_empty(mut self, layer: u8) -> Piled
        ensures { result ≡ answer_of self (SetEmpty layer) }
    {
        let reply = set_empty(&mut self.rows, &mut self.state, layer);
        Piled { reply, pile: self }
    }

    pub fn check(mut self) -> Piled
        ensures answer { result ≡ answer_of self Check }
        ensures meaning { CheckedRuns (layers_of self.rows) result.reply }
    {
        let reply = check(&self.rows, &mut self.state);
        Piled { reply, pile: self }
    }

    pub fn check_steps(mut self, count: u16) -> Stepped
        ensures { result ≡ steps_of count self }
    {
        let progress = check_steps(&self.rows, &mut self.state, count);
        Stepped {
            progress,
            pile: self,
        }
    }

    pub fn query(self, layer: u8, cell: Point) -> Result<PileAnswer, Refusal>
        ensures { result ≡ query_of self layer cell }
    {
        query(&self.rows, &self.state, layer, cell)
    }
}
