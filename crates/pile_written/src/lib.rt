// The calls on a pile as C makes them: each writes its reply as seven numbers (contract 4, 12.8 and 13.11). The arrays are parameters of
// their own, since the C interface names them one by one.
#![tactic(auto)]

ghost use Rattle.std.specs.Prelude.{◌≡◌};
ghost use Rattle.chart.specs.Outline.{outline};
ghost use Rattle.chart.specs.Fields.{fields_of};
ghost use Rattle.verdict.specs.Named.{CellNamed};
ghost use Rattle.pile_sections.specs.Meaning.{CheckedRuns, NoDent};
ghost use Rattle.pile_model.specs.Calls.{Set, SetEmpty, Check, Query, Restore};
ghost use Rattle.live_sections.specs.Layers.{layers_of};
ghost use Rattle.pile_calls.specs.Arrays.{arrays};
ghost use Rattle.pile_written.specs.Written.{progress_fields, Done, StepsDone, CheckWritten, SaveWritten};

use chart::reply::{NUMBERS as REPLY, put};
use chart::{Fields, Point, Refusal, reply};
use pile_calls::{ROW_BYTES, STATE_NUMBERS};
use pile_replies::{PileAnswer, of_reply};

// The fields of what a step of a check replies. No `From` may stand here: both types are other crates'.
#[tactic(auto, unfolding(crate::specs::Written::progress_fields))]
pub fn of_progress(p: Option<Result<PileAnswer, Refusal>>) -> Fields
    ensures { result ≡ progress_fields p }
{
    match p {
        None => reply::worded(reply::MORE),
        Some(r) => of_reply(r),
    }
}

// Sets a layer to an outline.
#[tactic(auto, using(crate::proofs::WrittenLaws::done_by, crate::proofs::WrittenLaws::cell_written))]
pub fn set(
    rows: &mut [u8; ROW_BYTES],
    state: &mut [u16; STATE_NUMBERS],
    layer: u8,
    start: Point,
    letters: &[u8],
    reply: &mut [u16; REPLY],
)
    ensures call { Done (arrays rows.old state.old) (arrays rows.new state.new)
        (Set layer (outline start letters.now)) reply.new }
    ensures cell { CellNamed (outline start letters.now) (fields_of reply.new) }
{
    put(
        of_reply(pile_calls::set(rows, state, layer, start, letters)),
        reply,
    );
}

// Sets a layer to empty.
#[tactic(auto, using(crate::proofs::WrittenLaws::done_by))]
pub fn set_empty(
    rows: &mut [u8; ROW_BYTES],
    state: &mut [u16; STATE_NUMBERS],
    layer: u8,
    reply: &mut [u16; REPLY],
)
    ensures { Done (arrays rows.old state.old) (arrays rows.new state.new)
        (SetEmpty layer) reply.new }
{
    put(of_reply(pile_calls::set_empty(rows, state, layer)), reply);
}

// Checks every section.
#[tactic(auto, using(crate::proofs::WrittenLaws::done_by, crate::proofs::WrittenLaws::check_written))]
pub fn check(rows: &[u8; ROW_BYTES], state: &mut [u16; STATE_NUMBERS], reply: &mut [u16; REPLY])
    ensures call { Done (arrays rows.now state.old) (arrays rows.now state.new)
        Check reply.new }
    ensures meaning { CheckWritten (CheckedRuns (layers_of rows.now)) (NoDent (layers_of rows.now))
        reply.new }
{
    put(of_reply(pile_calls::check(rows, state)), reply);
}

// Some sections of a check: "more" while it goes on, else the reply of the whole check.
#[tactic(auto, using(crate::proofs::WrittenLaws::steps_by))]
pub fn check_steps(
    rows: &[u8; ROW_BYTES],
    state: &mut [u16; STATE_NUMBERS],
    sections: u16,
    reply: &mut [u16; REPLY],
)
    ensures { StepsDone (arrays rows.now state.old) (arrays rows.now state.new)
        sections reply.new }
{
    put(
        of_progress(pile_calls::check_steps(rows, state, sections)),
        reply,
    );
}

// Whether a layer has a cell.
#[tactic(auto, using(crate::proofs::WrittenLaws::query_by))]
pub fn query<'a>(
    rows: &'a [u8; ROW_BYTES],
    state: &'a [u16; STATE_NUMBERS],
    layer: u8,
    cell: Point,
    reply: &mut [u16; REPLY],
)
    ensures { Done (arrays rows.now state.now) (arrays rows.now state.now)
        (Query layer cell) reply.new }
{
    put(of_reply(pile_calls::query(rows, state, layer, cell)), reply);
}

// Writes the image of a layer.
pub fn save(rows: &[u8; ROW_BYTES], layer: u8, image: &mut [u8], reply: &mut [u16; REPLY])
    ensures { SaveWritten rows.now layer image.old image.new reply.new }
{
    put(of_reply(pile_images::save(rows, layer, image)), reply);
}

// Sets a layer to what an image holds.
#[tactic(auto, using(crate::proofs::WrittenLaws::done_by))]
pub fn restore(
    rows: &mut [u8; ROW_BYTES],
    state: &mut [u16; STATE_NUMBERS],
    layer: u8,
    image: &[u8],
    reply: &mut [u16; REPLY],
)
    ensures { Done (arrays rows.old state.old) (arrays rows.new state.new)
        (Restore layer image.now) reply.new }
{
    put(
        of_reply(pile_images::restore(rows, state, layer, image)),
        reply,
    );
}
