// The outline in a slot: whether it has these edges, and the questions about it (contract 7.6 to 7.11).
#![tactic(auto)]

ghost use Rattle.std.specs.Prelude.{◌≡◌, List, ℕ, ◌+◌, ◌*◌, ◌<◌, min, ℤ};
ghost use Rattle.chart.specs.Limits.{most_numbers};
ghost use Rattle.holder_records.specs.Work.{listed, work_edges, has_edges, located, spanned, read_at, drawn_at};
ghost use Rattle.holder_memory.specs.Layout.{slots, work_at};

use calls::{Answer, Reading};
use chart::{MOST_NUMBERS, Point, Refusal, SIDE};
use equality::same_edges;
use holder_memory::{HEADS, NUMBERS, ROW_BYTES, SLOT_HEADS, SLOT_NUMBERS, SLOTS};
use polygon::bad_cell;
use span_list::{span_at, within};

// How many numbers this many edges have, clamped to the capacity, since a count in memory may be damaged.
fn number_count(edges: u16) -> usize
    ensures { result ≡ min (2 * edges) most_numbers }
{
    2 * usize::from(edges).min(MOST_NUMBERS / 2)
}

// The anchor in a slot.
pub fn anchor_at(heads: &[u16; HEADS], slot: usize) -> Point
    requires { slot < slots }
    ensures { (rows : List ℕ) (numbers : List ℤ) → result ≡ (work_at rows numbers heads.now slot).anchor }
{
    let at = SLOT_HEADS + SLOT_NUMBERS * slot;
    Point {
        col: heads[at],
        row: heads[at + 1],
    }
}

// The numbers of the edges in a slot.
pub fn edges_at<'a>(numbers: &'a [i16; NUMBERS], heads: &[u16; HEADS], slot: usize) -> &'a [i16]
    requires { slot < slots }
    ensures { (rows : List ℕ) → result.now ≡ work_edges (work_at rows numbers.now heads.now slot) }
{
    let at = SLOT_HEADS + SLOT_NUMBERS * slot;
    let n = number_count(heads[at + 2]);
    let from = MOST_NUMBERS * slot;
    let to = from + n;
    &numbers[from..to]
}

// The questions answer 12 for slot 10 and every number above, as their clauses say: an option of a slot would ask more of their callers.
// 12, 11, or where the cell lies.
pub fn query(rows: &[u8; ROW_BYTES], slot: usize, cell: Point) -> Result<Answer, Refusal>
    ensures { (numbers : List ℤ) (heads : List ℕ) → result ≡ located (work_at rows.now numbers heads slot) cell }
{
    if SLOTS <= slot {
        return Err(Refusal::NothingAtWork);
    }
    if bad_cell(cell) {
        return Err(Refusal::Cell);
    }
    if within(&rows[..], slot, cell) {
        Ok(Answer::Inside)
    } else {
        Ok(Answer::Outside)
    }
}

// 12, 11, or the columns of the row.
pub fn row(rows: &[u8; ROW_BYTES], slot: usize, row: u16) -> Result<Answer, Refusal>
    ensures { (numbers : List ℤ) (heads : List ℕ) → result ≡ spanned (work_at rows.now numbers heads slot) row }
{
    if SLOTS <= slot {
        return Err(Refusal::NothingAtWork);
    }
    if SIDE <= row {
        return Err(Refusal::Cell);
    }
    spans::reply(span_at(&rows[..], slot, row))
}

// 12, 11, or where the reading lies.
pub fn reading(
    numbers: &[i16; NUMBERS],
    heads: &[u16; HEADS],
    slot: usize,
    reading: Reading,
) -> Result<Answer, Refusal>
    ensures { (rows : List ℕ) → result ≡ read_at (work_at rows numbers.now heads.now slot) reading }
{
    if SLOTS <= slot {
        return Err(Refusal::NothingAtWork);
    }
    let anchor = anchor_at(heads, slot);
    let list = edges_at(numbers, heads, slot);
    readings::reply(readings::locate(anchor, list, reading))
}

// 12, or the path command at the position.
pub fn piece(
    numbers: &[i16; NUMBERS],
    heads: &[u16; HEADS],
    slot: usize,
    position: u16,
) -> Result<Answer, Refusal>
    ensures { (rows : List ℕ) → result ≡ drawn_at (work_at rows numbers.now heads.now slot) position }
{
    if SLOTS <= slot {
        return Err(Refusal::NothingAtWork);
    }
    let anchor = anchor_at(heads, slot);
    let list = edges_at(numbers, heads, slot);
    drawing::drawn_at(anchor, list, position)
}

// Whether the slot has this anchor and these edges: a list with a count, as a verdict leaves it. Only here is the count clamped to the
// list.
pub fn has(
    numbers: &[i16; NUMBERS],
    heads: &[u16; HEADS],
    slot: usize,
    anchor: Point,
    list: &[i16; MOST_NUMBERS],
    edges: u16,
) -> bool
    ensures { (rows : List ℕ) → result
        ≡ has_edges (work_at rows numbers.now heads.now slot) anchor (listed list.now edges) }
{
    if SLOTS <= slot {
        return false;
    }
    let own = anchor_at(heads, slot);
    let mine = edges_at(numbers, heads, slot);
    let n = number_count(edges);
    same_edges(own, mine, anchor, &list[..n])
}
