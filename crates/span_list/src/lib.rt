// The rows of several outlines side by side in one list of bytes, read and written in place.
#![tactic(auto)]

ghost use Rattle.std.specs.Prelude.{◌≡◌, ◌+◌, ◌*◌, ◌<◌, ◌≤◌, length};
ghost use Rattle.chart.specs.Limits.{side};
ghost use Rattle.chart.specs.Outline.{outline};
ghost use Rattle.spans.specs.Spans.{no_spans, spans_of, in_spans, span_at};
ghost use Rattle.span_list.specs.SpanList.{slot_bytes, spans_at, rows_put, ends_at};

use chart::Point;
use spans::{Columns, ROWS, spans_of};

// How many bytes a slot has.
pub const WIDTH: usize = 2 * ROWS;

// Writes the rows of an outline to the slot. They are found here, and this is no part of its callers, so that no caller has them on its
// stack while it judges the outline. A list and its slot, with the list's length, stay two parameters: some functions write the list and
// some only read it, so a struct of the two would be needed twice.
#[inline(never)]
pub fn put_outline(rows: &mut [u8], slot: usize, start: Point, letters: &[u8])
    requires { slot_bytes * slot + slot_bytes ≤ length rows.old }
    ensures { rows.new ≡ rows_put rows.old slot (spans_of (outline start letters.now)) }
{
    let spans = spans_of(start, letters);
    let at = WIDTH * slot;
    rows[at..at + ROWS].copy_from_slice(&spans.first);
    rows[at + ROWS..at + WIDTH].copy_from_slice(&spans.past);
}

// Makes every row of the slot empty.
pub fn put_none(rows: &mut [u8], slot: usize)
    requires { slot_bytes * slot + slot_bytes ≤ length rows.old }
    ensures { rows.new ≡ rows_put rows.old slot no_spans }
{
    let at = WIDTH * slot;
    rows[at..at + ROWS].fill(0);
    rows[at + ROWS..at + WIDTH].fill(0);
}

// The two bytes of a row: its first column, and the column past its last.
#[derive(Clone, Copy)]
struct Ends {
    first: u16,
    past: u16,
}

#[tactic(auto, unfolding(crate::specs::SpanList::ends_at))]
fn ends_at(rows: &[u8], slot: usize, row: u16) -> Ends
    requires { (slot_bytes * slot + slot_bytes ≤ length rows.now) × (row < side) }
    ensures { result ≡ ends_at rows.now slot row }
{
    let at = WIDTH * slot + usize::from(row);
    Ends {
        first: u16::from(rows[at]),
        past: u16::from(rows[at + ROWS]),
    }
}

// Whether a cell is within the columns of its row.
pub fn within(rows: &[u8], slot: usize, cell: Point) -> bool
    requires { (slot_bytes * slot + slot_bytes ≤ length rows.now) × (cell.row < side) }
    ensures { result ≡ in_spans (spans_at rows.now slot) cell.col cell.row }
{
    let ends = ends_at(rows, slot, cell.row);
    ends.first <= cell.col && cell.col < ends.past
}

// The columns of a row, if any is enclosed.
pub fn span_at(rows: &[u8], slot: usize, row: u16) -> Option<Columns>
    requires { (slot_bytes * slot + slot_bytes ≤ length rows.now) × (row < side) }
    ensures { result ≡ span_at (spans_at rows.now slot) row }
{
    let ends = ends_at(rows, slot, row);
    if ends.first < ends.past {
        Some(Columns {
            first: ends.first,
            last: ends.past - 1,
        })
    } else {
        None
    }
}
