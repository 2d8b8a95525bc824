// The interval of columns that an outline encloses in each row.
#![tactic(auto)]

ghost use Rattle.std.specs.Prelude.{◌≡◌};
ghost use Rattle.chart.specs.Outline.{outline};
ghost use Rattle.spans.specs.Spans.{no_spans, spans_of, in_spans, span_at, span_reply};

use calls::Answer;
use chart::{Point, Refusal, SIDE};
use rows::row_ends;

// The number of rows of cells on the chart.
pub const ROWS: usize = SIDE as usize;

// The enclosed columns of a row: every column from the first to the last and no other.
#[derive(Clone, Copy)]
pub struct Columns {
    pub first: u16,
    pub last: u16,
}

// The rows of an outline: row `r` goes from column `first[r]`, included, to column `past[r]`,
// excluded, and is empty if they are equal. All zeros: no row has a cell. Two arrays, not one of pairs: the C interface has the first
// columns of all rows before the past ones.
#[repr(C)]
#[derive(Clone, Copy)]
pub struct Spans {
    pub first: [u8; ROWS],
    pub past: [u8; ROWS],
}

// The table in which no row has a cell.
#[tactic(auto, unfolding(crate::specs::Spans::no_spans))]
pub fn no_spans() -> Spans
    ensures { result ≡ no_spans }
{
    Spans {
        first: [0; ROWS],
        past: [0; ROWS],
    }
}

// Each row goes from one vertical side of the outline to the other, in whichever direction the outline runs.
pub fn spans_of(start: Point, letters: &[u8]) -> Spans
    ensures { result ≡ spans_of (outline start letters.now) }
{
    let ends = row_ends(start, letters);
    let up = ends.lo;
    let down = ends.hi;
    let mut first = [0; ROWS];
    let mut past = [0; ROWS];
    // Two lists are written and two are read: `zip`s of four are no plainer than the row.
    for k in 0..ROWS {
        first[k] = up[k].min(down[k]) as u8;
        past[k] = up[k].max(down[k]) as u8;
    }
    Spans { first, past }
}

// The columns of a row, if any is enclosed.
#[tactic(auto, unfolding(crate::specs::Spans::span_at, crate::specs::Spans::span_from))]
pub fn span_at(spans: Spans, row: u16) -> Option<Columns>
    ensures { result ≡ span_at spans row }
{
    if SIDE <= row {
        return None;
    }
    let at = usize::from(row);
    let first = u16::from(spans.first[at]);
    let past = u16::from(spans.past[at]);
    if first < past {
        Some(Columns {
            first,
            last: past - 1,
        })
    } else {
        None
    }
}

// The columns of a row as the reply of a call.
#[tactic(auto, unfolding(crate::specs::Spans::span_reply))]
pub fn reply(span: Option<Columns>) -> Result<Answer, Refusal>
    ensures { result ≡ span_reply span }
{
    match span {
        None => Ok(Answer::None),
        Some(Columns { first, last }) => Ok(Answer::Columns { first, last }),
    }
}

// Whether a cell is in the interval of its row.
#[tactic(auto, unfolding(crate::specs::Spans::in_spans))]
pub fn within(spans: Spans, cell: Point) -> bool
    ensures { result ≡ in_spans spans cell.col cell.row }
{
    if SIDE <= cell.row {
        return false;
    }
    let at = usize::from(cell.row);
    let first = u16::from(spans.first[at]);
    let past = u16::from(spans.past[at]);
    first <= cell.col && cell.col < past
}
