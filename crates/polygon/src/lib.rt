// An anchor and a list of edges as a polygon: which cells are inside, and the loose query.
#![tactic(auto)]

ghost use Rattle.std.specs.Prelude.{◌≡◌, pos, ◌-ℤ◌, ◌*ℤ◌};
ghost use Rattle.chart.specs.Fields.{position_fields};
ghost use Rattle.convexity.specs.Inside.{not_negative, side_value};
ghost use Rattle.polygon.specs.parts.Span.{begun, met, spans};
ghost use Rattle.polygon.specs.parts.Turns.{turns_on};
ghost use Rattle.polygon.specs.Loose.{inside_list, bad_list, bad_cell, bad_directions_list, loose_of, HullNamed};

use chart::{LONGEST_LIST, Point, Position, Refusal, SIDE};
use edge_walk::Corner;

mod round;

// The lowest and the highest of some numbers.
#[derive(Clone, Copy)]
struct Span {
    low: i32,
    high: i32,
}

impl Span {
    // One number alone.
    #[tactic(auto, unfolding(crate::specs::parts::Span::begun))]
    fn begin(n: i32) -> Self
        ensures { result ≡ begun n }
    {
        Span { low: n, high: n }
    }

    // With one more number.
    #[tactic(auto, using(crate::proofs::Integers::extremes), unfolding(crate::specs::parts::Span::met))]
    fn meet(self, n: i32) -> Self
        ensures { result ≡ met self n }
    {
        Span {
            low: self.low.min(n),
            high: self.high.max(n),
        }
    }

    // c lies between the lowest and the highest number.
    #[tactic(auto, unfolding(crate::specs::parts::Span::spans))]
    fn spans(self, c: u16) -> bool
        ensures { result ≡ spans self (pos c) }
    {
        let z = i32::from(c);
        self.low <= z && z <= self.high
    }
}

// A step in one coordinate times the cell's distance in the other: one of the two products of a side value.
fn moment(d: i16, n: i32, c: u16) -> i64
    ensures { result ≡ d *ℤ (pos c -ℤ n) }
{
    i64::from(d) * (i64::from(c) - i64::from(n))
}

// The side value at the cell of the edge (dx, dy) that starts at a corner cell is not negative.
#[tactic(auto, using(crate::proofs::Integers::at_most_difference), unfolding(convexity::specs::Inside::side_value))]
fn beside(dx: i16, dy: i16, at: Corner, cell: Point) -> bool
    ensures { result ≡ not_negative (side_value dx dy at.col at.row (pos cell.col) (pos cell.row)) }
{
    let across = moment(dy, at.col, cell.col);
    let up = moment(dx, at.row, cell.row);
    up <= across
}

// Whether a cell is inside (contract 3.15): side values and extremes. No cell is inside a list that is too long.
pub fn inside(anchor: Point, edges: &[i16], cell: Point) -> bool
    ensures { result ≡ inside_list anchor edges.now cell }
{
    if LONGEST_LIST < edges.len() {
        return false;
    }
    let mut at = edge_walk::start(anchor);
    let mut cols = Span::begin(at.col);
    let mut rows = Span::begin(at.row);
    let (list, _) = edges.as_chunks::<2>();
    for &[dx, dy] in list {
        if !beside(dx, dy, at, cell) {
            return false;
        }
        at = edge_walk::further(at, dx, dy);
        cols = cols.meet(at.col);
        rows = rows.meet(at.row);
    }
    cols.spans(cell.col) && rows.spans(cell.row)
}

// 10, of a loose query: the count of numbers is odd or too large.
#[tactic(auto, unfolding(crate::specs::Loose::bad_list))]
pub fn bad_list(edges: &[i16]) -> bool
    ensures { result ≡ bad_list edges.now }
{
    edges.len() % 2 == 1 || LONGEST_LIST < edges.len()
}

// The edge (dx, dy) is not zero, and the direction of the edge before it, if there is one, comes before its own.
#[tactic(auto, unfolding(crate::specs::parts::Turns::turns_on, crate::specs::parts::Turns::comes_after))]
fn turns_on(last: Option<(i16, i16)>, dx: i16, dy: i16) -> bool
    ensures { result ≡ turns_on last dx dy }
{
    if round::zero_step(dx, dy) {
        return false;
    }
    match last {
        Some((ex, ey)) => round::precedes(ex, ey, dx, dy),
        None => true,
    }
}

// 16: an edge is zero, the edges do not sum to zero, or directions do not increase strictly. A list that is too long is refused.
// The edges sum to zero if the walk from (0, 0) ends there. This is no part of its callers, so that they need less stack.
#[inline(never)]
pub fn bad_directions(edges: &[i16]) -> bool
    ensures { result ≡ bad_directions_list edges.now }
{
    if LONGEST_LIST < edges.len() {
        return true;
    }
    let mut at = edge_walk::start(Point { col: 0, row: 0 });
    let mut last = None;
    let (list, _) = edges.as_chunks::<2>();
    for &[dx, dy] in list {
        if !turns_on(last, dx, dy) {
            return true;
        }
        at = edge_walk::further(at, dx, dy);
        last = Some((dx, dy));
    }
    at.col != 0 || at.row != 0
}

// 11: a number of the cell is above 254.
#[tactic(auto, unfolding(crate::specs::Loose::bad_cell))]
pub fn bad_cell(x: Point) -> bool
    ensures { result ≡ bad_cell x }
{
    SIDE <= x.col || SIDE <= x.row
}

// The loose query: checks 10, 11 and 16, then says whether the hull of the corner cells holds the cell.
pub fn loose_query(anchor: Point, edges: &[i16], cell: Point) -> Result<Position, Refusal>
    ensures answer { result ≡ loose_of anchor edges.now cell }
    ensures hull { HullNamed anchor edges.now cell (position_fields result) }
{
    if bad_list(edges) {
        return Err(Refusal::EdgeList { edges: 0 });
    }
    if bad_cell(anchor) || bad_cell(cell) {
        return Err(Refusal::Cell);
    }
    if bad_directions(edges) {
        return Err(Refusal::Directions);
    }
    if inside(anchor, edges, cell) {
        Ok(Position::Inside)
    } else {
        Ok(Position::Outside)
    }
}
