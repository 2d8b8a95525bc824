// Finds the rows of a polygon in one walk along its edges, and compares two polygons row by row.
ghost use Rattle.std.specs.Prelude.{◌≡◌, ◌<◌, ◌*◌, min, max, length, replicate};
ghost use Rattle.chart.specs.Limits.{side};
ghost use Rattle.nesting.specs.Cells.{polygon, Fit};
ghost use Rattle.comparison.specs.parts.Rows.{edge_at_row, first_of, end_of, met_from, met_to, risen_from, fallen_to, AllBelow, Lowered};
ghost use Rattle.comparison.specs.parts.Rows.{Raised, Swept, tests_of, compared};

use chart::{Point, SIDE};

// One number for each row of the chart, and one more.
pub(crate) const ROWS: usize = 256;

// No row ends past this column.
const END: u32 = SIDE as u32;

// The first column of an empty row.
const NO_COLUMN: u8 = SIDE as u8;

// An edge at a row: it goes from row y to row v, and its side value at column 0 is plus - minus.
#[derive(Clone, Copy)]
struct EdgeAtRow {
    y: u32,
    v: u32,
    plus: u32,
    minus: u32,
}

// An edge from p to q, two cells of the chart.
#[derive(Clone, Copy)]
struct Edge {
    p: Point,
    q: Point,
    ghost on_chart: { (p.col < side) × (p.row < side) × (q.col < side) × (q.row < side) },
}

impl Edge {
    // The edge at a row.
    #[tactic(auto, using(crate::proofs::Columns::product_small))]
    fn at_row(self, row: u32) -> EdgeAtRow
        requires { row < side }
        ensures { (result ≡ edge_at_row self.p self.q row) × (result.plus < 2 * 65536) }
    {
        let x = u32::from(self.p.col);
        let y = u32::from(self.p.row);
        let u = u32::from(self.q.col);
        let v = u32::from(self.q.row);
        EdgeAtRow {
            y,
            v,
            plus: u * y + x * row,
            minus: v * x + u * row,
        }
    }
}

// The first column of the row inside the edge.
fn first_column(e: EdgeAtRow) -> u32
    ensures { result ≡ first_of e }
{
    if e.v <= e.y {
        return 0;
    }
    if e.minus <= e.plus {
        return 0;
    }
    (e.minus - e.plus - 1) / (e.v - e.y) + 1
}

// The column past the last one.
fn end_column(e: EdgeAtRow) -> u32
    requires { e.plus < 2 * 65536 }
    ensures { result ≡ end_of e }
{
    if e.y < e.v {
        return END;
    }
    if e.plus < e.minus {
        return 0;
    }
    if e.y == e.v {
        return END;
    }
    (e.plus - e.minus) / (e.y - e.v) + 1
}

// The minimum of a byte and a number, and the maximum. They are not the library's alone: the number may be above 255.
fn lower(a: u8, b: u32) -> u8
    ensures { result ≡ min a b }
{
    u32::from(a).min(b) as u8
}

// A number above 255 counts as 255.
fn higher(a: u8, b: u32) -> u8
    ensures { result ≡ max a (min b side) }
{
    u32::from(a).max(b.min(END)) as u8
}

// kept: the functions for the left side and the right side are not one function with closures, as they differ in the bound, in minimum or
// maximum, and in what they require of the array, and each closure would carry all three.
// The column of a corner cell belongs to its row.
fn corner_first(at: Point, first: &mut [u8; ROWS])
    requires { (at.col < side) × (at.row < side) × AllBelow first.old }
    ensures { Lowered (met_from at) first.old first.new }
{
    let row = usize::from(at.row);
    first[row] = lower(first[row], u32::from(at.col));
}

fn corner_end(at: Point, end: &mut [u8; ROWS])
    requires { (at.col < side) × (at.row < side) × (length end.old ≡ 256) }
    ensures { Raised (met_to at) end.old end.new }
{
    let row = usize::from(at.row);
    end[row] = higher(end[row], u32::from(at.col) + 1);
}

// An edge that rises bounds the rows between its cells on the left.
fn rise(edge: Edge, first: &mut [u8; ROWS])
    requires { AllBelow first.old }
    ensures { Lowered (risen_from edge.p edge.q) first.old first.new }
{
    for row in edge.p.row + 1..edge.q.row {
        let bound = first_column(edge.at_row(u32::from(row)));
        let at = usize::from(row);
        first[at] = lower(first[at], bound);
    }
}

// An edge that falls bounds the rows between on the right.
fn fall(edge: Edge, end: &mut [u8; ROWS])
    requires { length end.old ≡ 256 }
    ensures { Raised (fallen_to edge.p edge.q) end.old end.new }
{
    for row in edge.q.row + 1..edge.p.row {
        let bound = end_column(edge.at_row(u32::from(row)));
        let at = usize::from(row);
        end[at] = higher(end[at], bound);
    }
}

// The first column of every row and the column past the last, in one walk. The arrays come in with every row empty. They are two, so that
// the loop of `compare_rows` takes the bytes of many rows at once.
fn sweep(anchor: Point, edges: &[i16], first: &mut [u8; ROWS], end: &mut [u8; ROWS])
    requires { Fit (polygon anchor edges.now) × (first.old ≡ replicate 256 side) × (end.old ≡ replicate 256 0) }
    ensures { Swept (polygon anchor edges.now) first.new end.new }
{
    let mut at = anchor;
    let (list, _) = edges.as_chunks::<2>();
    for &[dx, dy] in list {
        corner_first(at, first);
        corner_end(at, end);
        let next = edge_walk::cell(edge_walk::further(edge_walk::start(at), dx, dy));
        let edge = Edge { p: at, q: next };
        rise(edge, first);
        fall(edge, end);
        at = next;
    }
    corner_first(at, first);
    corner_end(at, end);
}

// Every row of the first polygon lies within the second's; the other way round; no row has a common column.
#[derive(Clone, Copy)]
pub(crate) struct Tests {
    pub inward: bool,
    pub outward: bool,
    pub apart: bool,
}

// Compares two polygons given by their rows. An empty row lies within every other row and has no column in common with any.
fn compare_rows<'a>(
    first: &'a [u8; ROWS],
    end: &'a [u8; ROWS],
    other_first: &'a [u8; ROWS],
    other_end: &'a [u8; ROWS],
) -> Tests
    ensures { result ≡ compared first.now end.now other_first.now other_end.now }
{
    let mut inward = true;
    let mut outward = true;
    let mut apart = true;
    // Four lists at once: three `zip`s with their nested pairs are no plainer than the row.
    for row in 0..usize::from(SIDE) {
        let a = first[row];
        let b = end[row];
        let c = other_first[row];
        let d = other_end[row];
        inward &= (b <= a) | ((c <= a) & (b <= d));
        outward &= (d <= c) | ((a <= c) & (d <= b));
        apart &= (b <= a) | (d <= c) | (b <= c) | (d <= a);
    }
    Tests {
        inward,
        outward,
        apart,
    }
}

// The tests of two polygons, in time linear in their edges and rows.
pub(crate) fn test_rows(anchor: Point, edges: &[i16], other: Point, others: &[i16]) -> Tests
    requires { Fit (polygon anchor edges.now) × Fit (polygon other others.now) }
    ensures { result ≡ tests_of (polygon anchor edges.now) (polygon other others.now) }
{
    let mut first = [NO_COLUMN; ROWS];
    let mut end = [0u8; ROWS];
    let mut other_first = [NO_COLUMN; ROWS];
    let mut other_end = [0u8; ROWS];
    sweep(anchor, edges, &mut first, &mut end);
    sweep(other, others, &mut other_first, &mut other_end);
    compare_rows(&first, &end, &other_first, &other_end)
}
