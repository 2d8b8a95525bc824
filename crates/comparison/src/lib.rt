// Compares the hulls of two anchors and two lists of edges (contract 6.4).
#![tactic(auto)]

ghost use Rattle.std.specs.Prelude.{◌≡◌, not, pos};
ghost use Rattle.convexity.specs.Edges.{pairs};
ghost use Rattle.chart.specs.Fields.{comparison_fields, numbers_of, fields_of};
ghost use Rattle.nesting.specs.Cells.{polygon, Fit};
ghost use Rattle.nesting.specs.Corners.{corners_on_chart};
ghost use Rattle.nesting.specs.Answer.{by_tests, nesting};
ghost use Rattle.comparison.specs.Compared.{checked_of, named_list, comparison_of, CellsNamed, ReturnedList};

use chart::reply::{NUMBERS, put};
use chart::{Fields, Nesting, Point, Refusal, RefusedList};
use equality::same_edges;
use row_walk::Tests;

mod row_walk;

// 11 of a list: some corner cell is off the chart.
fn leaves_chart(anchor: Point, edges: &[i16]) -> bool
    ensures { result ≡ not (corners_on_chart (pairs edges.now) (pos anchor.col) (pos anchor.row)) }
{
    let mut at = edge_walk::start(anchor);
    let (list, _) = edges.as_chunks::<2>();
    for &[dx, dy] in list {
        if !edge_walk::on_chart(at) {
            return true;
        }
        at = edge_walk::further(at, dx, dy);
    }
    !edge_walk::on_chart(at)
}

// Checks 10, 11 of the anchor, 16, then 11 of the corner cells.
pub fn check(anchor: Point, edges: &[i16]) -> Result<(), Refusal>
    ensures { result ≡ checked_of anchor edges.now }
{
    if polygon::bad_list(edges) {
        return Err(Refusal::EdgeList { edges: 0 });
    }
    if polygon::bad_cell(anchor) {
        return Err(Refusal::Cell);
    }
    if polygon::bad_directions(edges) {
        return Err(Refusal::Directions);
    }
    if leaves_chart(anchor, edges) {
        return Err(Refusal::Cell);
    }
    Ok(())
}

// Checks a list. A refusal names it.
fn check_list(list: u16, anchor: Point, edges: &[i16]) -> Result<(), RefusedList>
    ensures { result ≡ named_list list (checked_of anchor edges.now) }
{
    check(anchor, edges).map_err(|refusal| RefusedList { list, refusal })
}

// How the cells lie, from the tests of the rows.
#[tactic(auto, unfolding(nesting::specs::Answer::by_tests))]
fn by_rows(t: Tests) -> Nesting
    ensures { result ≡ by_tests t.inward t.outward (not t.apart) }
{
    if t.inward {
        if t.outward {
            return Nesting::Equal;
        }
        return Nesting::FirstWithin;
    }
    if t.outward {
        return Nesting::SecondWithin;
    }
    if t.apart {
        return Nesting::Apart;
    }
    Nesting::Crossing
}

// How the cells in two hulls lie. Equal lists are decided without the rows.
fn nest(anchor: Point, edges: &[i16], other: Point, others: &[i16]) -> Nesting
    requires { Fit (polygon anchor edges.now) × Fit (polygon other others.now) }
    ensures { result ≡ nesting (polygon anchor edges.now) (polygon other others.now) }
{
    if same_edges(anchor, edges, other, others) {
        return Nesting::Equal;
    }
    by_rows(row_walk::test_rows(anchor, edges, other, others))
}

// The refusals of the first list, then of the second, and otherwise how the cells in their hulls lie.
pub fn relate(
    anchor: Point,
    edges: &[i16],
    other: Point,
    others: &[i16],
) -> Result<Nesting, RefusedList>
    ensures answer { result ≡ comparison_of anchor edges.now other others.now }
    ensures cells { CellsNamed (polygon anchor edges.now) (polygon other others.now) (comparison_fields result) }
{
    check_list(1, anchor, edges)?;
    check_list(2, other, others)?;
    Ok(nest(anchor, edges, other, others))
}

// The inner one's list: the first if both are equal. It is an empty part of the first if neither lies within the other or a list is
// refused.
fn inner<'a>(
    comparison: Result<Nesting, RefusedList>,
    edges: &'a [i16],
    others: &'a [i16],
) -> &'a [i16]
    ensures { ReturnedList (comparison_fields comparison) result edges.entry others.entry }
{
    match comparison {
        Err(_) => &edges[..0],
        Ok(nesting) => match nesting {
            Nesting::Equal => edges,
            Nesting::FirstWithin => edges,
            Nesting::SecondWithin => others,
            Nesting::Apart => &edges[..0],
            Nesting::Crossing => &edges[..0],
        },
    }
}

// The comparison with its reply and the inner one's own list. Without an inner one the list is an empty part of the first.
pub fn compare<'a>(
    anchor: Point,
    edges: &'a [i16],
    other: Point,
    others: &'a [i16],
    reply: &mut [u16; NUMBERS],
) -> &'a [i16]
    ensures reply { reply.new
        ≡ numbers_of (comparison_fields (comparison_of anchor edges.now other others.now)) }
    ensures cells { CellsNamed (polygon anchor edges.now) (polygon other others.now)
        (fields_of reply.new) }
    ensures list { ReturnedList (fields_of reply.new) result edges.entry others.entry }
{
    let comparison = relate(anchor, edges, other, others);
    put(Fields::from(comparison), reply);
    inner(comparison, edges, others)
}
