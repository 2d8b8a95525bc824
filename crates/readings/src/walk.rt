// The walk along a polygon's edges that locates a reading.
ghost use Rattle.std.specs.Prelude.{◌≡◌, false};
ghost use Rattle.readings.specs.Sides.{computed_side};
ghost use Rattle.readings.specs.Located.{bad_number, bad_reading};
ghost use Rattle.readings.specs.parts.Walk.{Reached, met, arrived, begun, passed, spanned, settled};

use crate::{LAST, Located};
use calls::Reading;
use chart::Point;
use edge_walk::Corner;

// A computed side value between the negative of this and this leaves open on which side of the edge the reading lies.
const SIXTY_FOURTH: f32 = 0.015625;

// One coordinate of the corner cells met so far: the least and the greatest number.
#[derive(Clone, Copy)]
struct Met {
    least: i32,
    most: i32,
}

// The current corner cell, what the walk has met, and whether the reading was near an edge.
#[derive(Clone, Copy)]
pub(crate) struct Walk {
    at: Corner,
    cols: Met,
    rows: Met,
    near: bool,
}

// Adds one more number.
fn meet(m: Met, n: i32) -> Met
    ensures { result ≡ met m n }
{
    Met {
        least: m.least.min(n),
        most: m.most.max(n),
    }
}

// The computed side value of the edge (dx, dy) that starts at a corner cell: subtract, multiply, subtract, each rounded.
fn side(dx: i16, dy: i16, at: Corner, r: Reading) -> f32
    requires { Reached at.col × Reached at.row }
    ensures { result ≡ computed_side r (record { cols = dx; rows = dy; col = at.col; row = at.row }) }
{
    let across = (dy as f32) * (r.angle - (at.col as f32));
    let up = (dx as f32) * (r.load - (at.row as f32));
    across - up
}

// The walk one corner cell further.
#[tactic(auto, unfolding(crate::specs::parts::Walk::arrived))]
fn arrive(w: Walk, at: Corner, near: bool) -> Walk
    ensures { result ≡ arrived w at near }
{
    Walk {
        at,
        cols: meet(w.cols, at.col),
        rows: meet(w.rows, at.row),
        near: w.near | near,
    }
}

// The walk at its start.
#[tactic(auto, unfolding(crate::specs::parts::Walk::begun))]
pub(crate) fn begin(anchor: Point) -> Walk
    ensures { result ≡ begun anchor }
{
    let at = edge_walk::start(anchor);
    Walk {
        at,
        cols: Met {
            least: at.col,
            most: at.col,
        },
        rows: Met {
            least: at.row,
            most: at.row,
        },
        near: false,
    }
}

// The walk one edge further, or none: the reading is far outside that edge. Most readings are near no edge, so one comparison comes first.
pub(crate) fn pass(w: Walk, dx: i16, dy: i16, r: Reading) -> Option<Walk>
    requires { Reached w.at.col × Reached w.at.row }
    ensures { result ≡ passed w dx dy r }
{
    let v = side(dx, dy, w.at, r);
    let next = edge_walk::further(w.at, dx, dy);
    if v < SIXTY_FOURTH {
        if v <= -SIXTY_FOURTH {
            return None;
        }
        return Some(arrive(w, next, true));
    }
    Some(arrive(w, next, false))
}

// Whether the numbers met are on the chart, and x lies between them.
fn within(m: Met, x: f32) -> bool
    requires { Reached m.least × Reached m.most × (bad_number x ≡ false) }
    ensures { result ≡ spanned m x }
{
    (0 <= m.least) & (m.most <= i32::from(LAST)) & ((m.least as f32) <= x) & (x <= (m.most as f32))
}

// The answer at the end of the walk.
#[tactic(auto, unfolding(crate::specs::parts::Walk::settled))]
pub(crate) fn settle(w: Walk, r: Reading) -> Located
    requires { Reached w.cols.least × Reached w.cols.most × (Reached w.rows.least × Reached w.rows.most)
        × (bad_reading r ≡ false) }
    ensures { result ≡ settled w r }
{
    if !within(w.cols, r.angle) {
        return Located::Outside;
    }
    if !within(w.rows, r.load) {
        return Located::Outside;
    }
    if w.near {
        Located::Undecided
    } else {
        Located::Inside
    }
}
