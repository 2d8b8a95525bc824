// Finds the left ends of the rows of a hull in one pass up its left side.
#![tactic(auto)]

ghost use Rattle.std.specs.Prelude.{◌<◌, ◌≤◌, ◌≡◌, length};
ghost use Rattle.chart.specs.Limits.{side};
ghost use Rattle.rows.specs.parts.Rows.{rows};
ghost use Rattle.hull_rows.specs.parts.Ends.{LeftEnds, Lowest};

use rows::{crossing, edge_start, tangents};

// Replaces the first columns `lo` of rows `b` to `t - 1` by those of the hull. Rows where an edge ends keep theirs, so this works in place.
pub fn left(lo: &mut [u16; 256], b: usize, t: usize)
    requires { (length lo.old ≡ 256) × (b < t) × (t ≤ side) }
    ensures { LeftEnds (rows lo.old) (rows lo.new) b t }
{
    let next = tangents(lo, b, t);
    let mut i = b;
    for r in b + 1..t {
        i = edge_start(&next, i, r);
        let j = usize::from(next[i]);
        let column = crossing(lo, i, j, r);
        lo[r] = column as u16;
    }
}

// The lowest of the rows `b` to `t - 1` that begin furthest left.
pub fn lowest(lo: &[u16; 256], b: usize, t: usize) -> usize
    requires { (b < t) × (t ≤ side) }
    ensures { Lowest (rows lo.now) b t result }
{
    let mut m = b;
    for r in b + 1..t {
        if lo[r] < lo[m] {
            m = r;
        }
    }
    m
}
