// Finds the lowest missing cell of an outline, and three cells whose triangle has it, in one pass over the rows. Rows may have gaps.
#![tactic(auto)]

ghost use Rattle.std.specs.Prelude.{ℕ, ◌+◌, ◌-◌, ◌<◌, ◌≤◌, ◌≡◌, cond, ltb};
ghost use Rattle.chart.specs.Limits.{side};
ghost use Rattle.rows.specs.parts.Rows.{rows};
ghost use Rattle.chart.specs.Outline.{outline};
ghost use Rattle.lattice.specs.Refusals.{Simple};
ghost use Rattle.witness_search.specs.parts.Answers.{Answers, Shows, Finds};

use chart::{Point, SIDE};
use row_sides::{Sides, pass};
use rows::{crossing, edge_start, mirrored, tangents};

// The lowest missing cell, and three cells whose triangle has it.
#[derive(Clone, Copy)]
pub struct Shown {
    pub cell: Point,
    pub a: Point,
    pub b: Point,
    pub d: Point,
}

// A cell of row `r`.
fn cell(col: u16, r: usize) -> Point
    requires { r < 256 }
    ensures { (result.col ≡ col) × (result.row ≡ r) }
{
    Point { col, row: r as u16 }
}

// The three cells for column `c` of row `r`, with the left edge from row `i` to row `j` and the right edge from row `k` to row `n`.
fn display(sides: &Sides, i: usize, j: usize, k: usize, n: usize, c: u16, r: usize) -> Shown
    requires { (i < 256) × (j < 256) × (k < 256) × (n < 256) × (r < 256) }
    ensures { Shows (rows sides.now.lo) (rows sides.now.hi) i j k n c r result.cell result.a result.b result.d }
{
    let x = cell(c, r);
    if c < sides.lo[r] {
        return Shown {
            cell: x,
            a: cell(sides.lo[i], i),
            b: cell(sides.lo[j], j),
            d: cell(sides.lo[r], r),
        };
    }
    let last = cell(sides.hi[r].saturating_sub(1), r);
    if c < sides.hi[r] {
        return Shown {
            cell: x,
            a: cell(sides.lo[r], r),
            b: last,
            d: last,
        };
    }
    Shown {
        cell: x,
        a: cell(sides.hi[k].saturating_sub(1), k),
        b: cell(sides.hi[n].saturating_sub(1), n),
        d: last,
    }
}

// Column `l` if it is left of the row's first column, otherwise the end of the row's first interval.
fn column(l: usize, first: u16, end: u16) -> u16
    ensures { result ≡ cond (ltb l first) l end }
{
    if l < usize::from(first) {
        l as u16
    } else {
        end
    }
}

// Column `c` is left of the hull's right end, which is `x` columns left of the chart's.
fn gap(c: u16, x: usize) -> bool
    ensures { result ≡ ltb c (side - x) }
{
    usize::from(c) < usize::from(SIDE).saturating_sub(x)
}

// Goes up the rows from the lowest corner's to the highest's, keeping the hull's left and right edge across the current row.
pub fn search(sides: &Sides) -> Option<Shown>
    requires { (sides.now.low + 1 < sides.now.high) × (sides.now.high ≤ side) }
    ensures { Answers (rows sides.now.lo) (rows sides.now.en) (rows sides.now.hi) sides.now.low
        sides.now.high result }
{
    let b = usize::from(sides.low);
    let t = usize::from(sides.high);
    let m = mirrored(&sides.hi);
    let left = tangents(&sides.lo, b, t);
    let right = tangents(&m, b, t);
    let mut i = b;
    let mut k = b;
    for r in b..t {
        i = edge_start(&left, i, r);
        k = edge_start(&right, k, r);
        let j = usize::from(left[i]);
        let n = usize::from(right[k]);
        let l = crossing(&sides.lo, i, j, r);
        let x = crossing(&m, k, n, r);
        let c = column(l, sides.lo[r], sides.en[r]);
        if gap(c, x) {
            return Some(display(sides, i, j, k, n, c, r));
        }
    }
    None
}

// For one row alone: a gap within it.
fn single(sides: &Sides) -> Option<Shown>
    requires { (sides.now.low < 256) × (rows sides.now.hi sides.now.low ≤ side)
        × (rows sides.now.lo sides.now.low < rows sides.now.en sides.now.low) }
    ensures { Answers (rows sides.now.lo) (rows sides.now.en) (rows sides.now.hi) sides.now.low
        (sides.now.low + 1) result }
{
    let b = usize::from(sides.low);
    let c = sides.en[b];
    if c < sides.hi[b] {
        return Some(display(sides, b, b, b, b, c, b));
    }
    None
}

// The lowest missing cell of an outline that passes 1 to 6, and three enclosed cells whose triangle has it.
pub fn find(s: Point, w: &[u8]) -> Option<Shown>
    requires { Simple (outline s w.now) }
    ensures { Finds (outline s w.now) result }
{
    let sides = pass(s, w);
    if sides.low + 1 < sides.high {
        return search(&sides);
    }
    single(&sides)
}
