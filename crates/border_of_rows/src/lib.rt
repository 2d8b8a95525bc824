// Writes the letters round a block of rows, clockwise from the left end of one row.
#![tactic(auto)]

ghost use Rattle.std.specs.Prelude.{◌+◌, ◌-◌, ◌*◌, ◌≤◌, ◌<◌, ◌≡◌, ◌++◌, length, drop};
ghost use Rattle.chart.specs.Limits.{side, corners};
ghost use Rattle.rows.specs.parts.Rows.{rows};
ghost use Rattle.completion.specs.RowsOutline.{across as across_of};
ghost use Rattle.completion.specs.parts.Written.{to_row, descent, written_from};
ghost use Rattle.border_of_rows.specs.parts.Wrote.{Wrote};

use chart::CORNERS;

// A side of the block is a list of all rows' ends, and `y` to `e` are the rows to go along, the lower first, as in a range: a struct of the
// three would be made anew for each of the six calls, and is no plainer. Each side is found, counted and gone along without the other, so
// the two are two lists. A loop goes over the pairs of neighbours: a row's end and the end of the row above it.

// How many letters lead from column `a` to column `b`.
fn apart(a: u16, b: u16) -> usize
    ensures { (result ≡ length (across_of a b)) × (result < 65536) }
{
    usize::from(a.abs_diff(b))
}

// How many letters lead along the ends of rows from row `y` up to row `e`, or down again.
fn steps(ends: &[u16; CORNERS], y: usize, e: usize) -> usize
    requires { (y ≤ e) × (e < corners) }
    ensures { (result ≡ length (to_row (rows ends.now) y (e - y))) × (result ≤ 65536 * (e - y)) }
{
    let mut n = 0;
    for &[below, above] in ends[y..=e].array_windows::<2>() {
        n += 1 + apart(below, above);
    }
    n
}

// How many letters lead round rows `b` to `t - 1`, whatever their ends are.
pub fn count(lo: &[u16; CORNERS], hi: &[u16; CORNERS], b: usize, t: usize, m: usize) -> usize
    requires { (b ≤ m) × (m < t) × (t ≤ side) }
    ensures { result ≡ length (written_from (rows lo.now) (rows hi.now) b t m) }
{
    let top = t - 1;
    let left = steps(lo, m, top) + steps(lo, b, m);
    let right = steps(hi, b, top);
    let over = apart(lo[top], hi[top]);
    let back = apart(hi[b], lo[b]);
    left + right + over + back + 2
}

// Writes the rights or the lefts from column `a` to column `b`, usually one letter, and returns where they end.
fn across(out: &mut [u8], at: usize, a: u16, b: u16) -> usize
    requires { at + length (across_of a b) ≤ length out.old }
    ensures { (result ≡ at + length (across_of a b)) × Wrote out.old at (across_of a b) out.new }
{
    let end = at + apart(a, b);
    out[at..end].fill(if a < b { 0 } else { 2 });
    end
}

// Writes the letters up the left ends from row `y` to row `e`.
fn rise(lo: &[u16; CORNERS], y: usize, e: usize, out: &mut [u8], at: usize) -> usize
    requires { (y ≤ e) × (e < corners) × (at + length (to_row (rows lo.now) y (e - y)) ≤ length out.old) }
    ensures { (result ≡ at + length (to_row (rows lo.now) y (e - y)))
        × Wrote out.old at (to_row (rows lo.now) y (e - y)) out.new }
{
    let mut k = at;
    for &[below, above] in lo[y..=e].array_windows::<2>() {
        out[k] = 1;
        k = across(out, k + 1, below, above);
    }
    k
}

// Writes the letters down the right ends from row `e` to row `y`.
fn fall(hi: &[u16; CORNERS], y: usize, e: usize, out: &mut [u8], at: usize) -> usize
    requires { (y ≤ e) × (e < corners) × (at + length (descent (rows hi.now) y (e - y)) ≤ length out.old) }
    ensures { (result ≡ at + length (descent (rows hi.now) y (e - y)))
        × Wrote out.old at (descent (rows hi.now) y (e - y)) out.new }
{
    out[at] = 3;
    let mut k = at + 1;
    for &[below, above] in hi[y..=e].array_windows::<2>().rev() {
        k = across(out, k, above, below);
        out[k] = 3;
        k += 1;
    }
    k
}

// Writes the letters round rows `b` to `t - 1`, clockwise from the left end of row `m`, to the front of a list.
pub fn round(lo: &[u16; CORNERS], hi: &[u16; CORNERS], b: usize, t: usize, m: usize, out: &mut [u8])
    requires b_le_m { (b ≤ m) × (m < t) × (t ≤ side) }
    requires m_in_bounds { length (written_from (rows lo.now) (rows hi.now) b t m) ≤ length out.old }
    ensures { out.new
        ≡ written_from (rows lo.now) (rows hi.now) b t m ++ drop
        (length (written_from (rows lo.now) (rows hi.now) b t m)) out.old }
{
    let top = t - 1;
    let up = rise(lo, m, top, out, 0);
    out[up] = 1;
    let over = across(out, up + 1, lo[top], hi[top]);
    let down = fall(hi, b, top, out, over);
    let back = across(out, down, hi[b], lo[b]);
    rise(lo, b, m, out, back);
}
