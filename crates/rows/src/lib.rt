// Finds the lowest missing cell from the ends of the rows.
#![tactic(auto)]

ghost use Rattle.std.specs.Prelude.{◌≡◌, ℕ, suc, ◌+◌, ◌-◌, ◌*◌, ◌%◌, ◌<◌, ◌≤◌, leb, length, if◌then◌else◌, nat_le, nat_lt};
ghost use Rattle.chart.specs.Limits.{side};
ghost use Rattle.chart.specs.Outline.{outline};
ghost use Rattle.rows.specs.Search.{furthest as furthest_of, crossing as crossing_of, gap_row, chain as chain_of, lowest_gap};
ghost use Rattle.rows.specs.Search.{corner_numbered, stride as stride_of, found_cell};
ghost use Rattle.lattice.specs.Enclosed.{up_along, down_along};
ghost use Rattle.rows.specs.parts.Rows.{rows, Marked, RowEnds, Tangents};

use chart::{Point, SIDE};

// An array has one number for each row of corners.
const ROWS: usize = 256;

// Corners are numbered row by row, this many to a row.
const WIDTH: u16 = 256;

// What a left adds to the number of a corner, and what a down adds, modulo 65,536.
const LEFT: u16 = 65535;

const DOWN: u16 = 65535 - WIDTH + 1;

// The ends of the rows. Row `r` of an outline goes from column `lo[r]` up to but not including column `hi[r]`. Two arrays, not one of
// pairs: each side of the hull is found from its own ends alone.
#[derive(Clone, Copy)]
pub struct Ends {
    pub lo: [u16; ROWS],
    pub hi: [u16; ROWS],
}

// What a letter adds to the number of a corner. `survey_walk` has another such match, with other constants of another type: one function
// for both would be given them all at each call.
pub fn stride(letter: u8) -> u16
    ensures { result ≡ stride_of (letter % 4) }
{
    match letter % 4 {
        0 => 1,
        1 => WIDTH,
        2 => LEFT,
        _ => DOWN,
    }
}

// Stores the column of an up, which is the left end of a row.
fn mark_up(lo: &mut [u16; ROWS], number: u16, letter: u8)
    requires { length lo.old ≡ 256 }
    ensures { Marked (up_along (corner_numbered number) letter) (number % 256) lo.old lo.new }
{
    if letter == 1 {
        let row = usize::from(number / WIDTH);
        lo[row] = number % WIDTH;
    }
}

// Stores the column of a down, which is the right end of a row.
fn mark_down(hi: &mut [u16; ROWS], number: u16, letter: u8)
    requires { length hi.old ≡ 256 }
    ensures { Marked (down_along (corner_numbered number) letter) (number % 256) hi.old hi.new }
{
    let row = usize::from(number / WIDTH);
    if letter == 3 && 0 < row {
        hi[row - 1] = number % WIDTH;
    }
}

// Finds the ends of the rows of an outline in one pass over its letters. The next number is computed before the branches, which is faster.
pub fn row_ends(s: Point, w: &[u8]) -> Ends
    ensures { RowEnds (outline s w.now) result.lo result.hi }
{
    let mut lo = [0u16; ROWS];
    let mut hi = [0u16; ROWS];
    let mut number = s.row % WIDTH * WIDTH + s.col % WIDTH;
    for letter in w {
        let next = number.wrapping_add(stride(*letter));
        mark_up(&mut lo, number, *letter);
        mark_down(&mut hi, number, *letter);
        number = next;
    }
    Ends { lo, hi }
}

// The column at which row `r` begins.
fn begins(lo: &[u16; ROWS], r: u32) -> u32
    requires { r < 256 }
    ensures { (result ≡ rows lo.now r) × (result < 65536) }
{
    u32::from(lo[r as usize])
}

// A row begins at column `a`, the row `near` rows above it at `b`, and the row `far` rows above it at `c`. Whether the third, seen from the
// first, is at least as far left as the second.
fn as_far_left(a: u32, b: u32, c: u32, near: u32, far: u32) -> bool
    requires { (a < 65536) × (b < 65536) × (c < 65536) × (near ≤ far) × (far < 256) }
    ensures { result ≡ nat_le (c * near + a * (far - near)) (b * far) }
{
    c * near + a * (far - near) <= b * far
}

// Of rows `i + 1` to `t - 1`, the one that is furthest left, seen from row `i`. Among equals it is the highest. `next` has the same for the
// rows above row `i`, and `above` is its entry for row `i + 1`.
fn tangent(lo: &[u16; ROWS], next: &[u16; ROWS], i: u32, t: u32, above: u32) -> u32
    requires { (i + 1 < t) × (t ≤ side) × (above ≡ rows next.now (suc i)) × Tangents (rows lo.now) (rows next.now) (suc i) t }
    ensures { (result ≡ furthest_of (rows lo.now) i (suc i) (suc (suc i)) (t - suc (suc i))) × (i < result) × (result < t) }
{
    let a = begins(lo, i);
    let mut j = i + 1;
    let mut b = begins(lo, j);
    let mut k = above;
    // Each row is read from the one before it, so no range gives them.
    while j + 1 < t {
        let c = begins(lo, k);
        if !as_far_left(a, b, c, j - i, k - i) {
            return j;
        }
        j = k;
        b = c;
        k = u32::from(next[j as usize]);
    }
    j
}

// The same for every row from `b` up, computed from the top row down (monotone chain). The last row stored is kept in a variable, because
// loading it again would have to wait for the store. Rows `b` to `t` stay two numbers here and below: each function goes along the rows
// from one to the other, or has another do so, and a struct of both would be opened at once.
pub fn tangents(lo: &[u16; ROWS], b: usize, t: usize) -> [u16; ROWS]
    requires { (b ≤ t) × (t ≤ side) }
    ensures { Tangents (rows lo.now) (rows result) b t }
{
    let mut next = [0u16; ROWS];
    let bottom = b as u32;
    let top = t as u32;
    let mut above: u32 = 0;
    for i in (bottom + 1..top).rev() {
        above = tangent(lo, &next, i - 1, top, above);
        next[(i - 1) as usize] = above as u16;
    }
    next
}

// The row where the hull edge across row `r` starts. `i` is the row where the edge across the row below starts, and `next` has the row
// where each edge ends.
pub fn edge_start(next: &[u16; ROWS], i: usize, r: usize) -> usize
    requires { i < 256 }
    ensures { result ≡ (if leb r (rows next.now i) then i else rows next.now i) }
{
    let j = usize::from(next[i]);
    if r <= j { i } else { j }
}

// The first column of row `r` that is not left of the line from row `i` to row `j`.
pub fn crossing(lo: &[u16; ROWS], i: usize, j: usize, r: usize) -> usize
    requires { (i < j) × (i ≤ r) × (r ≤ j) × (j < 256) }
    ensures { (result ≡ crossing_of (rows lo.now) i j r) × (result < 65536) }
{
    let at = i as u32;
    let end = j as u32;
    let row = r as u32;
    let a = begins(lo, at);
    let b = begins(lo, end);
    let height = end - at;
    let col = ((end - row) * a + (row - at) * b + (height - 1)) / height;
    col as usize
}

// Whether row `r` begins right of that column. It needs no division.
fn is_gap(lo: &[u16; ROWS], i: u32, j: u32, r: u32) -> bool
    requires { (i < r) × (r < j) × (j < 256) }
    ensures { result ≡ nat_lt (crossing_of (rows lo.now) i j r) (rows lo.now r) }
{
    let a = begins(lo, i);
    let b = begins(lo, j);
    let c = begins(lo, r);
    let height = j - i;
    (j - r) * a + (r - i) * b + (height - 1) < c * height
}

// The first row after `i` and before `j` that begins right of that column, or `j` if there is none.
fn gap_row(lo: &[u16; ROWS], i: u32, j: u32) -> u32
    requires { (i < j) × (j < 256) }
    ensures { (result ≡ gap_row (rows lo.now) i j) × (i < result) × (result ≤ j) }
{
    for r in i + 1..j {
        if is_gap(lo, i, j, r) {
            return r;
        }
    }
    j
}

// Goes up the left side of the hull from row `b`. In the first row that begins right of the side, the first column inside the hull. If
// there is no such row, a cell of row `t`.
fn chain(lo: &[u16; ROWS], t: usize, b: usize) -> Point
    requires { (b ≤ t) × (t ≤ side) }
    ensures { (result ≡ chain_of (rows lo.now) t b (t - b)) × (result.row ≤ t) }
{
    let next = tangents(lo, b, t);
    let top = t as u32;
    let mut i = b as u32;
    // Each edge begins where the one before it ends, so no range gives them.
    while i + 1 < top {
        let j = u32::from(next[i as usize]);
        let r = gap_row(lo, i, j);
        if r < j {
            return Point {
                col: crossing(lo, i as usize, j as usize, r as usize) as u16,
                row: r as u16,
            };
        }
        i = j;
    }
    Point {
        col: 0,
        row: t as u16,
    }
}

// The left ends of the mirror image, from the right ends of the rows.
pub fn mirrored(hi: &[u16; ROWS]) -> [u16; ROWS]
    ensures { (k : ℕ) → k < 256 → rows result k ≡ side - rows hi.now k }
{
    let mut left = *hi;
    for end in left.iter_mut() {
        *end = SIDE.saturating_sub(*end);
    }
    left
}

// The lower of the gaps on the left and on the right side of rows `b` to `t - 1`. In the same row, the left one.
fn lowest_gap(ends: &Ends, b: usize, t: usize) -> Point
    requires { (b ≤ t) × (t ≤ side) }
    ensures { result ≡ lowest_gap (rows ends.now.lo) (rows ends.now.hi) b t }
{
    let left = chain(&ends.lo, t, b);
    let right = chain(&mirrored(&ends.hi), t, b);
    if left.row <= right.row {
        return left;
    }
    let row = usize::from(right.row);
    Point {
        col: ends.hi[row],
        row: right.row,
    }
}

// The lowest missing cell, leftmost in its row, of an outline between corner rows `bottom` and `top`. If these are not rows of the chart in
// order, the start.
pub fn missing_cell(s: Point, w: &[u8], bottom: u16, top: u16) -> Point
    ensures { result ≡ found_cell (outline s w.now) bottom top }
{
    if SIDE < top || top < bottom {
        return s;
    }
    lowest_gap(&row_ends(s, w), usize::from(bottom), usize::from(top))
}
