// Plain counting of cells: the definitions of contract 2, by trying every cell and every three cells. It uses nothing of the engine.
ghost use Rattle.std.specs.Prelude.{◌≤◌};

use crate::cells::CELLS;
use crate::{cells, sets, walks};

// What is counted.
#[derive(Clone, Copy)]
pub(crate) enum Counted {
    // The enclosed cells are convex: their set.
    Convex(u32),
    // A row or a column has a gap.
    Gap,
    // The lowest missing cell.
    Dent(u16),
}

// The letter between two corners steps up along the cell's row, at the cell's column or left of it.
fn climbs(from: u16, to: u16, k: u16) -> bool {
    from < to && to - from == 5 && from / 5 == cells::row(k) && from % 5 <= cells::col(k)
}

// The two numbers differ by one.
fn one_apart(a: u64, b: u64) -> bool {
    a == b.wrapping_add(1) || b == a.wrapping_add(1)
}

// Enclosed: clockwise, ups minus downs is 1. In the other direction ups and downs change places, and downs minus ups is 1.
fn encloses(corners: &[u16], k: u16) -> bool {
    let mut ups = 0u64;
    let mut downs = 0u64;
    for i in 0..corners.len() {
        let from = walks::corner_at(corners, i);
        let to = walks::corner_at(corners, i + 1);
        ups = ups.wrapping_add(u64::from(climbs(from, to, k)));
        downs = downs.wrapping_add(u64::from(climbs(to, from, k)));
    }
    one_apart(ups, downs)
}

// The enclosed cells.
fn enclosed(corners: &[u16]) -> u32 {
    let mut set = 0;
    for k in 0..CELLS {
        if encloses(corners, k) {
            set = sets::with(set, k);
        }
    }
    set
}

// Three cells of one row or one column. Only the middle one is not in the set.
fn gap_at(set: u32, a: u16, b: u16, c: u16) -> bool {
    let level = cells::row(a) == cells::row(c);
    let upright = cells::col(a) == cells::col(b) && cells::col(b) == cells::col(c);
    a < b
        && b < c
        && (level || upright)
        && sets::has(set, a)
        && !sets::has(set, b)
        && sets::has(set, c)
}

// Some three cells have a property, tried in every order.
fn some_three<F: Fn(u16, u16, u16) -> bool>(holds: F) -> bool
    requires { F.IsAlwaysCallable holds }
{
    for a in 0..CELLS {
        for b in 0..CELLS {
            for c in 0..CELLS {
                if holds(a, b, c) {
                    return true;
                }
            }
        }
    }
    false
}

// Some row or column has a gap.
fn has_gap(set: u32) -> bool {
    some_three(|a, b, c| gap_at(set, a, b, c))
}

// The column of one cell times the row of another.
fn moment(a: u16, b: u16) -> u16
    ensures { result ≤ 9 }
{
    let x = cells::col(a);
    let y = cells::row(b);
    if 3 < x {
        return 0;
    }
    if 3 < y {
        return 0;
    }
    x * y
}

// The signed area of three cells is not negative: they turn left or lie on one line.
fn not_right(a: u16, b: u16, c: u16) -> bool {
    let left = moment(a, b) + moment(b, c) + moment(c, a);
    let right = moment(b, a) + moment(c, b) + moment(a, c);
    right <= left
}

// A number between the smallest and the largest of three others.
fn amid(a: u16, b: u16, c: u16, x: u16) -> bool {
    (a <= x || b <= x || c <= x) && (x <= a || x <= b || x <= c)
}

// A cell lies in the triangle of three others that do not turn right, border included. Three cells on one line are a segment.
fn in_triangle(a: u16, b: u16, c: u16, x: u16) -> bool {
    not_right(a, b, x)
        && not_right(b, c, x)
        && not_right(c, a, x)
        && amid(cells::col(a), cells::col(b), cells::col(c), cells::col(x))
        && amid(cells::row(a), cells::row(b), cells::row(c), cells::row(x))
}

// Three cells of the set have the cell in their triangle.
fn held_by(set: u32, a: u16, b: u16, c: u16, x: u16) -> bool {
    sets::has(set, a) && sets::has(set, b) && sets::has(set, c) && in_triangle(a, b, c, x)
}

// Some three cells of the set have the cell in their triangle.
fn in_hull(set: u32, x: u16) -> bool {
    some_three(|a, b, c| held_by(set, a, b, c, x))
}

// The hull of a set.
fn hull(set: u32) -> u32 {
    let mut filled = 0;
    for k in 0..CELLS {
        if in_hull(set, k) {
            filled = sets::with(filled, k);
        }
    }
    filled
}

// A closed walk, whichever corner it starts from.
pub(crate) fn count(corners: &[u16]) -> Counted {
    let set = enclosed(corners);
    if has_gap(set) {
        return Counted::Gap;
    }
    match cells::lowest(hull(set) ^ set) {
        Some(missing) => Counted::Dent(missing),
        None => Counted::Convex(set),
    }
}

// From p towards q, a cell lies to the right, or on the segment between them.
fn passed(p: u16, q: u16, x: u16) -> bool {
    !not_right(p, q, x) || in_triangle(p, q, q, x)
}

// The segment from p to q is a whole edge of the hull, clockwise: no cell of the set is left of it or beyond its ends.
fn is_edge(set: u32, p: u16, q: u16) -> bool {
    p != q && sets::has(set, q) && (0..CELLS).all(|x| !sets::has(set, x) || passed(p, q, x))
}

// The vertex of the hull after p, clockwise.
pub(crate) fn next_vertex(set: u32, p: u16) -> Option<u16> {
    (0..CELLS).find(|q| is_edge(set, p, *q))
}
