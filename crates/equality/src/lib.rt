// Equality of two lists, and of two anchors with their edges.
#![tactic(auto)]

ghost use Rattle.std.specs.Prelude.{◌≡◌, ◌&&◌, Decides};
ghost use Rattle.base.specs.Same.{sameℤs};
ghost use Rattle.lattice.specs.Chart.{same_point};

use chart::Point;

// The lists are the same. The library's `==` of slices compares in groups, which is 2,000 bytes of code more on a controller for each type.
// One function over a type that has `==` could promise only what that `==` says, and not that the lists are the same: so there are two.
pub fn same_bytes(a: &[u8], b: &[u8]) -> bool
    ensures { Decides result (a.now ≡ b.now) }
{
    a.len() == b.len() && a.iter().zip(b).all(|(x, y)| x == y)
}

pub fn same_numbers(a: &[i16], b: &[i16]) -> bool
    ensures { result ≡ sameℤs a.now b.now }
{
    a.len() == b.len() && a.iter().zip(b).all(|(x, y)| x == y)
}

// The anchors and the edges are the same.
pub fn same_edges(anchor: Point, edges: &[i16], other: Point, others: &[i16]) -> bool
    ensures { result ≡ (same_point anchor other && sameℤs edges.now others.now) }
{
    anchor == other && same_numbers(edges, others)
}
