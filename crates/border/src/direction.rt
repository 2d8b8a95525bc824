// The direction of an edge: its quadrant, and how many letters it has (contract 3.4 and 3.12).
ghost use Rattle.std.specs.Prelude.{◌≡◌, ◌≤◌, nat_abs};
ghost use Rattle.convexity.specs.FromEdges.{quadrant_of, run_in};

// The absolute value.
pub(crate) fn size(d: i16) -> usize
    ensures { (result ≡ nat_abs d) × (result ≤ 32768) }
{
    usize::from(d.unsigned_abs())
}

// The quadrant, counted from 0: up to right, right to down, down to left, left to up, each without its last direction. 4 for (0, 0).
#[tactic(auto, using(crate::proofs::Directions::quadrants))]
pub(crate) fn quadrant(dx: i16, dy: i16) -> usize
    ensures { result ≡ quadrant_of dx dy }
{
    if 0 < dx {
        return if 0 < dy { 0 } else { 1 };
    }
    if dx < 0 {
        return if dy < 0 { 2 } else { 3 };
    }
    if 0 < dy {
        return 0;
    }
    if dy < 0 { 2 } else { 4 }
}

// How many earlier letters of piece k an edge of that piece has. The later letters of piece k are the earlier ones of the next piece.
#[tactic(auto, using(crate::proofs::Directions::runs))]
pub(crate) fn run(k: usize, dx: i16, dy: i16) -> usize
    ensures { (result ≡ run_in k dx dy) × (result ≤ 32768) }
{
    if k % 2 == 0 { size(dx) } else { size(dy) }
}
