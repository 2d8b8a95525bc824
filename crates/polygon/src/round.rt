// The order of directions, clockwise from up (contract 3.16).
ghost use Rattle.std.specs.Prelude.{◌≡◌, ◌&&◌};
ghost use Rattle.directions.specs.Round.{cross, positive, is_nil, first_half, precedes as precedes_of};

// (dx, dy) is zero and has no direction.
#[tactic(auto, using(crate::proofs::Integers::signs))]
pub(crate) fn zero_step(dx: i16, dy: i16) -> bool
    ensures { result ≡ (is_nil dx && is_nil dy) }
{
    dx == 0 && dy == 0
}

// The first half turn: from up, included, to down, excluded.
#[tactic(auto, using(crate::proofs::Integers::signs), unfolding(directions::specs::Round::first_half))]
fn first_half(dx: i16, dy: i16) -> bool
    ensures { result ≡ first_half dx dy }
{
    0 < dx || (dx == 0 && 0 < dy)
}

// The cross product is above 0: (ex, ey) lies clockwise of (dx, dy) by less than half a turn.
#[tactic(auto, using(crate::proofs::Integers::signs), unfolding(directions::specs::Round::cross))]
fn clockwise(dx: i16, dy: i16, ex: i16, ey: i16) -> bool
    ensures { result ≡ positive (cross dx dy ex ey) }
{
    let there = i32::from(dy) * i32::from(ex);
    let back = i32::from(dx) * i32::from(ey);
    back < there
}

// (dx, dy) comes before (ex, ey).
#[tactic(auto, unfolding(directions::specs::Round::precedes))]
pub(crate) fn precedes(dx: i16, dy: i16, ex: i16, ey: i16) -> bool
    ensures { result ≡ precedes_of dx dy ex ey }
{
    if first_half(dx, dy) {
        !first_half(ex, ey) || clockwise(dx, dy, ex, ey)
    } else {
        !first_half(ex, ey) && clockwise(dx, dy, ex, ey)
    }
}
