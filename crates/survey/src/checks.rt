// Refusals 1 to 3, one check each.
ghost use Rattle.std.specs.Prelude.{◌≡◌, false, cond, nat_lt, length};
ghost use Rattle.lattice.specs.Refusals.{bad_count, bad_start, letter_place};

use chart::{LONGEST, Point, SHORTEST, SIDE};

// 1. Too few or too many letters.
#[tactic(auto, unfolding(lattice::specs::Refusals::bad_count))]
pub(crate) fn bad_count(w: &[u8]) -> bool
    ensures { result ≡ bad_count w.now }
{
    w.len() < SHORTEST || LONGEST < w.len()
}

// 2. The start is off the chart.
#[tactic(auto, unfolding(lattice::specs::Refusals::bad_start))]
pub fn bad_start(s: Point) -> bool
    ensures { result ≡ bad_start s }
{
    SIDE < s.col || SIDE < s.row
}

// Whether some letter is above 3. The loop reads every letter, so that it is vectorised.
fn some_above(w: &[u8]) -> bool
    ensures { result ≡ false → letter_place w.now ≡ length w.now }
{
    let mut found = false;
    for letter in w {
        found |= 3 < *letter;
    }
    found
}

// 3. The place of the first letter above 3.
pub(crate) fn letter_place(w: &[u8]) -> Option<usize>
    ensures { result ≡ cond (nat_lt (letter_place w.now) (length w.now)) (Some (letter_place w.now)) None }
{
    if some_above(w) {
        return w.iter().position(|letter| 3 < *letter);
    }
    None
}
