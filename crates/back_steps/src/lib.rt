// The first back-step of the pieces (contract 3.5). `first` requires a list of at most 612 letters; the checker sees it met at the call in
// `judge`.
#![tactic(auto)]

ghost use Rattle.std.specs.Prelude.{◌*◌, ◌≤◌, ◌<◌, ◌≡◌, false, length, get_or};
ghost use Rattle.chart.specs.Limits.{longest};
ghost use Rattle.convexity.specs.Pieces.{rounds};
ghost use Rattle.back_steps.specs.parts.BackSteps.{part, straight_for, Within, Found};

use cut_places::Cuts;

// Whether some letter of piece k is a back-step. The loop reads every letter, so that it is vectorised.
fn some_back_step(piece: &[u8], k: usize) -> bool
    ensures { result ≡ false → length piece.now ≡ straight_for k piece.now }
{
    let f = pieces::pair_at(k);
    let mut found = false;
    for letter in piece {
        found |= (*letter != f.earlier) & (*letter != f.later);
    }
    found
}

// Letter i of the letters read cyclically, up to four times round. No remainder: it would be a division for each letter, and the smallest
// controllers have none.
fn letter_round(letters: &[u8], i: usize) -> u8
    requires { (length letters.now ≤ longest) × (i < 4 * length letters.now) }
    ensures { result ≡ get_or (rounds letters.now) i 0 }
{
    let n = letters.len();
    if i < n {
        return letters[i];
    }
    if i < 2 * n {
        return letters[i - n];
    }
    if i < 3 * n {
        return letters[i - 2 * n];
    }
    letters[i - 3 * n]
}

// How many letters of piece k come before its first back-step, or all of them. The piece lies between two places of the letters read
// cyclically.
fn first_back_step(letters: &[u8], from: usize, to: usize, k: usize) -> usize
    requires { Within from to letters.now }
    ensures { result ≡ straight_for k (part from to (rounds letters.now)) }
{
    let f = pieces::pair_at(k);
    for i in 0..to - from {
        let letter = letter_round(letters, from + i);
        if letter != f.earlier && letter != f.later {
            return i;
        }
    }
    to - from
}

// The same, but the place is only searched for if there is a back-step. A piece without one ends before the end of the letters.
fn straight_for(letters: &[u8], from: usize, to: usize, k: usize) -> usize
    requires { Within from to letters.now }
    ensures { result ≡ straight_for k (part from to (rounds letters.now)) }
{
    if letters.len() < to || some_back_step(&letters[from..to], k) {
        return first_back_step(letters, from, to, k);
    }
    to - from
}

// A back-step at letter `at` of the border, in a piece counted from 0.
#[derive(Clone, Copy)]
pub struct BackStep {
    pub piece: usize,
    pub at: usize,
}

// The first back-step of the four pieces, which lie between the cut places in the letters read cyclically.
pub fn first(cuts: Cuts, letters: &[u8]) -> Option<BackStep>
    requires { length letters.now ≤ longest }
    ensures { Found (rounds letters.now) cuts.at result }
{
    let at = cuts.at;
    for k in 0..4 {
        let from = at[k];
        let to = at[k + 1];
        if to < from || 4 * letters.len() < to {
            return None;
        }
        let i = straight_for(letters, from, to, k);
        if i < to - from {
            return Some(BackStep {
                piece: k,
                at: from + i,
            });
        }
    }
    None
}
