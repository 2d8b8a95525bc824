// The border of an outline as a list: a copy of its letters from W on, clockwise; and its places as places of the list as sent (contract
// 2.2, 3.2).
#![tactic(auto)]

ghost use Rattle.std.specs.Prelude.{◌≡◌, length};
ghost use Rattle.convexity.specs.Clockwise.{opposite as opposite_of, backward};
ghost use Rattle.clockwise_copy.specs.parts.ClockwiseCopy.{Turned, read_place, SentTo};

use chart::LONGEST;

// Four pieces reach at most this far from W.
const ROUNDS: usize = 4 * LONGEST;

// The opposite direction.
fn opposite(letter: u8) -> u8
    ensures { result ≡ opposite_of letter }
{
    if letter < 4 { (letter + 2) % 4 } else { 1 }
}

// Writes a list as the walk in the opposite sense: the last letter first, each as its opposite.
fn copy_back(list: &[u8], part: &mut [u8])
    requires { length part.old ≡ length list.now }
    ensures { part.new ≡ backward list.now }
{
    let n = list.len();
    for (i, letter) in part.iter_mut().enumerate() {
        *letter = opposite(list[n - 1 - i]);
    }
}

// Copies the letters, read cyclically from a place on, or the same walk backward. The buffer is left alone if it is too short.
pub fn fill_round(w: &[u8], from: usize, forward: bool, round: &mut [u8])
    ensures { Turned forward w.now from round.old round.new }
{
    let n = w.len();
    if round.len() < n || n < from {
        return;
    }
    let before = &w[..from];
    let after = &w[from..];
    if forward {
        round[..n - from].copy_from_slice(after);
        round[n - from..n].copy_from_slice(before);
    } else {
        copy_back(before, &mut round[..from]);
        copy_back(after, &mut round[from..n]);
    }
}

// Where the letter that leaves a corner stands in the clockwise form, from its place in the list as sent, of n letters.
pub fn read_place(n: usize, w: usize, forward: bool) -> usize
    ensures { result ≡ read_place forward n w }
{
    if forward || w == 0 {
        return w;
    }
    n.saturating_sub(w)
}

// The letter i of the border as a place of the list as sent, of n letters, where W's letter stands at w in the clockwise form.
pub fn sent(n: usize, w: usize, forward: bool, i: usize) -> usize
    ensures { SentTo forward n w i result }
{
    if LONGEST < n || n <= w || ROUNDS < i {
        return 0;
    }
    let at = (w + i) % n;
    if forward { at } else { n - 1 - at }
}
