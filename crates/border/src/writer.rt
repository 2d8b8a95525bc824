// Writes letters one after another into a list (contract 3.4, 3.10 and 3.12).
ghost use Rattle.std.specs.Prelude.{◌+◌, ◌-◌, ◌%◌, ◌^◌, ◌≤◌, ◌<◌, ◌≡◌, length, take, nat_abs};
ghost use Rattle.convexity.specs.Edges.{pairs};
ghost use Rattle.convexity.specs.FromEdges.{quadrant_of, step_count, letters_from};
ghost use Rattle.border_model.specs.parts.Ordered.{Ordered};
ghost use Rattle.border.specs.parts.Rest.{firsts, letters as letters_of, step_letters};
ghost use Rattle.border.specs.parts.Wrote.{Wrote};

use crate::direction;
use pieces::pair_at;

// (rem + rise) mod (run + rise), without overflow.
#[tactic(auto, using(crate::proofs::Remainders::nexts))]
fn next(rem: usize, run: usize, rise: usize) -> usize
    requires { (rem < run + rise) × (run + rise < 2 ^ 64) }
    ensures { result ≡ (rem + rise) % (run + rise) }
{
    if rem < run { rem + rise } else { rem - run }
}

// Writes an edge of piece k and returns where it ends. Letter i is the earlier one exactly if i · rise grows modulo run + rise.
fn write_edge(letters: &mut [u8], at: usize, k: usize, run: usize, rise: usize) -> usize
    requires { (at + (run + rise) ≤ length letters.old) × (0 < rise) }
    ensures { (result ≡ at + (run + rise)) × Wrote letters.old at (letters_of k run rise) letters.new }
{
    let pair = pair_at(k);
    let end = run + rise;
    let mut rem = 0;
    for letter in letters[at..at + end].iter_mut() {
        *letter = if rem < run { pair.earlier } else { pair.later };
        rem = next(rem, run, rise);
    }
    at + end
}

// Writes the first letters of the pieces after piece `from`, up to piece `to`, and returns where they end.
fn begin_pieces(letters: &mut [u8], at: usize, from: usize, to: usize) -> usize
    requires { (from ≤ to) × (at + (to - from) ≤ length letters.old) }
    ensures { (result ≡ at + (to - from)) × Wrote letters.old at (firsts from (to - from)) letters.new }
{
    for k in from..to {
        letters[at + (k - from)] = pair_at(k + 1).later;
    }
    at + (to - from)
}

// Where the next letter goes, and the piece begun last.
#[derive(Clone, Copy)]
struct Writer {
    at: usize,
    piece: usize,
}

// Writes one edge. The first letters of the pieces that begin with it come before it.
fn step(letters: &mut [u8], writer: Writer, dx: i16, dy: i16) -> Writer
    requires piece_bound { (writer.piece ≤ quadrant_of dx dy) × (quadrant_of dx dy < 4) }
    requires dy_in_bounds { writer.at + (quadrant_of dx dy - writer.piece) + (nat_abs dx + nat_abs dy) ≤ length letters.old }
    ensures at { result.at ≡ writer.at + (quadrant_of dx dy - writer.piece) + (nat_abs dx + nat_abs dy) }
    ensures piece { result.piece ≡ quadrant_of dx dy }
    ensures letters { Wrote letters.old writer.at (step_letters writer.piece dx dy) letters.new }
{
    let k = direction::quadrant(dx, dy);
    let first = begin_pieces(letters, writer.at, writer.piece, k);
    let run = direction::run(k, dx, dy);
    let rise = direction::run(k + 1, dx, dy);
    let end = write_edge(letters, first, k, run, rise);
    Writer { at: end, piece: k }
}

// Writes the letters of all edges from the front of a list. The edges are in the order of their quadrants.
pub(crate) fn build(edges: &[i16], letters: &mut [u8])
    requires { Ordered 0 (pairs edges.now) × (4 + step_count (pairs edges.now) ≤ length letters.old) }
    ensures { take (4 + step_count (pairs edges.now)) letters.new ≡ letters_from edges.now }
{
    letters[0] = pair_at(0).later;
    let mut writer = Writer { at: 1, piece: 0 };
    let (list, _) = edges.as_chunks::<2>();
    for &[dx, dy] in list {
        writer = step(letters, writer, dx, dy);
    }
    begin_pieces(letters, writer.at, writer.piece, 3);
}
