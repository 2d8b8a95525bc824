// The factors of the pieces, read as edges up to the first dent (contract 3.9 to 3.12).
#![tactic(auto)]

ghost use Rattle.std.specs.Prelude.{◌≤◌, ◌≡◌, length};
ghost use Rattle.chart.specs.Limits.{longest};
ghost use Rattle.dents.specs.parts.Dents.{Put, WordRead, PieceRead, FactorsRead};

use chart::LONGEST;
use cut_places::Cuts;
use edge::Edge;

mod edge;

// A list of edges, two numbers each, of which the first `count` are found.
#[derive(Drop)]
struct EdgeList<'a> {
    list: &'a mut [i16],
    count: usize,
}

impl EdgeList<'_> {
    // Writes an edge after those found, if there is room.
    fn put(&mut self, edge: Edge)
        ensures same_reference { self.new.list.ghost_name ≡ self.old.list.ghost_name }
        ensures kept { length self.new.list.now ≡ length self.old.list.now }
        ensures put { Put self.old.list.now self.old.count edge.dx edge.dy self.new.list.now self.new.count }
    {
        if self.count < self.list.len() / 2 {
            let at = 2 * self.count;
            self.list[at] = edge.dx;
            self.list[at + 1] = edge.dy;
            self.count += 1;
        }
    }
}

// A dent: its piece, counted from 0, its place in the border, and its length.
#[derive(Clone, Copy)]
pub struct Dent {
    pub piece: usize,
    pub at: usize,
    pub length: usize,
}

// Finds the factors of a word of piece k one by one, and puts their edges into the list. The first factor that is not a Christoffel word is
// a dent, here with its place in the word.
fn read_word(letters: &[u8], k: usize, edges: &mut EdgeList) -> Result<(), Dent>
    requires { length letters.now ≤ longest }
    ensures same_reference { edges.new.list.ghost_name ≡ edges.old.list.ghost_name }
    ensures kept { length edges.new.list.now ≡ length edges.old.list.now }
    ensures read { WordRead k letters.now 0 edges.old.count edges.old.list.now edges.new.list.now edges.new.count result }
{
    let pair = pieces::pair_at(k);
    let mut at = 0;
    while let Some(f) = words::factor_at(letters, at, pair.later) {
        if !f.christoffel {
            return Err(Dent {
                piece: k,
                at,
                length: f.length as usize,
            });
        }
        let size = f.times * f.length;
        let rise = f.times * f.laters;
        edges.put(edge::edge_of(k, (size - rise) as u16, rise as u16));
        at += size as usize;
    }
    Ok(())
}

// The same for a piece between two places of a buffer, with the dent's place in the buffer. The word is the piece without its first letter,
// and may be empty.
fn read_piece(
    ring: &[u8],
    from: usize,
    to: usize,
    k: usize,
    edges: &mut EdgeList,
) -> Result<(), Dent>
    ensures same_reference { edges.new.list.ghost_name ≡ edges.old.list.ghost_name }
    ensures kept { length edges.new.list.now ≡ length edges.old.list.now }
    ensures read { PieceRead ring.now from to k edges.old.count edges.old.list.now edges.new.list.now edges.new.count result }
{
    if from < to && to <= ring.len() {
        let first = from + 1;
        if to - first < LONGEST {
            return match read_word(&ring[first..to], k, edges) {
                Ok(()) => Ok(()),
                Err(dent) => Err(Dent {
                    at: first + dent.at,
                    ..dent
                }),
            };
        }
    }
    Ok(())
}

// The first dent of the four pieces, which lie in the buffer between the cut places; or how many edges they have, which are then in the
// list.
pub fn read(cuts: Cuts, ring: &[u8], list: &mut [i16]) -> Result<usize, Dent>
    ensures { FactorsRead ring.now cuts.at list.old list.new result }
{
    let at = cuts.at;
    let mut edges = EdgeList { list, count: 0 };
    for k in 0..4 {
        read_piece(ring, at[k], at[k + 1], k, &mut edges)?;
    }
    Ok(edges.count)
}
