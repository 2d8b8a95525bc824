// Runs one outline through the engine's test and loose queries, and compares with what was counted.
ghost use Rattle.std.specs.Prelude.{◌≡◌, ◌≤◌, length, take};

use crate::plain::Counted;
use crate::walks::CORNERS;
use crate::{cells, plain, sets, walks};
use chart::{Point, Position, Refusal, Taken};

// Two numbers for each edge. There is at most one edge from each of the 16 cells.
const ROOM: usize = 32;

fn step_agrees(step: i16, from: u16, to: u16) -> bool {
    i32::from(to) - i32::from(from) == i32::from(step)
}

// The edge at index k of the list leads from p to q.
fn edge_agrees(list: &[i16], k: usize, p: u16, q: u16) -> bool {
    if k < list.len() / 2 {
        let dx = list[2 * k];
        let dy = list[2 * k + 1];
        return step_agrees(dx, cells::col(p), cells::col(q))
            && step_agrees(dy, cells::row(p), cells::row(q));
    }
    false
}

// The edges lead round the hull from the anchor back to the anchor, vertex by vertex.
fn edges_agree(edges: &[i16], set: u32, anchor: u16) -> bool {
    let count = edges.len() / 2;
    let mut p = anchor;
    for k in 0..ROOM {
        if 0 < k && p == anchor {
            return k == count;
        }
        let Some(q) = plain::next_vertex(set, p) else {
            return k == count;
        };
        if !edge_agrees(edges, k, p, q) {
            return false;
        }
        p = q;
    }
    false
}

// The numbers 0 to 6, and 254.
fn spread(x: u16) -> u16 {
    if x < 7 { x } else { 254 }
}

fn in_set(set: u32, col: u16, row: u16) -> bool {
    col < 4 && row < 4 && sets::has(set, 4 * row + col)
}

// A loose query finds a cell, in the 4 by 4 corner or beyond it, inside exactly if it is in the set.
fn query_agrees(anchor: Point, edges: &[i16], set: u32, col: u16, row: u16) -> bool {
    match polygon::loose_query(anchor, edges, Point { col, row }) {
        Ok(Position::Inside) => in_set(set, col, row),
        Ok(Position::Outside) => !in_set(set, col, row),
        Err(_) => false,
    }
}

fn queries_agree(anchor: Point, edges: &[i16], set: u32) -> bool {
    for row in 0..8 {
        for col in 0..8 {
            if !query_agrees(anchor, edges, set, spread(col), spread(row)) {
                return false;
            }
        }
    }
    true
}

// A verdict's cell is cell k.
fn cell_agrees(cell: Point, k: u16) -> bool {
    cell.col == cells::col(k) && cell.row == cells::row(k)
}

// A taken outline: its anchor, its edges, and loose queries with them.
fn taken_agrees(taken: Taken, list: &[i16], set: u32) -> bool {
    let count = usize::from(taken.edges);
    let Some(anchor) = cells::leftmost(set) else {
        return false;
    };
    if list.len() / 2 < count {
        return false;
    }
    let edges = &list[..2 * count];
    cell_agrees(taken.anchor, anchor)
        && edges_agree(edges, set, anchor)
        && queries_agree(taken.anchor, edges, set)
}

// The engine's verdict is what was counted.
fn agrees(verdict: Result<Taken, Refusal>, list: &[i16], counted: Counted) -> bool {
    match (verdict, counted) {
        (Ok(taken), Counted::Convex(set)) => taken_agrees(taken, list, set),
        (Err(Refusal::BackStep { .. }), Counted::Gap) => true,
        (Err(Refusal::Dent { cell, .. }), Counted::Dent(missing)) => cell_agrees(cell, missing),
        _ => false,
    }
}

// The letters of a closed walk, from the corner at `first`. Returns how many there are.
fn spell(corners: &[u16], first: usize, letters: &mut [u8]) -> usize
    ensures within { result ≤ length letters.new }
    ensures prefix { result ≡ length (take result letters.new) }
{
    let count = corners.len().min(letters.len());
    for i in 0..count {
        let place = first.wrapping_add(i);
        let from = walks::corner_at(corners, place);
        let to = walks::corner_at(corners, place.wrapping_add(1));
        letters[i] = walks::letter(from, to);
    }
    count
}

// The same walk backward: the letters from the last to the first, each replaced by its opposite. Returns how many there are.
fn turn_back(letters: &[u8], back: &mut [u8]) -> usize
    ensures within { result ≤ length back.new }
    ensures prefix { result ≡ length (take result back.new) }
{
    for (to, from) in back.iter_mut().zip(letters.iter().rev()) {
        *to = (*from % 4 + 2) % 4;
    }
    letters.len().min(back.len())
}

// A refusal by 8 or 9 with place 0, and its place.
fn apart(why: Refusal) -> (Refusal, u16) {
    match why {
        Refusal::BackStep { piece, place } => (Refusal::BackStep { piece, place: 0 }, place),
        Refusal::Dent {
            piece,
            place,
            length,
            cell,
        } => {
            (
                Refusal::Dent {
                    piece,
                    place: 0,
                    length,
                    cell,
                },
                place,
            )
        }
        _ => (why, 0),
    }
}

// The outline drawn backward gets the same verdict, but that a refusal's place counts from the other end.
fn twins_agree(verdict: Result<Taken, Refusal>, back: Result<Taken, Refusal>, n: usize) -> bool {
    let (Err(why), Err(other)) = (verdict, back) else {
        return verdict == back;
    };
    let (ahead, place) = apart(why);
    let (behind, end) = apart(other);
    ahead == behind && usize::from(place) + usize::from(end) + 1 == n
}

// The engine's verdict on an outline, and whether it agrees with what was counted and with the verdict on the outline drawn backward.
#[derive(Clone, Copy)]
pub(crate) struct Answer {
    pub(crate) verdict: Result<Taken, Refusal>,
    pub(crate) agrees: bool,
}

// The outline of a closed walk from the corner at `first`, and the same drawn backward.
pub(crate) fn run(corners: &[u16], first: usize, counted: Counted) -> Answer {
    let mut letters = [0u8; CORNERS];
    let count = spell(corners, first, &mut letters);
    let corner = walks::corner_at(corners, first);
    let start = Point {
        col: corner % 5,
        row: corner / 5,
    };
    let mut list = [0i16; ROOM];
    let verdict = outline::test(start, &letters[..count], &mut list);
    let mut backward = [0u8; CORNERS];
    let turned = turn_back(&letters[..count], &mut backward);
    let mut twin = [0i16; ROOM];
    let back = outline::test(start, &backward[..turned], &mut twin);
    Answer {
        verdict,
        agrees: agrees(verdict, &list, counted)
            && twins_agree(verdict, back, count)
            && list == twin,
    }
}
