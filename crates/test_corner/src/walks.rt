// Every closed simple walk on the 5 by 5 corners of the block. Corner k is in column k % 5 and row k / 5.
// The search finds a walk from the leftmost corner of its lowest row, once in each direction.
use crate::sets;

// The block has this many corners, and no simple walk has more.
pub(crate) const CORNERS: usize = 25;

// A walk so far: its corners up to the one at `depth`, how many letters were tried from each, and the set of corners met. The corners are a
// list of their own, as they are handed on when the walk is closed.
#[derive(Clone, Copy)]
pub(crate) struct Search {
    pub(crate) corners: [u16; CORNERS],
    pub(crate) tried: [u16; CORNERS],
    pub(crate) depth: usize,
    pub(crate) met: u32,
}

// What a step of the search comes to.
#[derive(Clone, Copy)]
pub(crate) enum Outcome {
    // It closes the walk.
    Closed,
    // The search goes on.
    Open,
    // Every walk was found.
    Done,
}

// The corner at a place of a closed walk, read cyclically.
pub(crate) fn corner_at(corners: &[u16], place: usize) -> u16 {
    let n = corners.len();
    let i = if place < n { place } else { place - n };
    if i < n { corners[i] } else { 0 }
}

// The letter from a corner to the next.
pub(crate) fn letter(from: u16, to: u16) -> u8 {
    if from < to {
        if to - from == 1 { 0 } else { 1 }
    } else {
        if from - to == 1 { 2 } else { 3 }
    }
}

// The corner that a letter reaches, if it is on the block.
fn neighbour(at: u16, letter: u16) -> Option<u16> {
    match letter {
        0 if at < 25 && at % 5 < 4 => Some(at + 1),
        1 if at < 20 => Some(at + 5),
        2 if 0 < at % 5 => Some(at - 1),
        3 if 5 <= at => Some(at - 5),
        _ => None,
    }
}

pub(crate) fn begin(start: u16) -> Search {
    Search {
        corners: [start; CORNERS],
        tried: [0; CORNERS],
        depth: 0,
        met: sets::with(0, start),
    }
}

// All letters from the last corner were tried: goes back one corner.
fn back(s: &mut Search) -> Outcome {
    let depth = s.depth;
    if 0 < depth && depth < CORNERS {
        s.met = s.met ^ sets::with(0, s.corners[depth]);
        s.depth = depth - 1;
        Outcome::Open
    } else {
        Outcome::Done
    }
}

// Goes on to the next corner.
fn ahead(s: &mut Search, next: u16) {
    let depth = s.depth;
    if depth < CORNERS - 1 {
        s.corners[depth + 1] = next;
        s.tried[depth + 1] = 0;
        s.depth = depth + 1;
        s.met = sets::with(s.met, next);
    }
}

// A letter from the last corner: it closes the walk, leads on, or leads nowhere.
fn follow(s: &mut Search, at: u16, letter: u16) -> Outcome {
    let Some(next) = neighbour(at, letter) else {
        return Outcome::Open;
    };
    let start = s.corners[0];
    if next == start && 3 <= s.depth {
        return Outcome::Closed;
    }
    if start < next && !sets::has(s.met, next) {
        ahead(s, next);
    }
    Outcome::Open
}

// One step of the search.
pub(crate) fn step(s: &mut Search) -> Outcome {
    let depth = s.depth;
    if CORNERS <= depth {
        return Outcome::Done;
    }
    let letter = s.tried[depth];
    if 3 < letter {
        return back(s);
    }
    s.tried[depth] = letter + 1;
    let at = s.corners[depth];
    follow(s, at, letter)
}
