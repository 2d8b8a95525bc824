// The calls on a holder, and their answers.
#![tactic(auto)]

ghost use Rattle.std.specs.Prelude.{◌≡◌, ◌≤◌, ◌<◌, MatchResult};
ghost use Rattle.calls.specs.Calls.{parties, places};

use chart::{Point, Refusal};

pub mod written;

// The number of parties (0 the knee, 1 the ankle), and of places for each party.
pub const PARTIES: usize = 2;

pub const PLACES: usize = 4;

// A party's index and a place's are two functions: they differ in bound and refusal, and one for both would take these as arguments.
// The index of a party, or 19.
pub fn party_index(party: u8) -> Result<usize, Refusal>
    ensures { MatchResult result (λ p. (p ≡ party) × (party < parties))
        (λ why. (why ≡ Refusal.Party) × (parties ≤ party)) }
{
    let p = usize::from(party);
    if p < PARTIES {
        Ok(p)
    } else {
        Err(Refusal::Party)
    }
}

// The index of a place, or 20.
pub fn place_index(place: u8) -> Result<usize, Refusal>
    ensures { MatchResult result (λ k. (k ≡ place) × (place < places))
        (λ why. (why ≡ Refusal.Place) × (places ≤ place)) }
{
    let k = usize::from(place);
    if k < PLACES {
        Ok(k)
    } else {
        Err(Refusal::Place)
    }
}

// A call: its party and its action.
#[derive(Clone, Copy)]
pub struct Call {
    pub party: u8,
    pub action: Action,
}

// What a call does, with its argument (contract 7).
#[derive(Clone, Copy)]
pub enum Action {
    Begin { start: Point },
    Add { letter: u8 },
    Drop,
    Clear { place: u8 },
    Close { place: u8 },
    Ask { place: u8, question: Question },
}

// A question about the outline at work at a place.
#[derive(Clone, Copy)]
pub enum Question {
    // Query: does the outline enclose the cell?
    Cell(Point),
    // Row: which columns of the row does it enclose?
    Row(u16),
    // Reading: is the pair of floats inside its edges?
    Reading(Reading),
    // Piece: which path command does its drawing have at this position?
    Piece(u16),
}

// An angle and a load in chart units: the centre of the cell (c, r) is at c and r.
#[derive(Clone, Copy)]
pub struct Reading {
    pub angle: f32,
    pub load: f32,
}

// One path command of a drawing (contract 3.22). Its point is a cell's column and row, each raised by one half.
#[derive(Clone, Copy)]
pub enum Piece {
    Move(f32, f32),
    Line(f32, f32),
    Close,
}

// What a call answers. Its reply is this or a refusal.
#[derive(Clone, Copy)]
pub enum Answer {
    // Begin, add, drop or clear was done.
    Done,
    Inside,
    Outside,
    // Reading: too near an edge to decide.
    Undecided,
    // Row: the first and the last enclosed column.
    Columns { first: u16, last: u16 },
    // Row: no cell of the row is enclosed.
    None,
    // Piece: the path command, or none past the last one, and, for a move or a line, the cell whose centre is its point.
    Drawn { piece: Option<Piece>, cell: Point },
    // Close: the draft is taken. The count of edges, and the anchor.
    Taken { edges: u16, anchor: Point },
    Same { edges: u16, anchor: Point },
}
