// The ordered letters of the four pieces of a border, with the steps that they take (contract 3.4).
#![tactic(auto)]

ghost use Rattle.convexity.specs.Frame.{frame_of};
ghost use Rattle.pieces.specs.parts.Pieces.{PairOf};

// A piece's two letters, the earlier and the later, each with its step in columns and in rows.
#[derive(Clone, Copy)]
pub struct Pair {
    pub earlier: u8,
    pub later: u8,
    pub earlier_cols: i16,
    pub earlier_rows: i16,
    pub later_cols: i16,
    pub later_rows: i16,
}

// The ordered letters of pieces 1 to 4, with the step that each takes.
const PAIRS: [Pair; 4] = [
    Pair {
        earlier: 0,
        later: 1,
        earlier_cols: 1,
        earlier_rows: 0,
        later_cols: 0,
        later_rows: 1,
    },
    Pair {
        earlier: 3,
        later: 0,
        earlier_cols: 0,
        earlier_rows: -1,
        later_cols: 1,
        later_rows: 0,
    },
    Pair {
        earlier: 2,
        later: 3,
        earlier_cols: -1,
        earlier_rows: 0,
        later_cols: 0,
        later_rows: -1,
    },
    Pair {
        earlier: 1,
        later: 2,
        earlier_cols: 0,
        earlier_rows: 1,
        later_cols: -1,
        later_rows: 0,
    },
];

// The letters of piece k, counted from 0; any number above 3 stands for the last piece.
pub fn pair_at(k: usize) -> Pair
    ensures { PairOf (frame_of k) result }
{
    PAIRS[k.min(3)]
}
