// A holder in four arrays (contract 10.4): how long they are, and where everything stands in them.
#![tactic(auto)]

use calls::{PARTIES, PLACES};
use chart::{LONGEST, MOST_NUMBERS};
use span_list::WIDTH;

pub mod letters;
pub mod naming;
pub mod writes;

// The letters of the drafts.
pub const LETTERS: usize = PARTIES * LONGEST;

// The slots of a party, one more than its places; and of both.
pub const OWN: usize = PLACES + 1;

pub const SLOTS: usize = PARTIES * OWN;

// The rows and the edges of the slots.
pub const ROW_BYTES: usize = SLOTS * WIDTH;

pub const NUMBERS: usize = SLOTS * MOST_NUMBERS;

// The heads begin with four numbers for each draft: a flag, a column, a row and a count.
pub const DRAFT_NUMBERS: usize = 4;

// Then a word for each place.
pub const PLACE_WORDS: usize = DRAFT_NUMBERS * PARTIES;

// Then three numbers for each slot: the anchor's column and row, and the count of edges.
pub const SLOT_HEADS: usize = PLACE_WORDS + PARTIES * PLACES;

pub const SLOT_NUMBERS: usize = 3;

pub const HEADS: usize = SLOT_HEADS + SLOT_NUMBERS * SLOTS;
