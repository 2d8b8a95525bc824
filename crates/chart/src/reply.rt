// Answers as replies in seven fields: number, word and the rest (contract 4).
ghost use Rattle.std.specs.Prelude.{◌≡◌, length, leb};
ghost use Rattle.chart.specs.Fields.{numbered as numbered_of, placed as placed_of, worded as worded_of, accepted as accepted_of};
ghost use Rattle.chart.specs.Fields.{pieced as pieced_of, refusal_fields, verdict_fields, position_fields, handing as handing_of};
ghost use Rattle.chart.specs.Fields.{nesting_fields, kind_number};
ghost use Rattle.chart.specs.Fields.{comparison_fields, reply_width, reply_after, numbers_of};

use crate::{Fields, Nesting, Point, Position, Refusal, RefusedList, SectionKind, Taken};

// The count of numbers in a reply.
pub const NUMBERS: usize = 7;

// The words of a reply (contract 4.3).
pub const NO_WORD: u16 = 0;

pub const INSIDE: u16 = 1;

pub const OUTSIDE: u16 = 2;

pub const TAKEN: u16 = 3;

pub const SAME: u16 = 4;

pub const NONE: u16 = 5;

pub const COLUMNS: u16 = 6;

pub const UNDECIDED: u16 = 7;

pub const MOVE: u16 = 8;

pub const LINE: u16 = 9;

pub const CLOSE: u16 = 10;

pub const EQUAL: u16 = 11;

pub const FIRST_WITHIN: u16 = 12;

pub const SECOND_WITHIN: u16 = 13;

pub const NO_COMMON: u16 = 14;

pub const CROSSING: u16 = 15;

pub const MORE: u16 = 16;

// A reply with a number only.
pub fn numbered(number: u16) -> Fields
    ensures { result ≡ numbered_of number }
{
    placed(number, 0)
}

// A reply with a number and a place.
pub fn placed(number: u16, place: u16) -> Fields
    ensures { result ≡ placed_of number place }
{
    Fields {
        number,
        word: NO_WORD,
        place,
        piece: 0,
        length: 0,
        col: 0,
        row: 0,
    }
}

// A reply with a number, a piece and a place.
fn pieced(number: u16, piece: u16, place: u16) -> Fields
    ensures { result ≡ pieced_of number piece place }
{
    Fields {
        number,
        word: NO_WORD,
        place,
        piece,
        length: 0,
        col: 0,
        row: 0,
    }
}

// A reply with a word only.
pub fn worded(word: u16) -> Fields
    ensures { result ≡ worded_of word }
{
    accepted(word, 0, Point { col: 0, row: 0 })
}

// A taken outline with a word: the count of edges, and the anchor.
pub fn accepted(word: u16, edges: u16, anchor: Point) -> Fields
    ensures { result ≡ accepted_of word edges anchor }
{
    Fields {
        number: 0,
        word,
        place: edges,
        piece: 0,
        length: 0,
        col: anchor.col,
        row: anchor.row,
    }
}

// The kind of a section as a number of a reply (contract 5.2).
impl From<SectionKind> for u16 {
    ghost from_gives = { λ kind number. number ≡ kind_number kind };

    fn from(kind: SectionKind) -> u16 {
        match kind {
            SectionKind::Column => 0,
            SectionKind::Row => 1,
        }
    }
}

// The table of the refusals: the number and the fields of each (contract 5.2). There is no 7, and 23 to 25 are faults of a file.
impl From<Refusal> for Fields {
    ghost from_gives = { λ why fields. fields ≡ refusal_fields why };

    fn from(why: Refusal) -> Fields {
        match why {
            Refusal::Length => numbered(1),
            Refusal::Start => numbered(2),
            Refusal::Letter { place } => placed(3, place),
            Refusal::OffChart { place } => placed(4, place),
            Refusal::NotClosed => numbered(5),
            Refusal::Touches { place } => placed(6, place),
            Refusal::BackStep { piece, place } => pieced(8, piece, place),
            Refusal::Dent {
                piece,
                place,
                length,
                cell,
            } => Fields {
                number: 9,
                word: NO_WORD,
                place,
                piece,
                length,
                col: cell.col,
                row: cell.row,
            },
            Refusal::EdgeList { edges } => placed(10, edges),
            Refusal::Cell => numbered(11),
            Refusal::NothingAtWork => numbered(12),
            Refusal::NoDraft => numbered(13),
            Refusal::DraftOpen => numbered(14),
            Refusal::DraftFull => numbered(15),
            Refusal::Directions => numbered(16),
            Refusal::NoOutline => numbered(17),
            Refusal::LetterBuffer => numbered(18),
            Refusal::Party => numbered(19),
            Refusal::Place => numbered(20),
            Refusal::Section { kind, at } => pieced(21, u16::from(kind), at),
            Refusal::Layer => numbered(22),
            Refusal::Image => numbered(26),
            Refusal::Damaged => numbered(27),
            Refusal::Frame => numbered(28),
        }
    }
}

impl From<Result<Taken, Refusal>> for Fields {
    ghost from_gives = { λ verdict fields. fields ≡ verdict_fields verdict };

    fn from(verdict: Result<Taken, Refusal>) -> Fields {
        match verdict {
            Ok(taken) => accepted(NO_WORD, taken.edges, taken.anchor),
            Err(why) => Fields::from(why),
        }
    }
}

impl From<Result<Position, Refusal>> for Fields {
    ghost from_gives = { λ position fields. fields ≡ position_fields position };

    fn from(position: Result<Position, Refusal>) -> Fields {
        match position {
            Ok(Position::Inside) => worded(INSIDE),
            Ok(Position::Outside) => worded(OUTSIDE),
            Err(why) => Fields::from(why),
        }
    }
}

// A word, and which list a comparison returns: 1, 2, or 0 for neither.
fn handing(word: u16, whose: u16) -> Fields
    ensures { result ≡ handing_of word whose }
{
    Fields {
        number: 0,
        word,
        place: 0,
        piece: whose,
        length: 0,
        col: 0,
        row: 0,
    }
}

impl From<Nesting> for Fields {
    ghost from_gives = { λ nesting fields. fields ≡ nesting_fields nesting };

    fn from(nesting: Nesting) -> Fields {
        match nesting {
            Nesting::Equal => handing(EQUAL, 1),
            Nesting::FirstWithin => handing(FIRST_WITHIN, 1),
            Nesting::SecondWithin => handing(SECOND_WITHIN, 2),
            Nesting::Apart => handing(NO_COMMON, 0),
            Nesting::Crossing => handing(CROSSING, 0),
        }
    }
}

impl From<Result<Nesting, RefusedList>> for Fields {
    ghost from_gives = { λ comparison fields. fields ≡ comparison_fields comparison };

    fn from(comparison: Result<Nesting, RefusedList>) -> Fields {
        match comparison {
            Ok(nesting) => Fields::from(nesting),
            Err(refused) => placed(Fields::from(refused.refusal).number, refused.list),
        }
    }
}

// A reply as its seven numbers.
impl From<Fields> for [u16; NUMBERS] {
    ghost from_gives = { λ fields numbers. numbers ≡ numbers_of fields };

    #[tactic(auto, unfolding(crate::specs::Fields::numbers_of))]
    fn from(f: Fields) -> [u16; NUMBERS] {
        [f.number, f.word, f.place, f.piece, f.length, f.col, f.row]
    }
}

// Writes a reply's seven numbers to the front of a buffer. Returns whether it has room for them.
#[tactic(auto, unfolding(crate::specs::Fields::reply_after))]
pub fn write(f: Fields, list: &mut [u16]) -> bool
    ensures room { result ≡ leb reply_width (length list.old) }
    ensures list { list.new ≡ reply_after f list.old }
{
    if list.len() < NUMBERS {
        return false;
    }
    list[..NUMBERS].copy_from_slice(&<[u16; NUMBERS]>::from(f));
    true
}

// Writes a reply's seven numbers to an array of as many.
pub fn put(f: Fields, reply: &mut [u16; NUMBERS])
    ensures { reply.new ≡ numbers_of f }
{
    *reply = f.into();
}
