// Replies in seven fields: number, word and the rest (contract 4). Fields come from an option and from a result here too, and no `From` may
// stand for those: both types are other crates'.
ghost use Rattle.std.specs.Prelude.{◌≡◌, Ok};
ghost use Rattle.chart.specs.Fields.{numbers_of, refusal_fields};
ghost use Rattle.calls.specs.Replies.{piece_in, piece_fields, reply_fields};

use crate::{Answer, Piece};
use chart::reply::NUMBERS;
use chart::{Fields, Point, Refusal, reply};

// The piece in a reply to a piece call. Any other reply has none.
#[tactic(auto, unfolding(crate::specs::Replies::piece_in))]
pub fn piece_in(r: Result<Answer, Refusal>) -> Option<Piece>
    ensures { result ≡ piece_in r }
{
    if let Ok(Answer::Drawn { piece, cell: _ }) = r {
        piece
    } else {
        None
    }
}

// A path command, or none, in seven numbers: its word and, for a move or a line, the cell.
#[tactic(auto, unfolding(crate::specs::Replies::piece_fields))]
fn of_piece(piece: Option<Piece>, cell: Point) -> Fields
    ensures { result ≡ piece_fields piece cell }
{
    match piece {
        Some(Piece::Move(_, _)) => reply::accepted(reply::MOVE, 0, cell),
        Some(Piece::Line(_, _)) => reply::accepted(reply::LINE, 0, cell),
        Some(Piece::Close) => reply::worded(reply::CLOSE),
        None => reply::worded(reply::NONE),
    }
}

// An answer in seven numbers.
impl From<Answer> for Fields {
    ghost from_gives = { λ answer fields. fields ≡ reply_fields (Ok answer) };

    #[tactic(auto, unfolding(crate::specs::Replies::reply_fields))]
    fn from(answer: Answer) -> Fields {
        match answer {
            Answer::Done => reply::worded(reply::NO_WORD),
            Answer::Inside => reply::worded(reply::INSIDE),
            Answer::Outside => reply::worded(reply::OUTSIDE),
            Answer::Undecided => reply::worded(reply::UNDECIDED),
            Answer::Columns { first, last } => reply::accepted(
                reply::COLUMNS,
                0,
                Point {
                    col: first,
                    row: last,
                },
            ),
            Answer::None => reply::worded(reply::NONE),
            Answer::Drawn { piece, cell } => of_piece(piece, cell),
            Answer::Taken { edges, anchor } => reply::accepted(reply::TAKEN, edges, anchor),
            Answer::Same { edges, anchor } => reply::accepted(reply::SAME, edges, anchor),
        }
    }
}

// An answer or a refusal in seven numbers.
#[tactic(auto, unfolding(crate::specs::Replies::reply_fields))]
pub fn of_reply(r: Result<Answer, Refusal>) -> Fields
    ensures { result ≡ reply_fields r }
{
    match r {
        Ok(answer) => Fields::from(answer),
        Err(why) => Fields::from(why),
    }
}

// Writes an answer. This and the next are no part of their callers, so that those write their commonest answers where they are found.
#[inline(never)]
fn put_answer(answer: Answer, numbers: &mut [u16; NUMBERS])
    ensures { numbers.new ≡ numbers_of (reply_fields (Ok answer)) }
{
    reply::put(Fields::from(answer), numbers);
}

// Writes a refusal.
#[inline(never)]
fn put_refusal(why: Refusal, numbers: &mut [u16; NUMBERS])
    ensures { numbers.new ≡ numbers_of (refusal_fields why) }
{
    reply::put(Fields::from(why), numbers);
}

// Writes any reply.
#[tactic(auto, unfolding(crate::specs::Replies::reply_fields))]
pub fn put(r: Result<Answer, Refusal>, numbers: &mut [u16; NUMBERS])
    ensures { numbers.new ≡ numbers_of (reply_fields r) }
{
    match r {
        Ok(answer) => put_answer(answer, numbers),
        Err(why) => put_refusal(why, numbers),
    }
}

// Writes a reply whose commonest answers are a word alone.
#[tactic(auto, unfolding(crate::specs::Replies::reply_fields))]
pub fn put_word(r: Result<Answer, Refusal>, numbers: &mut [u16; NUMBERS])
    ensures { numbers.new ≡ numbers_of (reply_fields r) }
{
    match r {
        Ok(answer) => {
            let word = match answer {
                Answer::Done => reply::NO_WORD,
                Answer::Inside => reply::INSIDE,
                Answer::Outside => reply::OUTSIDE,
                _ => {
                    put_answer(answer, numbers);
                    return;
                }
            };
            reply::put(reply::worded(word), numbers);
        }
        Err(why) => put_refusal(why, numbers),
    }
}

// Writes the reply of a row, whose commonest answers are its columns, or that it has none.
#[tactic(auto, unfolding(crate::specs::Replies::reply_fields))]
pub fn put_columns(r: Result<Answer, Refusal>, numbers: &mut [u16; NUMBERS])
    ensures { numbers.new ≡ numbers_of (reply_fields r) }
{
    match r {
        Ok(Answer::Columns { first, last }) => {
            let ends = Point {
                col: first,
                row: last,
            };
            reply::put(reply::accepted(reply::COLUMNS, 0, ends), numbers)
        }
        Ok(Answer::None) => reply::put(reply::worded(reply::NONE), numbers),
        Ok(answer) => put_answer(answer, numbers),
        Err(why) => put_refusal(why, numbers),
    }
}
