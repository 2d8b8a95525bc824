// The calls on a holder in place, with the reply in seven numbers (contract 10.1 and 10.4). Their parameters come one by one: the C
// interface names them so. One function over a closure would say no more than the one line of `begin` or `clear`.
#![tactic(auto)]

ghost use Rattle.std.specs.Prelude.{◌≡◌, List, ℕ, ℤ};
ghost use Rattle.chart.specs.Fields.{numbers_of, fields_of};
ghost use Rattle.calls.specs.Replies.{piece_in};
ghost use Rattle.calls.specs.Calls.{by};
ghost use Rattle.drawing.specs.Points.{point_after};
ghost use Rattle.drawing.specs.Named.{PieceNamed};
ghost use Rattle.holder_memory.specs.Layout.{arrays};
ghost use Rattle.holder_answers.specs.Arrays.{answer_of, draft_of};
ghost use Rattle.holder_written.specs.Written.{Done, Prepared as IsPrepared, CloseTold, ReadingTold, draft_fields};

use calls::written::{of_reply, piece_in, put_columns, put_word};
use calls::{Action, Question, Reading};
use chart::reply::NUMBERS as REPLY;
use chart::{Fields, Point, Refusal, reply};
use drawing::write_point;
use holder_answers::Draft;
use holder_memory::{HEADS, LETTERS, NUMBERS, ROW_BYTES};

// Begin.
pub fn begin(heads: &mut [u16; HEADS], party: u8, start: Point, reply: &mut [u16; REPLY])
    ensures { (letters rows : List ℕ) (numbers : List ℤ)
        → Done (arrays letters rows numbers heads.old)
        (arrays letters rows numbers heads.new) (by party (Action.Begin start))
        reply.new }
{
    put_word(holder_calls::begin(heads, party, start), reply);
}

// Add.
pub fn add(
    letters: &mut [u8; LETTERS],
    heads: &mut [u16; HEADS],
    party: u8,
    letter: u8,
    reply: &mut [u16; REPLY],
)
    ensures { (rows : List ℕ) (numbers : List ℤ)
        → Done (arrays letters.old rows numbers heads.old)
        (arrays letters.new rows numbers heads.new) (by party (Action.Add letter))
        reply.new }
{
    put_word(holder_calls::add(letters, heads, party, letter), reply);
}

// Drop.
pub fn drop(heads: &mut [u16; HEADS], party: u8, reply: &mut [u16; REPLY])
    ensures { (letters rows : List ℕ) (numbers : List ℤ)
        → Done (arrays letters rows numbers heads.old)
        (arrays letters rows numbers heads.new) (by party Action.Drop)
        reply.new }
{
    put_word(holder_calls::drop(heads, party), reply);
}

// Clear.
pub fn clear(heads: &mut [u16; HEADS], party: u8, place: u8, reply: &mut [u16; REPLY])
    ensures { (letters rows : List ℕ) (numbers : List ℤ)
        → Done (arrays letters rows numbers heads.old)
        (arrays letters rows numbers heads.new) (by party (Action.Clear place))
        reply.new }
{
    put_word(holder_calls::clear(heads, party, place), reply);
}

// The first half of a close. Returns the word for commit.
pub fn prepare(
    letters: &[u8; LETTERS],
    rows: &mut [u8; ROW_BYTES],
    numbers: &mut [i16; NUMBERS],
    heads: &mut [u16; HEADS],
    party: u8,
    place: u8,
    reply: &mut [u16; REPLY],
) -> u16
    ensures half { IsPrepared (arrays letters.now rows.old numbers.old heads.old)
        (arrays letters.now rows.new numbers.new heads.new) party place result reply.new }
    ensures cell { CloseTold (arrays letters.now rows.old numbers.old heads.old) party
        reply.new }
{
    let prepared = holder_closes::prepare(letters, rows, numbers, heads, party, place);
    let answer = prepared.reply;
    reply::put(of_reply(answer), reply);
    prepared.word
}

// Query.
pub fn query<'a>(
    rows: &'a [u8; ROW_BYTES],
    heads: &'a [u16; HEADS],
    party: u8,
    place: u8,
    cell: Point,
    reply: &mut [u16; REPLY],
)
    ensures { (letters : List ℕ) (numbers : List ℤ)
        → Done (arrays letters rows.now numbers heads.now)
        (arrays letters rows.now numbers heads.now) (by party (Action.Ask place (Question.Cell cell)))
        reply.new }
{
    put_word(holder_calls::query(rows, heads, party, place, cell), reply);
}

// Row.
pub fn row<'a>(
    rows: &'a [u8; ROW_BYTES],
    heads: &'a [u16; HEADS],
    party: u8,
    place: u8,
    row: u16,
    reply: &mut [u16; REPLY],
)
    ensures { (letters : List ℕ) (numbers : List ℤ)
        → Done (arrays letters rows.now numbers heads.now)
        (arrays letters rows.now numbers heads.now) (by party (Action.Ask place (Question.Row row)))
        reply.new }
{
    put_columns(holder_calls::row(rows, heads, party, place, row), reply);
}

// Reading.
pub fn reading<'a>(
    numbers: &'a [i16; NUMBERS],
    heads: &'a [u16; HEADS],
    party: u8,
    place: u8,
    reading: Reading,
    reply: &mut [u16; REPLY],
)
    ensures call { (letters rows : List ℕ)
        → Done (arrays letters rows numbers.now heads.now)
        (arrays letters rows numbers.now heads.now) (by party (Action.Ask place (Question.Reading reading)))
        reply.new }
    ensures meaning { (letters rows : List ℕ)
        → ReadingTold (arrays letters rows numbers.now heads.now) party place reading reply.new }
{
    put_word(
        holder_calls::reading(numbers, heads, party, place, reading),
        reply,
    );
}

// Piece. Writes the point of a move or a line. Any other path command leaves it unchanged.
pub fn piece<'a>(
    numbers: &'a [i16; NUMBERS],
    heads: &'a [u16; HEADS],
    party: u8,
    place: u8,
    position: u16,
    point: &mut [f32; 2],
    reply: &mut [u16; REPLY],
)
    ensures call { (letters rows : List ℕ)
        → Done (arrays letters rows numbers.now heads.now)
        (arrays letters rows numbers.now heads.now) (by party (Action.Ask place (Question.Piece position)))
        reply.new }
    ensures point { (letters rows : List ℕ) → point.new
        ≡ point_after (piece_in (answer_of (arrays letters rows numbers.now heads.now)
        (by party (Action.Ask place (Question.Piece position)))).reply) point.old }
    ensures meaning { PieceNamed (fields_of reply.new) point.old point.new }
{
    let answer = holder_calls::piece(numbers, heads, party, place, position);
    write_point(piece_in(answer), &mut point[..]);
    reply::put(of_reply(answer), reply);
}

// What is drafted, in seven fields: 19, 13, or the count and the start. No `From` may stand for it: both types are other crates'.
#[tactic(auto, unfolding(crate::specs::Written::draft_fields))]
fn of_draft(d: Result<Draft, Refusal>) -> Fields
    ensures { result ≡ draft_fields d }
{
    match d {
        Ok(draft) => reply::accepted(reply::NO_WORD, draft.count, draft.start),
        Err(why) => Fields::from(why),
    }
}

// Draft.
pub fn draft(heads: &[u16; HEADS], party: u8, reply: &mut [u16; REPLY])
    ensures { (letters rows : List ℕ) (numbers : List ℤ) → reply.new
        ≡ numbers_of (draft_fields (draft_of (arrays letters rows numbers heads.now) party)) }
{
    let fields = of_draft(holder_calls::draft(heads, party));
    reply::put(fields, reply);
}
