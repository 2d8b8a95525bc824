// The calls on a holder (contract 10.4). In C a holder is one struct of four arrays. Each function here takes only the arrays that its call
// needs. Their lengths are part of their types.
ghost use Rattle.std.specs.Prelude.{◌≡◌, List, ℕ, ℤ};
ghost use Rattle.chart.specs.Fields.{numbers_of, fields_of};
ghost use Rattle.chart.specs.Outline.{at};
ghost use Rattle.calls.specs.Calls.{by};
ghost use Rattle.calls.specs.Replies.{piece_in, reply_fields};
ghost use Rattle.calls.specs.declared.Action.{Action};
ghost use Rattle.calls.specs.declared.Question.{Question};
ghost use Rattle.drawing.specs.Points.{point_after};
ghost use Rattle.drawing.specs.Named.{PieceNamed};
ghost use Rattle.wire.specs.Wire.{decoded};
ghost use Rattle.holder_memory.specs.Layout.{arrays};
ghost use Rattle.holder_answers.specs.Arrays.{answer_of, commit_of, draft_of};
ghost use Rattle.holder_answers.specs.Run.{fresh_holder};
ghost use Rattle.holder_written.specs.Written.{Done, Prepared, CloseTold, ReadingTold, draft_fields};
ghost use Rattle.holder_images.specs.Arrays.{check_of};
ghost use Rattle.holder_image_calls.specs.Written.{IsSaved, ImagePrepared};
ghost use Rattle.holder_bytes.specs.Responded.{Responded, BytesTold};

use calls::Reading;
use chart::Point;
use chart::reply::NUMBERS as REPLY;
use holder_memory::{HEADS, LETTERS, NUMBERS, ROW_BYTES};

// Makes the arrays a fresh holder, whatever they held.
#[unsafe(no_mangle)]
pub extern "C" fn rq_fresh_parts(
    letters: &mut [u8; LETTERS],
    rows: &mut [u8; ROW_BYTES],
    numbers: &mut [i16; NUMBERS],
    heads: &mut [u16; HEADS],
)
    ensures { arrays letters.new rows.new numbers.new heads.new ≡ fresh_holder }
{
    holder_calls::clear_all(letters, rows, numbers, heads);
}

// Begin (contract 7.3).
#[unsafe(no_mangle)]
pub extern "C" fn rq_begin_parts(
    heads: &mut [u16; HEADS],
    party: u8,
    col: u16,
    row: u16,
    reply: &mut [u16; REPLY],
)
    ensures { (letters rows : List ℕ) (numbers : List ℤ)
        → Done (arrays letters rows numbers heads.old) (arrays letters rows numbers heads.new)
        (by party (Action.Begin (at col row))) reply.new }
{
    holder_written::begin(heads, party, Point { col, row }, reply);
}

// Add (contract 7.4).
#[unsafe(no_mangle)]
pub extern "C" fn rq_add_parts(
    letters: &mut [u8; LETTERS],
    heads: &mut [u16; HEADS],
    party: u8,
    letter: u8,
    reply: &mut [u16; REPLY],
)
    ensures { (rows : List ℕ) (numbers : List ℤ)
        → Done (arrays letters.old rows numbers heads.old)
        (arrays letters.new rows numbers heads.new) (by party (Action.Add letter)) reply.new }
{
    holder_written::add(letters, heads, party, letter, reply);
}

// Drop (contract 7.5).
#[unsafe(no_mangle)]
pub extern "C" fn rq_drop_parts(heads: &mut [u16; HEADS], party: u8, reply: &mut [u16; REPLY])
    ensures { (letters rows : List ℕ) (numbers : List ℤ)
        → Done (arrays letters rows numbers heads.old) (arrays letters rows numbers heads.new) (by party Action.Drop)
        reply.new }
{
    holder_written::drop(heads, party, reply);
}

// Clear (contract 7.6).
#[unsafe(no_mangle)]
pub extern "C" fn rq_clear_parts(
    heads: &mut [u16; HEADS],
    party: u8,
    place: u8,
    reply: &mut [u16; REPLY],
)
    ensures { (letters rows : List ℕ) (numbers : List ℤ)
        → Done (arrays letters rows numbers heads.old) (arrays letters rows numbers heads.new)
        (by party (Action.Clear place)) reply.new }
{
    holder_written::clear(heads, party, place, reply);
}

// The first half of a close (contract 7.7): replies, ends the draft and fills a slot that no place names. Returns the word for the second
// half, or 0 if the close is refused.
#[unsafe(no_mangle)]
pub extern "C" fn rq_prepare_parts(
    letters: &[u8; LETTERS],
    rows: &mut [u8; ROW_BYTES],
    numbers: &mut [i16; NUMBERS],
    heads: &mut [u16; HEADS],
    party: u8,
    place: u8,
    reply: &mut [u16; REPLY],
) -> u16
    ensures half { Prepared (arrays letters.now rows.old numbers.old heads.old)
        (arrays letters.now rows.new numbers.new heads.new) party place result reply.new }
    ensures cell { CloseTold (arrays letters.now rows.old numbers.old heads.old) party
        reply.new }
{
    holder_written::prepare(letters, rows, numbers, heads, party, place, reply)
}

// The second half of a close: the place gets the word that the first half returned, in one store.
#[unsafe(no_mangle)]
pub extern "C" fn rq_commit_parts(heads: &mut [u16; HEADS], party: u8, place: u8, word: u16)
    ensures { heads.new ≡ commit_of heads.old party place word }
{
    holder_closes::commit(heads, party, place, word);
}

// Query (contract 7.8).
#[unsafe(no_mangle)]
pub extern "C" fn rq_query_parts<'a>(
    rows: &'a [u8; ROW_BYTES],
    heads: &'a [u16; HEADS],
    party: u8,
    place: u8,
    col: u16,
    row: u16,
    reply: &mut [u16; REPLY],
)
    ensures { (letters : List ℕ) (numbers : List ℤ)
        → Done (arrays letters rows.now numbers heads.now)
        (arrays letters rows.now numbers heads.now) (by party (Action.Ask place (Question.Cell (at col row))))
        reply.new }
{
    holder_written::query(rows, heads, party, place, Point { col, row }, reply);
}

// Row (contract 7.9).
#[unsafe(no_mangle)]
pub extern "C" fn rq_row_parts<'a>(
    rows: &'a [u8; ROW_BYTES],
    heads: &'a [u16; HEADS],
    party: u8,
    place: u8,
    row: u16,
    reply: &mut [u16; REPLY],
)
    ensures { (letters : List ℕ) (numbers : List ℤ)
        → Done (arrays letters rows.now numbers heads.now)
        (arrays letters rows.now numbers heads.now) (by party (Action.Ask place (Question.Row row)))
        reply.new }
{
    holder_written::row(rows, heads, party, place, row, reply);
}

// Reading (contract 7.10).
#[unsafe(no_mangle)]
pub extern "C" fn rq_reading_parts<'a>(
    numbers: &'a [i16; NUMBERS],
    heads: &'a [u16; HEADS],
    party: u8,
    place: u8,
    angle: f32,
    load: f32,
    reply: &mut [u16; REPLY],
)
    ensures call { (letters rows : List ℕ)
        → Done (arrays letters rows numbers.now heads.now)
        (arrays letters rows numbers.now heads.now)
        (by party (Action.Ask place (Question.Reading (record { angle = angle; load = load })))) reply.new }
    ensures meaning { (letters rows : List ℕ)
        → ReadingTold (arrays letters rows numbers.now heads.now) party place (record { angle = angle; load = load })
        reply.new }
{
    holder_written::reading(numbers, heads, party, place, Reading { angle, load }, reply);
}

// Piece (contract 7.11). Writes the point of a move or a line to `point`. Any other path command leaves it unchanged.
#[unsafe(no_mangle)]
pub extern "C" fn rq_piece_parts<'a>(
    numbers: &'a [i16; NUMBERS],
    heads: &'a [u16; HEADS],
    party: u8,
    place: u8,
    position: u16,
    point: &mut [f32; 2],
    reply: &mut [u16; REPLY],
)
    ensures call { (letters rows : List ℕ)
        → Done (arrays letters rows numbers.now heads.now)
        (arrays letters rows numbers.now heads.now) (by party (Action.Ask place (Question.Piece position)))
        reply.new }
    ensures point { (letters rows : List ℕ) → point.new
        ≡ point_after (piece_in (answer_of (arrays letters rows numbers.now heads.now)
        (by party (Action.Ask place (Question.Piece position)))).reply) point.old }
    ensures meaning { PieceNamed (fields_of reply.new) point.old point.new }
{
    holder_written::piece(numbers, heads, party, place, position, point, reply);
}

// What is drafted: 19, 13, or the count of letters in the third field and the start in the last two.
#[unsafe(no_mangle)]
pub extern "C" fn rq_draft_parts(heads: &[u16; HEADS], party: u8, reply: &mut [u16; REPLY])
    ensures { (letters rows : List ℕ) (numbers : List ℤ) → reply.new
        ≡ numbers_of (draft_fields (draft_of (arrays letters rows numbers heads.now) party)) }
{
    holder_written::draft(heads, party, reply);
}

// Check (contract 13.4): 0 exactly when the place's word is 0 or names a slot that holds what a taking leaves; else 27.
#[unsafe(no_mangle)]
pub extern "C" fn rq_check_parts<'a>(
    rows: &'a [u8; ROW_BYTES],
    numbers: &'a [i16; NUMBERS],
    heads: &'a [u16; HEADS],
    party: u8,
    place: u8,
    reply: &mut [u16; REPLY],
)
    ensures { (letters : List ℕ) → reply.new ≡ numbers_of (reply_fields
        (check_of (arrays letters rows.now numbers.now heads.now) party place)) }
{
    holder_image_calls::check(rows, numbers, heads, party, place, reply);
}

// Save (contract 13.5): the image of what is at work stands first in the buffer. A refused save leaves the buffer unaltered.
#[unsafe(no_mangle)]
pub extern "C" fn rq_save_parts<'a>(
    rows: &'a [u8; ROW_BYTES],
    numbers: &'a [i16; NUMBERS],
    heads: &'a [u16; HEADS],
    party: u8,
    place: u8,
    image: &mut [u8],
    reply: &mut [u16; REPLY],
)
    ensures { (letters : List ℕ)
        → IsSaved (arrays letters rows.now numbers.now heads.now) party place image.old
        image.new reply.new }
{
    holder_image_calls::save(rows, numbers, heads, party, place, image, reply);
}

// The first half of a restore (contract 13.6): replies, and fills a slot that no place names. Returns the word for the second half, which
// is that of a close; 0 if the restore is refused, or is done already because the image is of an empty place.
#[unsafe(no_mangle)]
pub extern "C" fn rq_prepare_image_parts(
    rows: &mut [u8; ROW_BYTES],
    numbers: &mut [i16; NUMBERS],
    heads: &mut [u16; HEADS],
    party: u8,
    place: u8,
    image: &[u8],
    reply: &mut [u16; REPLY],
) -> u16
    ensures { (letters : List ℕ)
        → ImagePrepared (arrays letters rows.old numbers.old heads.old)
        (arrays letters rows.new numbers.new heads.new) party place image.now result
        reply.new }
{
    holder_image_calls::prepare_image(rows, numbers, heads, party, place, image, reply)
}

// One call of eleven bytes. If the bytes are not a call, returns false and changes nothing.
#[unsafe(no_mangle)]
pub extern "C" fn rq_call_parts(
    letters: &mut [u8; LETTERS],
    rows: &mut [u8; ROW_BYTES],
    numbers: &mut [i16; NUMBERS],
    heads: &mut [u16; HEADS],
    call: &[u8],
    reply: &mut [u16; REPLY],
) -> bool
    ensures call { Responded (arrays letters.old rows.old numbers.old heads.old)
        (arrays letters.new rows.new numbers.new heads.new) (decoded call.now)
        reply.old reply.new result }
    ensures meaning { BytesTold (arrays letters.old rows.old numbers.old heads.old)
        (decoded call.now) reply.new }
{
    holder_bytes::respond(letters, rows, numbers, heads, call, reply)
}
