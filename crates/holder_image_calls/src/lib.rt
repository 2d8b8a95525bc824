// Check, save and the first half of a restore, with the reply in seven numbers (contract 10.1 and 13.4 to 13.6). Their parameters come one
// by one: the C interface names them so.
#![tactic(auto)]

ghost use Rattle.std.specs.Prelude.{◌≡◌, List, ℕ};
ghost use Rattle.chart.specs.Fields.{numbers_of};
ghost use Rattle.calls.specs.Replies.{reply_fields};
ghost use Rattle.holder_memory.specs.Layout.{arrays};
ghost use Rattle.holder_images.specs.Arrays.{check_of};
ghost use Rattle.holder_image_calls.specs.Written.{IsSaved, ImagePrepared};

use calls::written::put;
use chart::reply::NUMBERS as REPLY;
use holder_memory::{HEADS, NUMBERS, ROW_BYTES};

// Check.
pub fn check<'a>(
    rows: &'a [u8; ROW_BYTES],
    numbers: &'a [i16; NUMBERS],
    heads: &'a [u16; HEADS],
    party: u8,
    place: u8,
    reply: &mut [u16; REPLY],
)
    ensures { (letters : List ℕ) → reply.new ≡ numbers_of (reply_fields
        (check_of (arrays letters rows.now numbers.now heads.now) party place)) }
{
    put(
        holder_images::check(rows, numbers, heads, party, place),
        reply,
    );
}

// Save.
pub fn save<'a>(
    rows: &'a [u8; ROW_BYTES],
    numbers: &'a [i16; NUMBERS],
    heads: &'a [u16; HEADS],
    party: u8,
    place: u8,
    image: &mut [u8],
    reply: &mut [u16; REPLY],
)
    ensures { (letters : List ℕ)
        → IsSaved (arrays letters rows.now numbers.now heads.now) party place image.old
        image.new reply.new }
{
    put(
        holder_images::save(rows, numbers, heads, party, place, image),
        reply,
    );
}

// The first half of a restore. Returns the word for commit.
pub fn prepare_image(
    rows: &mut [u8; ROW_BYTES],
    numbers: &mut [i16; NUMBERS],
    heads: &mut [u16; HEADS],
    party: u8,
    place: u8,
    image: &[u8],
    reply: &mut [u16; REPLY],
) -> u16
    ensures { (letters : List ℕ)
        → ImagePrepared (arrays letters rows.old numbers.old heads.old)
        (arrays letters rows.new numbers.new heads.new) party place image.now result
        reply.new }
{
    let prepared = holder_images::prepare_image(rows, numbers, heads, party, place, image);
    let answer = prepared.reply;
    put(answer, reply);
    prepared.word
}
