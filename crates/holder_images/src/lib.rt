// A place of a holder: whether it is whole, its image, and an outline from an image (contract 13.4 to 13.6). The arrays of a holder come
// one by one, and so do a party and its place: the C interface names them so.
#![tactic(auto)]

ghost use Rattle.std.specs.Prelude.{◌≡◌, ◌↔◌, true, List, ℕ, ◌+◌, ◌<◌, ◌≤◌, length};
ghost use Rattle.chart.specs.Limits.{side};
ghost use Rattle.chart.specs.Outline.{outline};
ghost use Rattle.calls.specs.Calls.{parties, places};
ghost use Rattle.spans.specs.Spans.{spans_of};
ghost use Rattle.windows.specs.Windows.{window};
ghost use Rattle.span_list.specs.SpanList.{spans_at};
ghost use Rattle.holder_memory.specs.Layout.{arrays, slots, row_bytes};
ghost use Rattle.holder_answers.specs.Arrays.{preparation, reply};
ghost use Rattle.holder_images.specs.Arrays.{check_of, saved, save_of, prepare_image_of, restore_of};
ghost use Rattle.holder_images.specs.parts.Found.{Holds, HeldAt};

use calls::{Answer, PARTIES, PLACES, party_index, place_index};
use chart::{LONGEST, Point, Refusal};
use equality::same_bytes;
use holder_closes::{Prepared, commit, prepare_outline};
use holder_memory::naming::slot_of;
use holder_memory::{HEADS, NUMBERS, PLACE_WORDS, ROW_BYTES, SLOTS};
use holder_works::{anchor_at, edges_at};
use images::{HEADER, IMAGE};
use span_list::WIDTH;
use spans::{ROWS, spans_of};

// What a whole place holds: an outline, by its border's start and the count of its letters, none of them if the place is empty.
#[derive(Clone, Copy)]
struct Held {
    start: Point,
    count: usize,
}

// Whether 255 bytes stand in a list, from an index on.
fn stands(own: &[u8; ROWS], at: usize, rows: &[u8]) -> bool
    requires { at + side ≤ length rows.now }
    ensures { (result ≡ true) ↔ (window at side rows.now ≡ own.now) }
{
    same_bytes(&rows[at..at + ROWS], own)
}

// Whether the rows in a slot are those of an outline. It is no part of its callers, so that its rows and a border that is being written are
// never on the stack at once.
#[inline(never)]
fn same_rows(rows: &[u8], slot: usize, start: Point, letters: &[u8]) -> bool
    requires { (slot < slots) × (length rows.now ≡ row_bytes) }
    ensures { (result ≡ true) ↔ (spans_at rows.now slot ≡ spans_of (outline start letters.now)) }
{
    let own = spans_of(start, letters);
    let at = WIDTH * slot;
    if !stands(&own.first, at, rows) {
        return false;
    }
    stands(&own.past, at + ROWS, rows)
}

// What a place holds, and the letters of its border. 27 if no taking leaves what stands there.
fn find(
    rows: &[u8; ROW_BYTES],
    numbers: &[i16; NUMBERS],
    heads: &[u16; HEADS],
    p: usize,
    k: usize,
    letters: &mut [u8; LONGEST],
) -> Result<Held, Refusal>
    requires { (p < parties) × (k < places) }
    ensures { (own : List ℕ)
        → Holds (arrays own rows.now numbers.now heads.now) p k letters.new result }
{
    let word = heads[PLACE_WORDS + (PLACES * p + k)];
    if word == 0 {
        let start = Point { col: 0, row: 0 };
        return Ok(Held { start, count: 0 });
    }
    let slot = slot_of(p, word);
    if SLOTS <= slot {
        return Err(Refusal::Damaged);
    }
    let anchor = anchor_at(heads, slot);
    let list = edges_at(numbers, heads, slot);
    let traced = border::border(anchor, list, &mut letters[..]);
    match traced {
        Ok(n) => {
            let count = usize::from(n);
            if same_rows(&rows[..], slot, anchor, &letters[..count]) {
                let start = anchor;
                Ok(Held { start, count })
            } else {
                Err(Refusal::Damaged)
            }
        }
        Err(_) => Err(Refusal::Damaged),
    }
}

// What is held at any place of any party: 19, 20, 27, or as found there.
fn held_at<'a>(
    rows: &'a [u8; ROW_BYTES],
    numbers: &'a [i16; NUMBERS],
    heads: &'a [u16; HEADS],
    party: u8,
    place: u8,
    letters: &mut [u8; LONGEST],
) -> Result<Held, Refusal>
    ensures { (own : List ℕ)
        → HeldAt (arrays own rows.now numbers.now heads.now) party place letters.new result }
{
    let p = party_index(party)?;
    let k = place_index(place)?;
    find(rows, numbers, heads, p, k, letters)
}

// 19, 20, 27, or the place is whole.
pub fn check<'a>(
    rows: &'a [u8; ROW_BYTES],
    numbers: &'a [i16; NUMBERS],
    heads: &'a [u16; HEADS],
    party: u8,
    place: u8,
) -> Result<Answer, Refusal>
    ensures { (letters : List ℕ)
        → result ≡ check_of (arrays letters rows.now numbers.now heads.now) party place }
{
    let mut letters = [0u8; LONGEST];
    held_at(rows, numbers, heads, party, place, &mut letters)?;
    Ok(Answer::Done)
}

// 19, 20, 27, 18, or the image of the place stands first in the buffer.
pub fn save<'a>(
    rows: &'a [u8; ROW_BYTES],
    numbers: &'a [i16; NUMBERS],
    heads: &'a [u16; HEADS],
    party: u8,
    place: u8,
    image: &mut [u8],
) -> Result<Answer, Refusal>
    ensures { (letters : List ℕ) → saved result image.new
        ≡ save_of (arrays letters rows.now numbers.now heads.now) party place image.old }
{
    let mut letters = [0u8; LONGEST];
    let held = held_at(rows, numbers, heads, party, place, &mut letters)?;
    if image.len() < IMAGE {
        return Err(Refusal::LetterBuffer);
    }
    let start = held.start;
    images::write(
        start.col as u8,
        start.row as u8,
        &letters[..held.count],
        &mut image[..IMAGE],
    );
    Ok(Answer::Done)
}

// The first half of a restore: 19, 20, 26, or by the verdict on the image's outline. It writes no slot that any place names, and no draft.
// The image of an empty place is done at once, by one store: the place then names no slot.
pub fn prepare_image(
    rows: &mut [u8; ROW_BYTES],
    numbers: &mut [i16; NUMBERS],
    heads: &mut [u16; HEADS],
    party: u8,
    place: u8,
    image: &[u8],
) -> Prepared
    ensures { (letters : List ℕ)
        → preparation result.reply result.word (arrays letters rows.new numbers.new heads.new)
        ≡ prepare_image_of (arrays letters rows.old numbers.old heads.old) party place
        image.now }
{
    // A refusal has a word beside it: a `?` cannot pass it on.
    let p = usize::from(party);
    if PARTIES <= p {
        return Prepared::refused(Refusal::Party);
    }
    let k = usize::from(place);
    if PLACES <= k {
        return Prepared::refused(Refusal::Place);
    }
    match images::read(image) {
        None => Prepared::refused(Refusal::Image),
        Some(found) => {
            if found.count == 0 {
                heads[PLACE_WORDS + (PLACES * p + k)] = 0;
                return Prepared {
                    reply: Ok(Answer::Done),
                    word: 0,
                };
            }
            let end = HEADER + found.count;
            prepare_outline(rows, numbers, heads, p, k, found.start, &image[HEADER..end])
        }
    }
}

// A restore: both halves.
pub fn restore(
    rows: &mut [u8; ROW_BYTES],
    numbers: &mut [i16; NUMBERS],
    heads: &mut [u16; HEADS],
    party: u8,
    place: u8,
    image: &[u8],
) -> Result<Answer, Refusal>
    ensures { (letters : List ℕ)
        → reply result (arrays letters rows.new numbers.new heads.new)
        ≡ restore_of (arrays letters rows.old numbers.old heads.old) party place image.now }
{
    let prepared = prepare_image(rows, numbers, heads, party, place, image);
    commit(heads, party, place, prepared.word);
    prepared.reply
}
