// The calls on a holder in four arrays but close, each in place (contract 7.3 to 7.5, 7.8 to 7.11, 10.4). The arrays come one by one, and
// so do a party and its place: the C interface names them so. The four questions have two lines each: one function over a closure would be
// as long, and hide which arrays a call needs.
#![tactic(auto)]

ghost use Rattle.std.specs.Prelude.{◌≡◌, ◌<◌, List, ℕ, ℤ, MatchResult};
ghost use Rattle.calls.specs.Calls.{by, parties, places};
ghost use Rattle.holder_memory.specs.Layout.{arrays, spot, place_word};
ghost use Rattle.holder_answers.specs.Arrays.{reply, answer_of, draft_of};
ghost use Rattle.holder_answers.specs.Run.{fresh_holder};
ghost use Rattle.holder_calls.specs.parts.Asked.{asked_at, Drafts, Undrafted, Nowhere};

use calls::{Action, Answer, PLACES, Question, Reading, party_index, place_index};
use chart::{LONGEST, Point, Refusal};
use holder_answers::Draft;
use holder_memory::naming::slot_of;
use holder_memory::writes::put_start;
use holder_memory::{DRAFT_NUMBERS, HEADS, LETTERS, NUMBERS, PLACE_WORDS, ROW_BYTES};
use survey::checks::bad_start;

// The index of a party that has a draft: 19, 13, or the index.
fn drafter(heads: &[u16; HEADS], party: u8) -> Result<usize, Refusal>
    ensures { MatchResult result (λ p. (p ≡ party) × (party < parties) × Drafts heads.now party)
        (λ why. Undrafted heads.now party why) }
{
    let p = party_index(party)?;
    if heads[DRAFT_NUMBERS * p] == 0 {
        return Err(Refusal::NoDraft);
    }
    Ok(p)
}

// Where the word of a place stands: 19, 20, or its index in the heads.
fn word_at(party: u8, place: u8) -> Result<usize, Refusal>
    ensures { MatchResult result
        (λ at. (at ≡ place_word (spot party place)) × (party < parties) × (place < places))
        (λ why. Nowhere party place why) }
{
    let p = party_index(party)?;
    let k = place_index(place)?;
    Ok(PLACE_WORDS + (PLACES * p + k))
}

// 19, 13, 15, 3, or the letter is added.
pub fn add(
    letters: &mut [u8; LETTERS],
    heads: &mut [u16; HEADS],
    party: u8,
    letter: u8,
) -> Result<Answer, Refusal>
    ensures { (rows : List ℕ) (numbers : List ℤ)
        → reply result (arrays letters.new rows numbers heads.new)
        ≡ answer_of (arrays letters.old rows numbers heads.old) (by party (Action.Add letter)) }
{
    let p = drafter(heads, party)?;
    let at = DRAFT_NUMBERS * p;
    let count = heads[at + 3];
    let n = usize::from(count);
    if LONGEST <= n {
        return Err(Refusal::DraftFull);
    }
    if 3 < letter {
        return Err(Refusal::Letter { place: count });
    }
    letters[LONGEST * p + n] = letter;
    heads[at + 3] = count + 1;
    Ok(Answer::Done)
}

// Makes the arrays a fresh holder, whatever they held.
pub fn clear_all(
    letters: &mut [u8; LETTERS],
    rows: &mut [u8; ROW_BYTES],
    numbers: &mut [i16; NUMBERS],
    heads: &mut [u16; HEADS],
)
    ensures { arrays letters.new rows.new numbers.new heads.new ≡ fresh_holder }
{
    *letters = [0; LETTERS];
    *rows = [0; ROW_BYTES];
    *numbers = [0; NUMBERS];
    *heads = [0; HEADS];
}

// 19, 14, 2, or the draft is opened.
pub fn begin(heads: &mut [u16; HEADS], party: u8, start: Point) -> Result<Answer, Refusal>
    ensures { (letters rows : List ℕ) (numbers : List ℤ)
        → reply result (arrays letters rows numbers heads.new)
        ≡ answer_of (arrays letters rows numbers heads.old) (by party (Action.Begin start)) }
{
    let p = party_index(party)?;
    let at = DRAFT_NUMBERS * p;
    if heads[at] != 0 {
        return Err(Refusal::DraftOpen);
    }
    if bad_start(start) {
        return Err(Refusal::Start);
    }
    put_start(heads, at, start);
    Ok(Answer::Done)
}

// 19, 13, or the draft ends.
pub fn drop(heads: &mut [u16; HEADS], party: u8) -> Result<Answer, Refusal>
    ensures { (letters rows : List ℕ) (numbers : List ℤ)
        → reply result (arrays letters rows numbers heads.new)
        ≡ answer_of (arrays letters rows numbers heads.old) (by party Action.Drop) }
{
    let p = drafter(heads, party)?;
    heads[DRAFT_NUMBERS * p] = 0;
    Ok(Answer::Done)
}

// 19, 20, or nothing is left at work at the place.
pub fn clear(heads: &mut [u16; HEADS], party: u8, place: u8) -> Result<Answer, Refusal>
    ensures { (letters rows : List ℕ) (numbers : List ℤ)
        → reply result (arrays letters rows numbers heads.new)
        ≡ answer_of (arrays letters rows numbers heads.old) (by party (Action.Clear place)) }
{
    let at = word_at(party, place)?;
    heads[at] = 0;
    Ok(Answer::Done)
}

// Where a question looks: 19, 20, or the slot that the place names, 10 for none.
fn slot_at(heads: &[u16; HEADS], party: u8, place: u8) -> Result<usize, Refusal>
    ensures { result ≡ asked_at heads.now party place }
{
    let p = party_index(party)?;
    let k = place_index(place)?;
    Ok(slot_of(p, heads[PLACE_WORDS + (PLACES * p + k)]))
}

// 19, 20, 12, 11, or where the cell lies.
pub fn query<'a>(
    rows: &'a [u8; ROW_BYTES],
    heads: &'a [u16; HEADS],
    party: u8,
    place: u8,
    cell: Point,
) -> Result<Answer, Refusal>
    ensures { (letters : List ℕ) (numbers : List ℤ)
        → reply result (arrays letters rows.now numbers heads.now)
        ≡ answer_of (arrays letters rows.now numbers heads.now)
        (by party (Action.Ask place (Question.Cell cell))) }
{
    let slot = slot_at(heads, party, place)?;
    holder_works::query(rows, slot, cell)
}

// 19, 20, 12, 11, or the columns of the row.
pub fn row<'a>(
    rows: &'a [u8; ROW_BYTES],
    heads: &'a [u16; HEADS],
    party: u8,
    place: u8,
    row: u16,
) -> Result<Answer, Refusal>
    ensures { (letters : List ℕ) (numbers : List ℤ)
        → reply result (arrays letters rows.now numbers heads.now)
        ≡ answer_of (arrays letters rows.now numbers heads.now)
        (by party (Action.Ask place (Question.Row row))) }
{
    let slot = slot_at(heads, party, place)?;
    holder_works::row(rows, slot, row)
}

// 19, 20, 12, 11, or where the reading lies.
pub fn reading<'a>(
    numbers: &'a [i16; NUMBERS],
    heads: &'a [u16; HEADS],
    party: u8,
    place: u8,
    reading: Reading,
) -> Result<Answer, Refusal>
    ensures { (letters rows : List ℕ)
        → reply result (arrays letters rows numbers.now heads.now)
        ≡ answer_of (arrays letters rows numbers.now heads.now)
        (by party (Action.Ask place (Question.Reading reading))) }
{
    let slot = slot_at(heads, party, place)?;
    holder_works::reading(numbers, heads, slot, reading)
}

// 19, 20, 12, or the path command at the position.
pub fn piece<'a>(
    numbers: &'a [i16; NUMBERS],
    heads: &'a [u16; HEADS],
    party: u8,
    place: u8,
    position: u16,
) -> Result<Answer, Refusal>
    ensures { (letters rows : List ℕ)
        → reply result (arrays letters rows numbers.now heads.now)
        ≡ answer_of (arrays letters rows numbers.now heads.now)
        (by party (Action.Ask place (Question.Piece position))) }
{
    let slot = slot_at(heads, party, place)?;
    holder_works::piece(numbers, heads, slot, position)
}

// 19, 13, or the start and the count of the party's draft.
pub fn draft(heads: &[u16; HEADS], party: u8) -> Result<Draft, Refusal>
    ensures { (letters rows : List ℕ) (numbers : List ℤ) → result ≡ draft_of (arrays letters rows numbers heads.now) party }
{
    let whose = drafter(heads, party)?;
    let at = DRAFT_NUMBERS * whose;
    let start = Point {
        col: heads[at + 1],
        row: heads[at + 2],
    };
    let count = heads[at + 3];
    Ok(Draft { start, count })
}
