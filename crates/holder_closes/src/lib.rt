// A close in two halves: prepare writes a slot that no place names, and commit one number (contract 7.6, 7.7, 10.4). So no close writes an
// outline that is at work. The arrays of a holder come one by one, and so do a party and its place: the C interface names them so.
#![tactic(auto)]

ghost use Rattle.std.specs.Prelude.{◌≡◌, cond, List, ℕ, ◌<◌, Ok, Err};
ghost use Rattle.chart.specs.Outline.{outline};
ghost use Rattle.spans.specs.Spans.{spans_of};
ghost use Rattle.calls.specs.Calls.{parties, places, by};
ghost use Rattle.holder_memory.specs.Layout.{slots, arrays};
ghost use Rattle.holder_answers.specs.Arrays.{preparation, reply, outline_prepared, prepare_of, commit_of, answer_of, filled};

use calls::{Action, Answer, PARTIES, PLACES};
use chart::{MOST_NUMBERS, Point, Refusal, Taken};
use holder_memory::letters::sent;
use holder_memory::naming::{free_tag, slot_of, word_of};
use holder_memory::writes::{put_numbers, put_slot_head};
use holder_memory::{DRAFT_NUMBERS, HEADS, LETTERS, NUMBERS, OWN, PLACE_WORDS, ROW_BYTES};
use holder_works::has;
use span_list::put_outline;

// What a prepare replies, and the word for the place: 0 if it refuses. C gets the two apart, so that they are no result with a word.
#[derive(Clone, Copy)]
pub struct Prepared {
    pub reply: Result<Answer, Refusal>,
    pub word: u16,
}

impl Prepared {
    pub fn refused(why: Refusal) -> Prepared
        ensures { result ≡ record { reply = Err why; word = 0 } }
    {
        Prepared {
            reply: Err(why),
            word: 0,
        }
    }
}

// A taken outline fills a slot.
fn fill(
    rows: &mut [u8; ROW_BYTES],
    numbers: &mut [i16; NUMBERS],
    heads: &mut [u16; HEADS],
    slot: usize,
    start: Point,
    letters: &[u8],
    anchor: Point,
    list: &[i16; MOST_NUMBERS],
    edges: u16,
)
    requires { slot < slots }
    ensures { (own : List ℕ) → arrays own rows.new numbers.new heads.new
        ≡ filled (arrays own rows.old numbers.old heads.old) slot anchor list.now edges
        (spans_of (outline start letters.now)) }
{
    put_outline(&mut rows[..], slot, start, letters);
    put_numbers(list, MOST_NUMBERS * slot, &mut numbers[..]);
    put_slot_head(heads, slot, anchor, edges);
}

// The reply of a close that takes the draft.
fn taken_reply(same: bool, edges: u16, anchor: Point) -> Result<Answer, Refusal>
    ensures { result ≡ cond same (Ok (Answer.Same edges anchor)) (Ok (Answer.Taken edges anchor)) }
{
    if same {
        Ok(Answer::Same { edges, anchor })
    } else {
        Ok(Answer::Taken { edges, anchor })
    }
}

// An outline for a place: by its verdict. It writes the slot of the party that no place names.
pub fn prepare_outline(
    rows: &mut [u8; ROW_BYTES],
    numbers: &mut [i16; NUMBERS],
    heads: &mut [u16; HEADS],
    p: usize,
    k: usize,
    start: Point,
    letters: &[u8],
) -> Prepared
    requires { (p < parties) × (k < places) }
    ensures { (own : List ℕ)
        → preparation result.reply result.word (arrays own rows.new numbers.new heads.new)
        ≡ outline_prepared (arrays own rows.old numbers.old heads.old) p k
        (outline start letters.now) }
{
    let mut list = [0i16; MOST_NUMBERS];
    let verdict = judge::judge(start, letters, &mut list);
    match verdict {
        Err(why) => Prepared::refused(why),
        Ok(Taken { edges, anchor }) => {
            let own = slot_of(p, heads[PLACE_WORDS + (PLACES * p + k)]);
            let same = has(numbers, heads, own, anchor, &list, edges);
            let tag = free_tag(heads, p);
            let slot = OWN * p + tag;
            fill(
                rows, numbers, heads, slot, start, letters, anchor, &list, edges,
            );
            let reply = taken_reply(same, edges, anchor);
            let word = word_of(tag);
            Prepared { reply, word }
        }
    }
}

// The first half of a close: 19, 20, 13, or by the verdict on the draft. It writes no slot that any place names, and no place.
pub fn prepare(
    letters: &[u8; LETTERS],
    rows: &mut [u8; ROW_BYTES],
    numbers: &mut [i16; NUMBERS],
    heads: &mut [u16; HEADS],
    party: u8,
    place: u8,
) -> Prepared
    ensures { preparation result.reply result.word
        (arrays letters.now rows.new numbers.new heads.new)
        ≡ prepare_of (arrays letters.now rows.old numbers.old heads.old) party place }
{
    // A bad place ends the draft before it is refused, and a refusal has a word beside it: a `?` cannot pass it on.
    let p = usize::from(party);
    if PARTIES <= p {
        return Prepared::refused(Refusal::Party);
    }
    let at = DRAFT_NUMBERS * p;
    let k = usize::from(place);
    if PLACES <= k {
        heads[at] = 0;
        return Prepared::refused(Refusal::Place);
    }
    if heads[at] == 0 {
        return Prepared::refused(Refusal::NoDraft);
    }
    let start = Point {
        col: heads[at + 1],
        row: heads[at + 2],
    };
    let count = usize::from(heads[at + 3]);
    let outline = sent(letters, p, count);
    let prepared = prepare_outline(rows, numbers, heads, p, k, start, outline);
    heads[at] = 0;
    prepared
}

// The second half of a close: one store, of a word that is not 0.
pub fn commit(heads: &mut [u16; HEADS], party: u8, place: u8, word: u16)
    ensures { heads.new ≡ commit_of heads.old party place word }
{
    // Nothing is refused here, so there is no error to pass on.
    let p = usize::from(party);
    if PARTIES <= p {
        return;
    }
    let k = usize::from(place);
    if PLACES <= k {
        return;
    }
    if word == 0 {
        return;
    }
    heads[PLACE_WORDS + (PLACES * p + k)] = word;
}

// A close: both halves.
pub fn close(
    letters: &[u8; LETTERS],
    rows: &mut [u8; ROW_BYTES],
    numbers: &mut [i16; NUMBERS],
    heads: &mut [u16; HEADS],
    party: u8,
    place: u8,
) -> Result<Answer, Refusal>
    ensures { reply result (arrays letters.now rows.new numbers.new heads.new)
        ≡ answer_of (arrays letters.now rows.old numbers.old heads.old)
        (by party (Action.Close place)) }
{
    let prepared = prepare(letters, rows, numbers, heads, party, place);
    commit(heads, party, place, prepared.word);
    prepared.reply
}
