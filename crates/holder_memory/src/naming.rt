// The word that names each of a party's slots, and the slot that no place names. A party is an index of the arrays here. A struct with its
// bound would be built in each call to be opened at once.
ghost use Rattle.std.specs.Prelude.{◌≡◌, ◌<◌, MatchOption};
ghost use Rattle.calls.specs.Calls.{parties};
ghost use Rattle.holder_memory.specs.Layout.{own};
ghost use Rattle.holder_memory.specs.Words.{word_of, tag_of, slot_of, named as named_in, free_tag};

use crate::{HEADS, OWN, PLACE_WORDS, SLOTS};
use calls::PLACES;

// The words. Any two differ in eight bits, and each differs in eight bits from 0 and from 65535.
const WORD_0: u16 = 0x5555;

const WORD_1: u16 = 0x3333;

const WORD_2: u16 = 0x6666;

const WORD_3: u16 = 0x0F0F;

const WORD_4: u16 = 0x5A5A;

// The word of a party's slot.
#[tactic(auto, unfolding(crate::specs::Words::word_of))]
pub fn word_of(tag: usize) -> u16
    ensures { result ≡ word_of tag }
{
    match tag {
        0 => WORD_0,
        1 => WORD_1,
        2 => WORD_2,
        3 => WORD_3,
        _ => WORD_4,
    }
}

// Which of a party's slots a number names.
#[tactic(auto, unfolding(crate::specs::Words::tag_of))]
fn tag_of(word: u16) -> Option<usize>
    ensures { MatchOption result (tag_of word ≡ own) (λ tag. (tag ≡ tag_of word) × (tag < own)) }
{
    match word {
        WORD_0 => Some(0),
        WORD_1 => Some(1),
        WORD_2 => Some(2),
        WORD_3 => Some(3),
        WORD_4 => Some(4),
        _ => None,
    }
}

// The slot that a number at a place of the party names, or 10 for none: the public questions about a slot (`holder_works`) answer for
// every number, and an option of a slot would ask more of their callers.
pub fn slot_of(party: usize, word: u16) -> usize
    requires { party < parties }
    ensures { result ≡ slot_of party word }
{
    match tag_of(word) {
        Some(tag) => OWN * party + tag,
        None => SLOTS,
    }
}

// Whether some place of the party has the word of its slot.
fn named(heads: &[u16; HEADS], party: usize, tag: usize) -> bool
    requires { (party < parties) × (tag < own) }
    ensures { result ≡ named_in heads.now party tag }
{
    for k in 0..PLACES {
        if heads[PLACE_WORDS + (PLACES * party + k)] == word_of(tag) {
            return true;
        }
    }
    false
}

// The first slot of the party that no place of it names, whatever the heads hold. If the four places name the first four, it is the fifth.
pub fn free_tag(heads: &[u16; HEADS], party: usize) -> usize
    requires { party < parties }
    ensures { result ≡ free_tag heads.now party }
{
    for t in 0..PLACES {
        if !named(heads, party, t) {
            return t;
        }
    }
    PLACES
}
