// The reply of a call on a pile, and its number, word and fields (contract 4 and 12).
#![tactic(auto)]

ghost use Rattle.std.specs.Prelude.{◌≡◌};
ghost use Rattle.pile_replies.specs.Replies.{pile_fields};

use chart::{Fields, Refusal, Taken, reply};

// What a call answers. Its reply is this or a refusal.
#[derive(Clone, Copy)]
pub enum PileAnswer {
    // A layer was set to empty, a check passed, or a layer was saved.
    Done,
    Inside,
    Outside,
    // A set: the outline is taken.
    Taken(Taken),
}

// A reply's fields. No `From` may stand here: both types are other crates'.
#[tactic(auto, unfolding(crate::specs::Replies::pile_fields))]
pub fn of_reply(r: Result<PileAnswer, Refusal>) -> Fields
    ensures { result ≡ pile_fields r }
{
    match r {
        Ok(PileAnswer::Done) => reply::worded(reply::NO_WORD),
        Ok(PileAnswer::Inside) => reply::worded(reply::INSIDE),
        Ok(PileAnswer::Outside) => reply::worded(reply::OUTSIDE),
        Ok(PileAnswer::Taken(taken)) => reply::accepted(reply::NO_WORD, taken.edges, taken.anchor),
        Err(why) => Fields::from(why),
    }
}
