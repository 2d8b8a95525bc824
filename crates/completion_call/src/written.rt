// The reply's number and fields (contract 4).
ghost use Rattle.std.specs.Prelude.{◌≡◌};
ghost use Rattle.completion_call.specs.Completion.{completed_fields};

use crate::Completed;
use chart::{Fields, Refusal, reply};

// The count of the letters written and where they start, or the refusal: 1 to 6, or 18. It is no `From`: the `Result` is another crate's
// type here, as are the fields.
#[tactic(auto, unfolding(crate::specs::Completion::completed_fields))]
pub fn of_completed(c: Result<Completed, Refusal>) -> Fields
    ensures { result ≡ completed_fields c }
{
    match c {
        Ok(Completed { letters, start }) => reply::accepted(reply::NO_WORD, letters, start),
        Err(why) => Fields::from(why),
    }
}
