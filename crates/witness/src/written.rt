// The reply's number, word and fields (contract 4).
ghost use Rattle.std.specs.Prelude.{◌≡◌};
ghost use Rattle.witness.specs.Witnessed.{witnessed_fields};

use chart::{Fields, Point, Refusal, reply};

// A witness call's result is the lowest missing cell, `None` if no cell is missing, or the refusal: 1 to 6, or 10. It is no `From`: the
// `Result` is another crate's type here, as are the fields.
#[tactic(auto, unfolding(crate::specs::Witnessed::witnessed_fields))]
pub fn of_witnessed(w: Result<Option<Point>, Refusal>) -> Fields
    ensures { result ≡ witnessed_fields w }
{
    match w {
        Ok(Some(cell)) => reply::accepted(reply::NO_WORD, 0, cell),
        Ok(None) => reply::worded(reply::NONE),
        Err(why) => Fields::from(why),
    }
}
