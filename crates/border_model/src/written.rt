// The reply's number and fields (contract 4).
ghost use Rattle.std.specs.Prelude.{◌≡◌};
ghost use Rattle.border_model.specs.Traced.{traced_fields};

use chart::{Fields, Refusal, reply};

// The count of the letters written, or 10, 11, 16, 17 or 18.
#[tactic(auto, unfolding(crate::specs::Traced::traced_fields))]
pub fn of_traced(t: Result<u16, Refusal>) -> Fields
    ensures { result ≡ traced_fields t }
{
    match t {
        Ok(letters) => reply::placed(0, letters),
        Err(why) => Fields::from(why),
    }
}
