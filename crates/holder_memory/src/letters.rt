// The letters of a draft.
ghost use Rattle.std.specs.Prelude.{◌≡◌, ◌*◌, ◌<◌, min, take};
ghost use Rattle.chart.specs.Limits.{longest};
ghost use Rattle.calls.specs.Calls.{parties};
ghost use Rattle.windows.specs.Windows.{window};

use crate::LETTERS;
use chart::LONGEST;

// The letters of a party's draft: as many as its count says, clamped to the capacity.
pub fn sent(letters: &[u8; LETTERS], party: usize, count: usize) -> &[u8]
    requires { party < parties }
    ensures { result.now ≡ take (min count longest) (window (longest * party) longest letters.now) }
{
    let n = count.min(LONGEST);
    let from = LONGEST * party;
    let to = from + n;
    &letters[from..to]
}
