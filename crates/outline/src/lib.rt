// The test: refusals 1 to 9, then room for the edges (contract 6.1).
#![tactic(auto)]

ghost use Rattle.std.specs.Prelude.{◌≡◌, length};
ghost use Rattle.chart.specs.Outline.{outline};
ghost use Rattle.chart.specs.Fields.{verdict_fields};
ghost use Rattle.verdict.specs.Verdict.{with_room, test_of, test_fields, edges_after};
ghost use Rattle.verdict.specs.Named.{CellNamed};

use chart::{Point, Refusal, Taken};

// 10: a taken outline needs room for two numbers for each edge.
fn with_room(room: usize, verdict: Result<Taken, Refusal>) -> Result<Taken, Refusal>
    ensures { result ≡ with_room room verdict }
{
    let taken = verdict?;
    let edges = taken.edges;
    if room < 2 * usize::from(edges) {
        return Err(Refusal::EdgeList { edges });
    }
    Ok(taken)
}

// Tests an outline. If it is taken, its edges stand first in the buffer. If it is refused, the buffer is unchanged.
pub fn test(start: Point, letters: &[u8], edges: &mut [i16]) -> Result<Taken, Refusal>
    ensures verdict { result ≡ test_of (outline start letters.now) (length edges.old) }
    ensures reply { verdict_fields result ≡ test_fields (outline start letters.now) (length edges.old) }
    ensures edges { edges.new ≡ edges_after (outline start letters.now) edges.old }
    ensures cell { CellNamed (outline start letters.now) (verdict_fields result) }
{
    let room = edges.len();
    let verdict = judge::judge(start, letters, edges);
    with_room(room, verdict)
}
