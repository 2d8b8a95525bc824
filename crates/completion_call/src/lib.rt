// The completion of an outline: the border of the smallest convex block around it (contract 6.6).
#![tactic(auto)]

ghost use Rattle.std.specs.Prelude.{◌≡◌, length};
ghost use Rattle.chart.specs.Outline.{outline};
ghost use Rattle.lattice.specs.Refusals.{Simple};
ghost use Rattle.completion_call.specs.Completion.{completed_of, completed_fields, completion_after};
ghost use Rattle.completion_call.specs.Named.{CompletionNamed};
ghost use Rattle.completion_call.specs.parts.Answers.{Answers};

use border_of_rows::round;
use chart::{Point, Refusal};
use hull_rows::{left, lowest};
use row_sides::pass;
use rows::mirrored;

pub mod written;

// What a completion wrote: this many letters, which start at this corner.
#[derive(Clone, Copy)]
pub struct Completed {
    pub letters: u16,
    pub start: Point,
}

// For an outline that passes 1 to 6: 18, or the letters round the hull's rows, from W. The mirror image gives the right side.
fn write_letters(start: Point, letters: &[u8], out: &mut [u8]) -> Result<Completed, Refusal>
    requires { Simple (outline start letters.now) }
    ensures { Answers (outline start letters.now) out.old out.new result }
{
    let sides = pass(start, letters);
    let b = usize::from(sides.low);
    let t = usize::from(sides.high);
    let mut begins = sides.lo;
    left(&mut begins, b, t);
    let hi = sides.hi;
    let mut over = mirrored(&hi);
    left(&mut over, b, t);
    let ends = mirrored(&over);
    let west = lowest(&begins, b, t);
    let east = lowest(&over, b, t);
    let columns = usize::from(ends[east] - begins[west]);
    let count = 2 * (t - b) + 2 * columns;
    if out.len() < count {
        return Err(Refusal::LetterBuffer);
    }
    round(&begins, &ends, b, t, west, out);
    let corner = Point {
        col: begins[west],
        row: west as u16,
    };
    Ok(Completed {
        letters: count as u16,
        start: corner,
    })
}

// Writes the completion's letters, clockwise from W, to the front of the buffer. The rest is unchanged. A refused call, by 1 to 6 or 18,
// changes nothing.
pub fn complete(start: Point, letters: &[u8], out: &mut [u8]) -> Result<Completed, Refusal>
    ensures answer { result ≡ completed_of (outline start letters.now) (length out.old) }
    ensures letters { out.new ≡ completion_after (outline start letters.now) out.old }
    ensures cells { CompletionNamed (outline start letters.now) (completed_fields result) out.old
        out.new }
{
    survey::survey(start, letters)?;
    write_letters(start, letters, out)
}
