// Locates a pair of floats among the edges of a polygon, in 32-bit arithmetic.
#![tactic(auto)]

ghost use Rattle.std.specs.Prelude.{◌≡◌};
ghost use Rattle.std.specs.Float.{binary32};
ghost use Rattle.std.specs.Float.Ieee.{of_bits};
ghost use Rattle.readings.specs.Located.{bad_number, located_of, reading_of};
ghost use Rattle.readings.specs.Replies.{located_reply};
ghost use Rattle.readings.specs.parts.Walk.{Tame};

use calls::{Answer, Reading};
use chart::{Point, Refusal, SIDE};

mod walk;

// The last column and the last row.
const LAST: u16 = SIDE - 1;

// Where a reading lies.
#[derive(Clone, Copy)]
pub enum Located {
    Inside,
    Outside,
    Undecided,
}

// 11, of one number: NaN, infinite, below 0 or above 254.
fn bad_number(x: f32) -> bool
    ensures { result ≡ bad_number x }
{
    !((0.0 <= x) & (x <= LAST as f32))
}

// 11, or where a reading lies in the polygon of an anchor and a list of edges. There are at most 100 of them, or they stay on the chart.
pub fn locate(anchor: Point, edges: &[i16], reading: Reading) -> Result<Located, Refusal>
    requires { Tame anchor edges.now }
    ensures { result ≡ located_of anchor edges.now reading }
{
    if bad_number(reading.angle) | bad_number(reading.load) {
        return Err(Refusal::Cell);
    }
    let mut at = walk::begin(anchor);
    let (list, _) = edges.as_chunks::<2>();
    for &[dx, dy] in list {
        let Some(next) = walk::pass(at, dx, dy, reading) else {
            return Ok(Located::Outside);
        };
        at = next;
    }
    Ok(walk::settle(at, reading))
}

// The call's reply.
#[tactic(auto, unfolding(crate::specs::Replies::located_reply))]
pub fn reply(located: Result<Located, Refusal>) -> Result<Answer, Refusal>
    ensures { result ≡ located_reply located }
{
    match located? {
        Located::Inside => Ok(Answer::Inside),
        Located::Outside => Ok(Answer::Outside),
        Located::Undecided => Ok(Answer::Undecided),
    }
}

// The float of a bit pattern. `from_bits` has no value for a NaN pattern, so 0 / 0 makes the NaN.
fn number(bits: u32) -> f32
    ensures { result ≡ of_bits binary32 bits }
{
    if 0x7f80_0000 < bits % 0x8000_0000 {
        return 0.0 / 0.0;
    }
    f32::from_bits(bits)
}

// The reading of two bit patterns. It is no `From`, as `Reading` is the type of another crate.
#[tactic(auto, unfolding(crate::specs::Located::reading_of))]
pub fn from_bits(angle: u32, load: u32) -> Reading
    ensures { result ≡ reading_of angle load }
{
    Reading {
        angle: number(angle),
        load: number(load),
    }
}
