// A reading against an anchor and a list of edges (contract 6.7).
#![tactic(auto)]

ghost use Rattle.std.specs.Prelude.{◌≡◌, Ok};
ghost use Rattle.chart.specs.Fields.{numbers_of, fields_of};
ghost use Rattle.calls.specs.Replies.{reply_fields};
ghost use Rattle.comparison.specs.Compared.{checked_of};
ghost use Rattle.loose_reading.specs.Read.{loose_reading_of, ReadingNamed};

use calls::Reading;
use calls::written::of_reply;
use chart::reply::{NUMBERS, put};
use chart::{Fields, Point};

// Writes where a reading lies that gets past the checks of its list. This is no part of `read`, so that the checks need less stack.
#[inline(never)]
fn locate(anchor: Point, edges: &[i16], reading: Reading, reply: &mut [u16; NUMBERS])
    requires { checked_of anchor edges.now ≡ Ok tt }
    ensures { reply.new ≡ numbers_of (reply_fields (loose_reading_of anchor edges.now reading)) }
{
    let located = readings::reply(readings::locate(anchor, edges, reading));
    put(of_reply(located), reply);
}

// The loose reading: checks 10, 11 of the anchor, 16, 11 of the corner cells and 11 of the reading, then where it lies, as seven numbers.
pub fn read(anchor: Point, edges: &[i16], angle: f32, load: f32, reply: &mut [u16; NUMBERS])
    ensures answer { reply.new
        ≡ numbers_of (reply_fields (loose_reading_of anchor edges.now (record { angle = angle; load = load }))) }
    ensures named { ReadingNamed anchor edges.now (record { angle = angle; load = load })
        (fields_of reply.new) }
{
    let reading = Reading { angle, load };
    match comparison::check(anchor, edges) {
        Ok(()) => locate(anchor, edges, reading, reply),
        Err(why) => put(Fields::from(why), reply),
    }
}
