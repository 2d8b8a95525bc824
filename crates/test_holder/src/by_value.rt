// The calls of a script on a holder by value, each made on the holder that the one before it returned.
ghost use Rattle.std.specs.Prelude.{◌*◌, ◌/◌, ◌≤◌, length};
ghost use Rattle.wire.specs.Wire.{call_width, reply_width};

use calls::written::of_reply;
use chart::reply;
use chart::reply::NUMBERS;
use holder_values::Holder;
use wire::{BYTES, received};

// The next holder, and whether its reply equals the one in the list. The flag is an answer of its own: there is a next holder either way.
#[derive(Clone, Copy)]
struct Step {
    holder: Holder,
    same: bool,
}

fn answer(holder: Holder, call: &[u8], expected: &[u16]) -> Step {
    let Some(made) = received(call, NUMBERS) else {
        return Step {
            holder,
            same: false,
        };
    };
    let answered = holder.answer(made);
    let answer = answered.reply;
    let mut numbers = [0u16; NUMBERS];
    reply::write(of_reply(answer), &mut numbers[..]);
    let alike = &numbers[..] == expected;
    let next = answered.holder;
    Step {
        holder: next,
        same: alike,
    }
}

// How many replies differ from those by value.
pub(crate) fn differing(script: &[u8], replies: &[u16]) -> usize
    requires { call_width * (length replies.now / reply_width) ≤ length script.now }
{
    let (calls, _) = script.as_chunks::<BYTES>();
    let (replies, _) = replies.as_chunks::<NUMBERS>();
    let mut holder = holder_values::fresh();
    let mut others = 0;
    for (call, expected) in calls.iter().zip(replies) {
        let stepped = answer(holder, call, expected);
        if !stepped.same {
            others += 1;
        }
        holder = stepped.holder;
    }
    others
}
