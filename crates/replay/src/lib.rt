// A list of calls as bytes, run on a fresh holder (contract 10.3).
#![tactic(auto)]

ghost use Rattle.std.specs.Prelude.{◌≡◌, length};
ghost use Rattle.replay.specs.Script.{calls_read, replies_after};

use chart::reply::NUMBERS as REPLY;
use holder_bytes::respond;
use holder_memory::{HEADS, LETTERS, NUMBERS, ROW_BYTES};
use wire::BYTES;

// Runs the calls of a script on a fresh holder, which is arrays of zeros, writes the replies and returns their count.
pub fn replay(script: &[u8], replies: &mut [u16]) -> usize
    ensures count { result ≡ length (calls_read script.now (length replies.old)) }
    ensures replies { replies.new ≡ replies_after script.now replies.old }
{
    // The whole calls of the script, of which the first `end` have room for their replies.
    let (calls, _) = script.as_chunks::<BYTES>();
    let end = calls.len().min(replies.len() / REPLY);
    let mut letters = [0u8; LETTERS];
    let mut rows = [0u8; ROW_BYTES];
    let mut numbers = [0i16; NUMBERS];
    let mut heads = [0u16; HEADS];
    let mut reply = [0u16; REPLY];
    for (done, call) in calls[..end].iter().enumerate() {
        let made = respond(
            &mut letters,
            &mut rows,
            &mut numbers,
            &mut heads,
            call,
            &mut reply,
        );
        if !made {
            return done;
        }
        let to = REPLY * done;
        replies[to..to + REPLY].copy_from_slice(&reply[..]);
    }
    end
}
