// One call as bytes (contract 10.3).
#![tactic(auto)]

ghost use Rattle.std.specs.Prelude.{◌≡◌};
ghost use Rattle.wire.specs.Wire.{long as long_of, short_of, letter_of, point_of, call_of, decoded as decoded_of, received as received_of};

use calls::{Action, Call, Question};
use chart::Point;
use chart::reply::NUMBERS;
use readings::from_bits;

// How many bytes a call has.
pub const BYTES: usize = 11;

// A 32-bit number, low byte first.
pub fn long(a: u8, b: u8, c: u8, d: u8) -> u32
    ensures { result ≡ long_of a b c d }
{
    u32::from_le_bytes([a, b, c, d])
}

// Its first two bytes. An `as` may lose nothing, so each of these two takes a remainder: one function for both would need its divisor too.
pub fn short(x: u32) -> u16
    ensures { result ≡ short_of x }
{
    (x % 65536) as u16
}

// Its first byte.
pub fn letter(x: u32) -> u8
    ensures { result ≡ letter_of x }
{
    (x % 256) as u8
}

pub fn point(x: u32, y: u32) -> Point
    ensures { result ≡ point_of x y }
{
    Point {
        col: short(x),
        row: short(y),
    }
}

fn call_by(party: u8, action: Action) -> Option<Call>
    ensures { result ≡ Some (record { party = party; action = action }) }
{
    Some(Call { party, action })
}

fn ask(party: u8, place: u8, question: Question) -> Option<Call>
    ensures { result ≡ Some (record { party = party; action = Action.Ask place question }) }
{
    call_by(party, Action::Ask { place, question })
}

// The call with a number, a party, a place and two arguments. None if the number is above 8. The number is a byte of the C interface.
fn call_of(number: u8, party: u8, place: u8, x: u32, y: u32) -> Option<Call>
    ensures { result ≡ call_of number party place x y }
{
    match number {
        0 => call_by(party, Action::Begin { start: point(x, y) }),
        1 => call_by(party, Action::Add { letter: letter(x) }),
        2 => call_by(party, Action::Drop),
        3 => call_by(party, Action::Clear { place }),
        4 => call_by(party, Action::Close { place }),
        5 => ask(party, place, Question::Cell(point(x, y))),
        6 => ask(party, place, Question::Row(short(x))),
        7 => ask(party, place, Question::Reading(from_bits(x, y))),
        8 => ask(party, place, Question::Piece(short(x))),
        _ => None,
    }
}

// The call of these bytes. None unless there are eleven.
fn decode(call: &[u8]) -> Option<Call>
    ensures { result ≡ decoded_of call.now }
{
    if call.len() != BYTES {
        return None;
    }
    let x = long(call[3], call[4], call[5], call[6]);
    let y = long(call[7], call[8], call[9], call[10]);
    call_of(call[0], call[1], call[2], x, y)
}

// The call to answer. None if there is no room for the reply: `room` counts numbers of a buffer that is not lent here.
pub fn received(call: &[u8], room: usize) -> Option<Call>
    ensures { result ≡ received_of call.now room }
{
    if room < NUMBERS {
        return None;
    }
    decode(call)
}
