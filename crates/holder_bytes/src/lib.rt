// One call as bytes on a holder in the caller's arrays (contract 10.3 and 10.4).
#![tactic(auto)]

ghost use Rattle.wire.specs.Wire.{call_of, decoded};
ghost use Rattle.holder_memory.specs.Layout.{arrays};
ghost use Rattle.holder_bytes.specs.Responded.{Responded, BytesTold};

use chart::reply::NUMBERS as REPLY;
use holder_closes::commit;
use holder_memory::{HEADS, LETTERS, NUMBERS, ROW_BYTES};
use readings::from_bits;
use wire::{BYTES, letter, long, point, short};

// The call of this number, which is a byte of the C interface, as its arrays are named there one by one. Each arm acts and writes by
// itself: no call and no reply that could be of any kind goes through memory.
fn act(
    letters: &mut [u8; LETTERS],
    rows: &mut [u8; ROW_BYTES],
    numbers: &mut [i16; NUMBERS],
    heads: &mut [u16; HEADS],
    number: u8,
    party: u8,
    place: u8,
    x: u32,
    y: u32,
    reply: &mut [u16; REPLY],
) -> bool
    ensures { Responded (arrays letters.old rows.old numbers.old heads.old)
        (arrays letters.new rows.new numbers.new heads.new) (call_of number party place x y)
        reply.old reply.new result }
{
    match number {
        0 => {
            holder_written::begin(heads, party, point(x, y), reply);
            true
        }
        1 => {
            holder_written::add(letters, heads, party, letter(x), reply);
            true
        }
        2 => {
            holder_written::drop(heads, party, reply);
            true
        }
        3 => {
            holder_written::clear(heads, party, place, reply);
            true
        }
        4 => {
            let word = holder_written::prepare(letters, rows, numbers, heads, party, place, reply);
            commit(heads, party, place, word);
            true
        }
        5 => {
            holder_written::query(rows, heads, party, place, point(x, y), reply);
            true
        }
        6 => {
            holder_written::row(rows, heads, party, place, short(x), reply);
            true
        }
        7 => {
            holder_written::reading(numbers, heads, party, place, from_bits(x, y), reply);
            true
        }
        8 => {
            let mut point = [0f32; 2];
            holder_written::piece(numbers, heads, party, place, short(x), &mut point, reply);
            true
        }
        _ => false,
    }
}

// One call of eleven bytes. If the bytes are not a call, returns false and changes nothing.
pub fn respond(
    letters: &mut [u8; LETTERS],
    rows: &mut [u8; ROW_BYTES],
    numbers: &mut [i16; NUMBERS],
    heads: &mut [u16; HEADS],
    bytes: &[u8],
    reply: &mut [u16; REPLY],
) -> bool
    ensures call { Responded (arrays letters.old rows.old numbers.old heads.old)
        (arrays letters.new rows.new numbers.new heads.new) (decoded bytes.now)
        reply.old reply.new result }
    ensures meaning { BytesTold (arrays letters.old rows.old numbers.old heads.old)
        (decoded bytes.now) reply.new }
{
    if bytes.len() != BYTES {
        return false;
    }
    let x = long(bytes[3], bytes[4], bytes[5], bytes[6]);
    let y = long(bytes[7], bytes[8], bytes[9], bytes[10]);
    act(
        letters, rows, numbers, heads, bytes[0], bytes[1], bytes[2], x, y, reply,
    )
}
