// Replays a script of calls on a holder, and writes each reply as a line of seven numbers. The script is text on standard input.
#![tactic(auto)]

ghost use Rattle.std.specs.Io.{ReadsAtMost};

mod build;
mod by_value;
mod fields;
mod lines;
mod reading;

use chart::reply::NUMBERS;
use replay::replay;
use std::io;
use std::io::Read;

const ROOM: usize = 28672;

// The text must be shorter.
const TEXT: usize = 16384;

// Replays a script and writes the replies, and how many of them differ from those by value.
fn run(rt: &impl Print, script: &[u8], replies: &mut [u16]) -> io::Result<()> {
    let count = replay(script, replies);
    let written = &replies[..NUMBERS * count];
    lines::write_replies(rt, written)?;
    lines::write_count(rt, "calls: ", count)?;
    let others = by_value::differing(script, written);
    lines::write_count(rt, "replies that differ by value: ", others)
}

// Reads until the buffer is full or the input ends, and returns how many bytes it put at the start of the buffer.
fn read_full(input: &mut impl Read, buffer: &mut [u8]) -> io::Result<usize>
    ensures { ReadsAtMost result buffer.new }
{
    let mut done = 0;
    // Each read puts as many bytes as it likes: a `for` is no plainer.
    while done < buffer.len() {
        let more = input.read(&mut buffer[done..])?;
        if more == 0 {
            return Ok(done);
        }
        done += more;
    }
    Ok(done)
}

// Reads the script from standard input and runs it.
fn run_text(rt: &(impl Input + Print)) -> io::Result<()> {
    let mut text = [0u8; TEXT];
    let n = read_full(&mut rt.reader(), &mut text)?;
    if n == TEXT {
        println!(rt; "the text is too long")?;
    }
    let s = reading::script(rt, &text[..n])?;
    let mut replies = [0u16; ROOM];
    run(rt, &s.bytes, &mut replies)
}

fn main(rt: HostRuntime) -> io::Result<()> {
    println!(rt; "number word place piece length col row")?;
    run_text(&rt)?;
    // A number that is not a call, a truncated call, and no room for a third reply.
    let mut few = [9u16; 20];
    run(
        &rt,
        b"\x03\x00\x00........\x09\x00\x00........\x03\x00\x00........",
        &mut few,
    )?;
    run(&rt, b"\x03\x00\x00........\x03\x00\x00.......", &mut few)?;
    run(
        &rt,
        b"\x05\x01\x03........\x04\x02\x00........\x03\x00\x00........",
        &mut few,
    )?;
    lines::write_numbers(&rt, &few)?;
    println!(rt)
}
