// A script from text: on each line a name and what it takes.
ghost use Rattle.std.specs.Prelude.{◌≤◌};

use crate::build::Script;
use crate::fields::{NO_NUMBER, digit, field, number};
use std::io;

// The names, the nine calls first in the order of their numbers.
const ADD: usize = 1;

const READING: usize = 7;

const AT: usize = 9;

const TIMES: usize = 10;

const LETTERS: usize = 11;

const OUTLINE: usize = 12;

// The index of a name.
fn index(name: &[u8]) -> Option<usize> {
    let names = b"begin add drop clear close query row reading piece at times letters outline";
    names
        .split(|byte| *byte == b' ')
        .position(|other| other == name)
}

// How many fields follow a name.
fn fields_after(name: usize) -> usize
    ensures { result ≤ 3 }
{
    match name {
        2 | 3 | 4 => 0,
        1 | 6 | 8 | 11 => 1,
        12 => 3,
        _ => 2,
    }
}

// Whether the fields of a line are those that its name takes.
fn whole(line: &[u8], count: usize) -> bool
    requires { count ≤ 3 }
{
    !field(line, count).is_empty() && field(line, count + 1).is_empty()
}

// The number in a field, 0 where the name takes no such field.
fn argument(line: &[u8], i: usize, name: usize) -> u64 {
    if fields_after(name) < i {
        return 0;
    }
    number(field(line, i), name == READING)
}

// Whether a name can take two numbers. The letters are no number.
fn fits(name: usize, x: u64, y: u64) -> bool {
    match name {
        ADD | AT => x < 256 && y < 256,
        TIMES => x < 65536 && y < 256,
        READING => x < NO_NUMBER && y < NO_NUMBER,
        LETTERS => true,
        _ => x < 65536 && y < 65536,
    }
}

// Adds the letters of a word of digits. What is not a digit is a letter that the holder refuses.
fn letters(rt: &impl Print, s: &mut Script, word: &[u8]) -> io::Result<()> {
    for byte in word {
        s.add(rt, digit(*byte))?;
    }
    Ok(())
}

// Appends what a name stands for. An outline is a whole draft, and a close.
fn append(
    rt: &impl Print,
    s: &mut Script,
    name: usize,
    x: u64,
    y: u64,
    word: &[u8],
) -> io::Result<()> {
    match name {
        ADD => s.times(rt, 1, x),
        READING => s.put(rt, name as u64, x, y),
        AT => {
            s.at(x, y);
            Ok(())
        }
        TIMES => s.times(rt, x, y),
        LETTERS => letters(rt, s, word),
        OUTLINE => {
            s.put_short(rt, 0, x, y)?;
            letters(rt, s, word)?;
            s.put_short(rt, 4, 0, 0)
        }
        _ => s.put_short(rt, name as u64, x, y),
    }
}

// Appends the calls of a line. A line that cannot be read is written out.
fn append_line(rt: &impl Print, s: &mut Script, line: &[u8]) -> io::Result<()> {
    if let Some(name) = index(field(line, 0)) {
        let count = fields_after(name);
        let x = argument(line, 1, name);
        let y = argument(line, 2, name);
        if whole(line, count) && fits(name, x, y) {
            return append(rt, s, name, x, y, field(line, count));
        }
    }
    print!(rt; "cannot be read: ")?;
    rt.write_all(line)?;
    println!(rt)
}

// Whether a line is empty or a comment.
fn silent(line: &[u8]) -> bool {
    line.is_empty() || line[0] == b'#'
}

// The script of a text.
pub(crate) fn script(rt: &impl Print, text: &[u8]) -> io::Result<Script> {
    let mut s = Script::new();
    for line in text.split(|byte| *byte == b'\n') {
        if !silent(line) {
            append_line(rt, &mut s, line)?;
        }
    }
    Ok(s)
}
