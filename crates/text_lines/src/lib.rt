// Lines of three numbers as text, written to a buffer as far as it has room (contract 11.4).
#![tactic(auto)]

ghost use Rattle.std.specs.Prelude.{[], ◌∷◌};
ghost use Rattle.text_lines.specs.Text.{decimal, field_text, line_text};
ghost use Rattle.text_lines.specs.Written.{Wrote};

const SPACE: u8 = 32;

const LINE_FEED: u8 = 10;

const ZERO: u8 = 48;

// A line of a listing: a record's number, the number of the test or the fault, and a place or a position.
#[derive(Clone, Copy)]
pub struct Line {
    pub number: usize,
    pub answer: usize,
    pub place: usize,
}

// A buffer and a place in it go with each of these functions. A struct that holds the buffer is no plainer: each of its methods would also
// have to promise that it keeps the same reference.

// Writes a byte if there is room for it, and returns where the next one goes.
fn put(byte: u8, text: &mut [u8], at: usize) -> usize
    ensures { Wrote (byte ∷ []) at text.old text.new result }
{
    if text.len() <= at {
        return at;
    }
    text[at] = byte;
    at + 1
}

// Writes a number in decimal: first the digits of a tenth of it, if that is not 0, then its last digit.
fn put_number(n: usize, text: &mut [u8], at: usize) -> usize
    ensures { Wrote (decimal n) at text.old text.new result }
{
    let digit = ZERO + (n % 10) as u8;
    if n < 10 {
        return put(digit, text, at);
    }
    let end = put_number(n / 10, text, at);
    put(digit, text, end)
}

// Writes a number and the byte after it.
fn put_field(n: usize, byte: u8, text: &mut [u8], at: usize) -> usize
    ensures { Wrote (field_text n byte) at text.old text.new result }
{
    let end = put_number(n, text, at);
    put(byte, text, end)
}

// Writes a line: its three numbers with spaces between, and a line feed.
pub fn put_line(line: Line, text: &mut [u8], at: usize) -> usize
    ensures { Wrote (line_text line) at text.old text.new result }
{
    let at = put_field(line.number, SPACE, text, at);
    let at = put_field(line.answer, SPACE, text, at);
    put_field(line.place, LINE_FEED, text, at)
}
