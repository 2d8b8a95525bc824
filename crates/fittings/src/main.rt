// Lists the fitting file on standard input, and writes the text to standard output (contract 11.5). A read or a write that fails is told
// on standard error.
#![tactic(auto)]

ghost use Rattle.std.specs.Prelude.{◌≡◌, ◌≤◌, true, length, take, OnOk};
ghost use Rattle.std.specs.Io.KnownBytes.{Appends, Consumes, IsAtEnd};
ghost use Rattle.text_lines.specs.Text.{text_of};
ghost use Rattle.fitting_listing.specs.Lines.{lines_of};

use fitting_listing::{MOST, ROOM};
use std::io::{self, Read, Write};

// Lists a file in a buffer, and writes what was listed: the text of the file's lines, as far as the buffer has room.
fn write_listing<W: Write>(out: &mut W, file: &[u8], text: &mut [u8]) -> io::Result<()>
    ensures { OnOk result (Appends (W.contents out.old) (W.contents out.new) (take (length text.old) (text_of (lines_of file.now)))) }
{
    let end = fitting_listing::list(file, text);
    out.write_all(&text[..end])
}

// Reads until the buffer is full, the input ends or a read fails, and returns how many bytes it put at the start of the buffer. They are
// what was read from the input.
fn read_full<R: Read>(input: &mut R, buffer: &mut [u8]) -> usize
    ensures within { result ≤ length buffer.new }
    ensures prefix { result ≡ length (take result buffer.new) }
    ensures bytes { Consumes (R.remaining input.old) (R.remaining input.new) (take result buffer.new) }
{
    let mut done = 0;
    // A read puts as many bytes as it likes, so no range counts them: a `for` is no plainer.
    while done < buffer.len() {
        match input.read(&mut buffer[done..]) {
            Ok(0) => return done,
            Ok(more) => done += more,
            Err(_) => return done,
        }
    }
    done
}

// Whether the input has ended: one more read finds nothing, and does not fail.
fn ended<R: Read>(input: &mut R) -> bool
    ensures { result ≡ true → IsAtEnd (R.remaining input.new) }
{
    let mut more = [0u8; 1];
    matches!(input.read(&mut more), Ok(0))
}

// One byte past the longest file tells that it is too long; nothing behind it matters. A shorter input must have ended.
fn main(rt: HostRuntime) {
    let mut file = [0u8; MOST + 1];
    let mut text = [0u8; ROOM];
    let mut input = rt.stdin();
    let read = read_full(&mut input, &mut file);
    if read <= MOST && !ended(&mut input) {
        let _ = eprintln!(rt; "fittings: the input cannot be read");
        return;
    }
    if write_listing(&mut rt.stdout(), &file[..read], &mut text).is_err() {
        let _ = eprintln!(rt; "fittings: the listing cannot be written");
    }
}
