// The listing of a fitting file: the test's number and place for each record's outline, and the fault, if there is one (contract 11).
#![tactic(auto)]

ghost use Rattle.std.specs.Prelude.{◌≤◌, ◌≡◌, length};
ghost use Rattle.chart.specs.Outline.{outline};
ghost use Rattle.fitting_listing.specs.Faults.{fault_number};
ghost use Rattle.fitting_listing.specs.Lines.{most, line as line_of, tested_line, lines_at, lines_of};
ghost use Rattle.fitting_listing.specs.Listed.{Small, Listed};

use chart::{Fields, MOST_NUMBERS, Point};
use fitting_records::{Fault, HEADER, next_at};
use text_lines::{Line, put_line};

// A file has at most this many bytes.
pub const MOST: usize = 65536;

// A buffer of this many bytes has room for the listing of any file.
pub const ROOM: usize = 196614;

// The fault of a file that is too long (contract 11.3).
const TOO_LONG: usize = 25;

// The number of a fault at a position of a file (contract 11.3).
#[tactic(auto, unfolding(crate::specs::Faults::fault_number))]
fn fault_number(why: Fault) -> usize
    ensures { result ≡ fault_number why }
{
    match why {
        Fault::WrongMark => 23,
        Fault::Truncated => 24,
    }
}

// The line of a fault: the record's number, the fault's number, and a position.
fn fault(number: usize, answer: usize, place: usize) -> Line
    ensures { result ≡ line_of number answer place }
{
    Line {
        number,
        answer,
        place,
    }
}

// The line of a record. The test gets a buffer for as many edges as a taken outline may have.
fn tested(number: usize, col: u8, row: u8, letters: &[u8]) -> Line
    ensures line { result ≡ tested_line number (outline (record { col = col; row = row }) letters.now) }
    ensures small { Small result }
{
    let mut edges = [0i16; MOST_NUMBERS];
    let start = Point {
        col: u16::from(col),
        row: u16::from(row),
    };
    let fields = Fields::from(outline::test(start, letters, &mut edges));
    Line {
        number,
        answer: usize::from(fields.number),
        place: usize::from(fields.place),
    }
}

// Writes the lines of the records of a file, up to its end or a fault.
fn list_records(file: &[u8], text: &mut [u8]) -> usize
    requires { length file.now ≤ most }
    ensures { Listed (lines_at 0 0 file.now) text.old text.new result }
{
    let mut at = 0;
    let mut number = 0;
    let mut end = 0;
    loop {
        let letters = at + HEADER;
        let step = next_at(file, at);
        match step.found {
            Ok(None) => return end,
            Err(why) => return put_line(fault(number, fault_number(why), at), text, end),
            Ok(Some(record)) => {
                let next = step.next;
                let line = tested(number, record.col, record.row, &file[letters..next]);
                end = put_line(line, text, end);
                at = next;
                number += 1;
            }
        }
    }
}

// Lists a file: writes its lines to a buffer as far as there is room, and returns how many bytes it wrote.
pub fn list(file: &[u8], text: &mut [u8]) -> usize
    ensures { Listed (lines_of file.now) text.old text.new result }
{
    if MOST < file.len() {
        return put_line(fault(0, TOO_LONG, MOST), text, 0);
    }
    list_records(file, text)
}
