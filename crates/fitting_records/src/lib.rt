// The records of a fitting file, and a reader that steps from one to the next (contract 11).
#![tactic(auto)]

ghost use Rattle.std.specs.Prelude.{◌≡◌, ◌<◌, ◌^◌};
ghost use Rattle.fitting_records.specs.Found.{after_mark, found_in, found_at, width as width_of, step_at};

// A record begins with a mark of two bytes (contract 11.1).
const FIRST: u8 = 0x4B;

const SECOND: u8 = 0x4F;

// The bytes of a record before its letters: the mark, the column and the row of the start, and two bytes for the count of letters.
pub const HEADER: usize = 6;

// What is wrong at a position of a file.
#[derive(Clone, Copy)]
pub enum Fault {
    // Fault 23: a wrong mark, or a single byte.
    WrongMark,
    // Fault 24: a record that is truncated after its mark.
    Truncated,
}

// A whole record: its start, and the count of its letters.
#[derive(Clone, Copy)]
pub struct Record {
    pub col: u8,
    pub row: u8,
    pub count: usize,
}

// A step of a reader: the record at its position, or none where nothing is left, and where the next record begins.
#[derive(Clone, Copy)]
pub struct Step {
    pub found: Result<Option<Record>, Fault>,
    pub next: usize,
}

// A file, and the position up to which it has been read.
#[derive(Clone, Copy)]
pub struct Reader<'a> {
    pub file: &'a [u8],
    pub at: usize,
}

// The record whose rest stands after a mark, or the fault of a truncated one. Its count of letters is stored low byte first.
fn after_mark(bytes: &[u8]) -> Result<Option<Record>, Fault>
    ensures { result ≡ after_mark bytes.now }
{
    match bytes {
        [col, row, low, high, letters @ ..] => {
            let count = usize::from(u16::from_le_bytes([*low, *high]));
            if letters.len() < count {
                return Err(Fault::Truncated);
            }
            Ok(Some(Record {
                col: *col,
                row: *row,
                count,
            }))
        }
        _ => Err(Fault::Truncated),
    }
}

// The record that the bytes begin with, or none where there are no bytes.
fn found_in(bytes: &[u8]) -> Result<Option<Record>, Fault>
    ensures { result ≡ found_in bytes.now }
{
    match bytes {
        [] => Ok(None),
        [FIRST, SECOND, rest @ ..] => after_mark(rest),
        _ => Err(Fault::WrongMark),
    }
}

// How many bytes a step reads: those of a whole record, and none at the end or at a fault.
#[tactic(auto, unfolding(crate::specs::Found::width))]
fn width(found: Result<Option<Record>, Fault>) -> usize
    requires { width_of found < 2 ^ 64 }
    ensures { result ≡ width_of found }
{
    match found {
        Ok(Some(record)) => HEADER + record.count,
        Ok(None) => 0,
        Err(_) => 0,
    }
}

impl<'a> Reader<'a> {
    // A reader at a position of a file.
    pub fn new(file: &'a [u8], at: usize) -> Reader<'a>
        ensures { (result.file ≡ file.entry) × (result.at ≡ at) }
    {
        Reader { file, at }
    }

    // The record at the position, or none where nothing is left.
    fn found(self) -> Result<Option<Record>, Fault>
        ensures { result ≡ found_at self.entry.file.now self.entry.at }
    {
        if self.file.len() <= self.at {
            return Ok(None);
        }
        found_in(&self.file[self.at..])
    }

    // The next step. At the end and at a fault the position stays.
    pub fn next(self) -> Step
        ensures { result ≡ step_at self.entry.file.now self.entry.at }
    {
        let found = self.found();
        Step {
            found,
            next: self.at + width(found),
        }
    }
}

// The next step of a reader of a file, from a position on.
pub fn next_at(file: &[u8], at: usize) -> Step
    ensures { result ≡ step_at file.now at }
{
    Reader::new(file, at).next()
}
