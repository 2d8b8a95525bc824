// A script in the making: calls of eleven bytes each. A call's two numbers come one by one, as its bytes have them.
use std::io;

pub(crate) const SIZE: usize = 45056;

// Bytes past the end are 9, which is not a call. The next calls are of this party, at this place.
#[derive(Clone, Copy)]
pub(crate) struct Script {
    pub(crate) bytes: [u8; SIZE],
    pub(crate) end: usize,
    pub(crate) party: u8,
    pub(crate) place: u8,
}

// The bytes that a call does not name.
const LAST_TWO: u64 = 0x0909_0000;

const LAST_THREE: u64 = 0x0909_0900;

// The low byte. It is `wire::letter` at another width.
fn low(n: u64) -> u8 {
    (n % 256) as u8
}

// A 16-bit number, followed by bytes that the call does not name.
fn short(n: u64) -> u64 {
    LAST_TWO + n % 65536
}

impl Script {
    pub(crate) fn new() -> Self {
        Script {
            bytes: [9; SIZE],
            end: 0,
            party: 0,
            place: 0,
        }
    }

    // The next calls are of this party, at this place.
    pub(crate) fn at(&mut self, party: u64, place: u64) {
        self.party = low(party);
        self.place = low(place);
    }

    // Appends a byte. If there is no space for it, a line says so.
    fn put_byte(&mut self, rt: &impl Print, byte: u8) -> io::Result<()> {
        let at = self.end;
        if at < SIZE {
            self.bytes[at] = byte;
            self.end = at + 1;
            Ok(())
        } else {
            println!(rt; "no space for a call")
        }
    }

    // Appends a 32-bit number, low byte first.
    fn put_long(&mut self, rt: &impl Print, n: u64) -> io::Result<()> {
        self.put_byte(rt, low(n))?;
        self.put_byte(rt, low(n / 256))?;
        self.put_byte(rt, low(n / 65536))?;
        self.put_byte(rt, low(n / 16777216))
    }

    // Appends a call by its number and two 32-bit numbers.
    pub(crate) fn put(&mut self, rt: &impl Print, number: u64, x: u64, y: u64) -> io::Result<()> {
        let party = self.party;
        let place = self.place;
        self.put_byte(rt, low(number))?;
        self.put_byte(rt, party)?;
        self.put_byte(rt, place)?;
        self.put_long(rt, x)?;
        self.put_long(rt, y)
    }

    // Appends a call by its number and two 16-bit numbers.
    pub(crate) fn put_short(
        &mut self,
        rt: &impl Print,
        number: u64,
        x: u64,
        y: u64,
    ) -> io::Result<()> {
        self.put(rt, number, short(x), short(y))
    }

    pub(crate) fn add(&mut self, rt: &impl Print, letter: u8) -> io::Result<()> {
        self.put(rt, 1, LAST_THREE + u64::from(letter), LAST_TWO)
    }

    // One letter n times.
    pub(crate) fn times(&mut self, rt: &impl Print, n: u64, letter: u64) -> io::Result<()> {
        for _ in 0..n {
            self.add(rt, low(letter))?;
        }
        Ok(())
    }
}
