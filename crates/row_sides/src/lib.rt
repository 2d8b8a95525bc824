// Finds the first, the second and the last side of each row of an outline in one pass over its letters. A side is a step up or down.
#![tactic(auto)]

ghost use Rattle.std.specs.Prelude.{◌≡◌, ◌<◌, length};
ghost use Rattle.chart.specs.Limits.{corners};
ghost use Rattle.chart.specs.Outline.{outline};
ghost use Rattle.lattice.specs.Refusals.{Simple};
ghost use Rattle.rows.specs.Search.{corner_numbered};
ghost use Rattle.witness.specs.parts.Kept.{keep_two};
ghost use Rattle.row_sides.specs.parts.Passed.{Tells, Marks, Passed};

use chart::{CORNERS, Point, SIDE};
use rows::stride;

// The index of no row of the chart.
const NO_ROW: usize = SIDE as usize;

// Corners are numbered row by row, this many to a row.
const WIDTH: u16 = 256;

// The row along which a letter steps from a corner at height `row`, or 255, which is not a row of the chart.
fn along(row: u16, letter: u8) -> usize
    requires { row < corners }
    ensures { Tells row letter result }
{
    if letter == 1 {
        return usize::from(row);
    }
    if letter == 3 && 0 < row {
        return usize::from(row - 1);
    }
    NO_ROW
}

// The two smallest different columns met.
#[derive(Clone, Copy)]
struct Pair {
    one: u16,
    two: u16,
}

fn keep(c: u16, one: u16, two: u16) -> Pair
    ensures { (result.one ≡ (keep_two c (record { one = one; two = two })).one)
        × (result.two ≡ (keep_two c (record { one = one; two = two })).two) }
{
    if c < one {
        return Pair { one: c, two: one };
    }
    if one < c && c < two {
        return Pair { one, two: c };
    }
    Pair { one, two }
}

// What the pass keeps: the first, the second and the last side of each row, and the rows of the lowest and the highest corner. Three
// arrays, not one of triples: each side of the hull is found from the first sides alone or the last sides alone.
#[derive(Clone, Copy)]
pub struct Sides {
    pub lo: [u16; CORNERS],
    pub en: [u16; CORNERS],
    pub hi: [u16; CORNERS],
    pub low: u16,
    pub high: u16,
}

impl Sides {
    // Keeps a side more, if the letter steps along a row from the corner of this number.
    fn mark(&mut self, number: u16, letter: u8)
        requires { (length self.old.lo ≡ corners) × (length self.old.en ≡ corners) × (length self.old.hi ≡ corners) }
        ensures { Marks (corner_numbered number) letter self.old.lo self.old.en self.old.hi
            self.new.lo self.new.en self.new.hi }
    {
        let r = along(number / WIDTH, letter);
        if NO_ROW <= r {
            return;
        }
        let col = number % WIDTH;
        let k = keep(col, self.lo[r], self.en[r]);
        let last = col.max(self.hi[r]);
        self.lo[r] = k.one;
        self.en[r] = k.two;
        self.hi[r] = last;
    }
}

// Corners are numbered row by row, so that a letter takes one sum to the next corner. The lowest and the highest row are put in at the end:
// the loop can have them in registers.
pub fn pass(s: Point, w: &[u8]) -> Sides
    requires { Simple (outline s w.now) }
    ensures { Passed (outline s w.now) result.lo result.en result.hi result.low result.high }
{
    let mut sides = Sides {
        lo: [SIDE; CORNERS],
        en: [SIDE; CORNERS],
        hi: [0; CORNERS],
        low: SIDE,
        high: 0,
    };
    let mut low = SIDE;
    let mut high = 0u16;
    let mut number = s.row % WIDTH * WIDTH + s.col % WIDTH;
    for letter in w {
        let row = number / WIDTH;
        let next = std::num::wrapping_add_u16(number, stride(*letter));
        sides.mark(number, *letter);
        low = row.min(low);
        high = row.max(high);
        number = next;
    }
    sides.low = low;
    sides.high = high;
    sides
}
