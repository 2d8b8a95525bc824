// Whether a section is convex. A section is a plane of layers, each with one interval of marked cells, or none.
#![tactic(auto)]

ghost use Rattle.std.specs.Prelude.{◌+◌, ◌-◌, ◌*◌, ◌≤◌, ◌<◌, min, max, ◌≡◌};
ghost use Rattle.chart.specs.Limits.{side};
ghost use Rattle.sections.specs.Sections.{layers, numbers, Bounded, ceiling, above, full as full_of, alone as alone_of};
ghost use Rattle.sections.specs.Sections.{joined as joined_of, joined_from as joined_from_of, reached as reached_of, whole as whole_of, clear};

use chart::SIDE;

// How many layers a pile has.
pub const LAYERS: usize = 16;

// The same as a number of 32 bits, as layers and cells are computed with.
const COUNT: u32 = LAYERS as u32;

// The last of them.
pub const LAST_LAYER: u8 = 15;

// One past the last cell of a layer.
const END: u32 = SIDE as u32;

// The marked cells of layer `l` are those from `lo[l]` up to but not including `past[l]`. Two lists are plainer than one of pairs: a
// section is filled and compared list by list, and its definitions are of two lists of numbers.
#[derive(Clone, Copy, PartialEq, Eq)]
pub struct Section {
    pub lo: [u8; LAYERS],
    pub past: [u8; LAYERS],
}

// The cells of a hull in one layer: from `low` up to but not including `high`.
#[derive(Clone, Copy)]
struct Reach {
    low: u32,
    high: u32,
}

// a·x + b·y.
#[tactic(auto, using(crate::proofs::Quotients::product_small))]
fn weighed(a: u32, x: u32, b: u32, y: u32) -> u32
    requires { (a < layers) × (x ≤ side) × (b < layers) × (y ≤ side) }
    ensures { (result ≡ a * x + b * y) × (result ≤ 65536) }
{
    a * x + b * y
}

// The minimum of `low` and `a / d` rounded up. The division is made only if the quotient is smaller.
fn lowered(low: u32, a: u32, d: u32) -> u32
    requires { (low ≤ side) × (a ≤ 65536) × (0 < d) × (d < layers) }
    ensures { (result ≡ min low (ceiling a d)) × (result ≤ side) }
{
    if a + d <= d * low {
        (a + (d - 1)) / d
    } else {
        low
    }
}

// The maximum of `high` and one more than `a / d` rounded down.
fn raised(high: u32, a: u32, d: u32) -> u32
    requires { (high ≤ side) × (a < d * side) × (0 < d) × (d < layers) }
    ensures { (result ≡ max high (above a d)) × (result ≤ side) }
{
    if d * high <= a { a / d + 1 } else { high }
}

// A layer is a plain number below 16: the lines through three layers compute with the differences of their numbers.
impl Section {
    // The first cell of layer `l`.
    fn first(&self, l: u32) -> u32
        requires { l < layers }
        ensures { (result ≡ numbers self.now.lo l) × (result ≤ side) }
    {
        u32::from(self.lo[l as usize])
    }

    // One past its last.
    fn end(&self, l: u32) -> u32
        requires { l < layers }
        ensures { (result ≡ numbers self.now.past l) × (result ≤ side) }
    {
        u32::from(self.past[l as usize])
    }

    // Layer `l` has a cell.
    fn is_full(&self, l: u32) -> bool
        requires { l < layers }
        ensures { result ≡ full_of (numbers self.now.lo) (numbers self.now.past) l }
    {
        self.first(l) < self.end(l)
    }

    // The bounds of layer `j` with the lines between layers `i` and `k`.
    fn joined(&self, i: u32, j: u32, k: u32, reach: Reach) -> Reach
        requires { (i < j) × (j < k) × (k < layers) × Bounded reach }
        ensures { (result ≡ joined_of (numbers self.now.lo) (numbers self.now.past) i j k reach) × Bounded result }
    {
        if !self.is_full(k) {
            return reach;
        }
        let near = j - i;
        let far = k - j;
        let below = weighed(far, self.first(i), near, self.first(k));
        let over = weighed(
            far,
            self.end(i).saturating_sub(1),
            near,
            self.end(k).saturating_sub(1),
        );
        Reach {
            low: lowered(reach.low, below, k - i),
            high: raised(reach.high, over, k - i),
        }
    }

    // The bounds with the lines between layer `i` and every layer after `j`.
    fn joined_from(&self, i: u32, j: u32, mut reach: Reach) -> Reach
        requires { (i < j) × (j < layers) × Bounded reach }
        ensures { (result ≡ joined_from_of (numbers self.now.lo) (numbers self.now.past) i j reach) × Bounded result }
    {
        if self.is_full(i) {
            for k in j + 1..COUNT {
                reach = self.joined(i, j, k, reach);
            }
        }
        reach
    }

    // The bounds of layer `j` without any line: its own interval.
    fn alone(&self, j: u32) -> Reach
        requires { j < layers }
        ensures { (result ≡ alone_of (numbers self.now.lo) (numbers self.now.past) j) × Bounded result }
    {
        if self.is_full(j) {
            Reach {
                low: self.first(j),
                high: self.end(j),
            }
        } else {
            Reach { low: END, high: 0 }
        }
    }

    // The hull's cells in layer `j`.
    fn reached(&self, j: u32) -> Reach
        requires { j < layers }
        ensures { result ≡ reached_of (numbers self.now.lo) (numbers self.now.past) j }
    {
        let mut reach = self.alone(j);
        for i in 0..j {
            reach = self.joined_from(i, j, reach);
        }
        reach
    }

    // The hull has no cells in layer `j`, or all of them are in the layer's interval.
    fn is_whole(&self, j: u32) -> bool
        requires { j < layers }
        ensures { result ≡ whole_of (numbers self.now.lo) (numbers self.now.past) j }
    {
        let reach = self.reached(j);
        reach.high <= reach.low || (self.first(j) <= reach.low && reach.high <= self.end(j))
    }

    // No cell is missing from the marked ones.
    pub fn is_clear(&self) -> bool
        ensures { result ≡ clear (numbers self.now.lo) (numbers self.now.past) }
    {
        for j in 0..COUNT {
            if !self.is_whole(j) {
                return false;
            }
        }
        true
    }
}
