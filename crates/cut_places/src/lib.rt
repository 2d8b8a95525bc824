// Which way the letters are read, and the five cut places of the border (contract 2.2 and 3.3), from the places of W, N, E and S.
#![tactic(auto)]

ghost use Rattle.std.specs.Prelude.{◌≤◌, ◌≡◌};
ghost use Rattle.convexity.specs.Cut.{ahead as ahead_of};
ghost use Rattle.cut_places.specs.parts.Cuts.{are_below, place_read, cut_places_of};

use chart::LONGEST;
use survey_walk::Corners;

// How many letters lead from place a on to place b of n letters, read cyclically.
fn ahead(n: usize, a: usize, b: usize) -> usize
    requires { a ≤ n }
    ensures { result ≡ ahead_of n a b }
{
    if a <= b { b - a } else { n - a + b }
}

// How a list of letters is read: forward or backward, from the place of W on.
#[derive(Clone, Copy)]
struct Reading {
    count: usize,
    forward: bool,
    west: usize,
}

impl Reading {
    // How many letters lead from W to a place of the list.
    fn place(self, at: usize) -> usize
        requires { (self.west ≤ self.count) × (at ≤ self.count) }
        ensures { result ≡ place_read self.forward self.count self.west at }
    {
        if self.forward {
            ahead(self.count, self.west, at)
        } else {
            ahead(self.count, at, self.west)
        }
    }
}

// Whether all four are places of a list of n letters.
fn are_below(n: usize, found: Corners) -> bool
    ensures { result ≡ are_below n found }
{
    (found.west < n) & ((found.north < n) & ((found.east < n) & (found.south < n)))
}

// Whether the letters are read forward, and the cut places of the border, the last of which is W's again.
#[derive(Clone, Copy)]
pub struct Cuts {
    pub forward: bool,
    pub at: [usize; 5],
}

// From the letters and the places of the corners. For any other four places of the list the result is the same sums.
pub fn cut_places(letters: &[u8], found: Corners) -> Cuts
    ensures { result ≡ cut_places_of letters.now found }
{
    let n = letters.len();
    if LONGEST < n || !are_below(n, found) {
        return Cuts {
            forward: false,
            at: [0; 5],
        };
    }
    let west = found.west;
    // Clockwise, the letter that leaves W leads up.
    let forward = letters[west] == 1;
    let reading = Reading {
        count: n,
        forward,
        west,
    };
    let north = reading.place(found.north);
    let east = reading.place(found.east);
    let south = reading.place(found.south);
    let first = ahead(n, 0, north);
    let second = first + ahead(n, north, east);
    let third = second + ahead(n, east, south);
    let fourth = third + ahead(n, south, 0);
    Cuts {
        forward,
        at: [0, first, second, third, fourth],
    }
}
