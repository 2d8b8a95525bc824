// Runs every outline that fits into 4 by 4 cells, in both directions, through the engine. Compares the replies with a plain count of cells
// and with each other, and writes counts.
#![tactic(auto)]

mod cells;
mod compare;
mod plain;
mod sets;
mod walks;

use chart::Refusal;
use compare::Answer;
use plain::Counted;
use std::io;
use walks::{CORNERS, Outcome, Search};

// The longest search from one corner takes 768,725 steps. A search cut short would miss walks, and the counts would show it.
const MOST_STEPS: u64 = 1_000_000;

// Counts so far: closed simple walks, outlines by the engine's verdict, and those that do not agree.
#[derive(Clone, Copy, Default)]
struct Tally {
    walks: u64,
    outlines: u64,
    taken: u64,
    back_steps: u64,
    dents: u64,
    mismatches: u64,
}

fn more(n: u64) -> u64 {
    n.wrapping_add(1)
}

impl Tally {
    fn add_answer(&mut self, answer: Answer) {
        self.outlines = more(self.outlines);
        match answer.verdict {
            Ok(_) => {
                self.taken = more(self.taken);
            }
            Err(Refusal::BackStep { .. }) => {
                self.back_steps = more(self.back_steps);
            }
            Err(Refusal::Dent { .. }) => {
                self.dents = more(self.dents);
            }
            Err(_) => {}
        }
        if !answer.agrees {
            self.mismatches = more(self.mismatches);
        }
    }

    // A closed walk from each of its corners.
    fn add_starts(&mut self, corners: &[u16], counted: Counted) {
        for first in 0..corners.len() {
            self.add_answer(compare::run(corners, first, counted));
        }
    }

    // A closed walk that was found. Each is found in both directions. It is counted if its first letter is 1.
    fn add_walk(&mut self, s: &Search) {
        if CORNERS <= s.depth {
            return;
        }
        let corners = &s.corners[..s.depth + 1];
        if walks::letter(s.corners[0], s.corners[1]) == 1 {
            self.walks = more(self.walks);
        }
        self.add_starts(corners, plain::count(corners));
    }

    // The closed walks whose lowest row's leftmost corner is `start`.
    fn add_search(&mut self, start: u16) {
        let mut s = walks::begin(start);
        for _ in 0..MOST_STEPS {
            match walks::step(&mut s) {
                Outcome::Closed => self.add_walk(&s),
                Outcome::Open => {}
                Outcome::Done => return,
            }
        }
    }
}

fn run_all() -> Tally {
    let mut t = Tally::default();
    for start in 0..CORNERS as u16 {
        t.add_search(start);
    }
    t
}

fn write_count(rt: &impl Print, name: &str, n: u64) -> io::Result<()> {
    println!(rt; "{name} {n}")
}

fn main(rt: HostRuntime) -> io::Result<()> {
    let t = run_all();
    write_count(&rt, "closed simple walks", t.walks)?;
    write_count(&rt, "outlines", t.outlines)?;
    write_count(&rt, "taken", t.taken)?;
    write_count(&rt, "refused by 8", t.back_steps)?;
    write_count(&rt, "refused by 9", t.dents)?;
    write_count(&rt, "mismatches", t.mismatches)
}
