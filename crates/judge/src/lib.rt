// The judgement of an outline: refusals 1 to 6 by the survey, then 8 and 9 on the four pieces of the border, or its edges.
#![tactic(auto)]

ghost use Rattle.std.specs.Prelude.{◌*◌, ◌≤◌, ◌<◌, ◌≡◌, false, length, ltb};
ghost use Rattle.chart.specs.Limits.{longest};
ghost use Rattle.chart.specs.Outline.{outline};
ghost use Rattle.lattice.specs.Refusals.{Simple};
ghost use Rattle.convexity.specs.Pieces.{back_step_piece};
ghost use Rattle.survey_walk.specs.Corners.{corners_of};
ghost use Rattle.verdict.specs.Verdict.{verdict_of, edges_after};
ghost use Rattle.clockwise_copy.specs.parts.ClockwiseCopy.{SentTo};
ghost use Rattle.judge.specs.parts.Round.{border_of, RoundOf, dent_as};
ghost use Rattle.judge.specs.Judged.{judged_of};
ghost use Rattle.judge.specs.parts.Outcome.{Written, OutcomeOfRound, OutcomeOfBorder};

use chart::{LONGEST, MOST_NUMBERS, Point, Refusal, Taken};
use cut_places::Cuts;
use dents::Dent;
use survey_walk::Corners;

// Copies a list to the front of the buffer if the buffer has room for it. Otherwise it is left alone.
fn write_edges(list: &[i16], buffer: &mut [i16])
    ensures { Written list.now (length list.now) buffer.old buffer.new }
{
    let n = list.len();
    if n <= buffer.len() {
        buffer[..n].copy_from_slice(list);
    }
}

// A border: its letters, which way the outline is read and the cut places, the place of W's letter in the clockwise form, the corner W, the
// rows of S and N.
#[derive(Clone, Copy)]
struct Round<'a> {
    letters: &'a [u8],
    cuts: Cuts,
    place: usize,
    west: Point,
    bottom: u16,
    top: u16,
}

impl Round<'_> {
    // A letter of the border as a place of the list as sent.
    fn sent(self, at: usize) -> u16
        ensures { SentTo self.entry.cuts.forward (length self.entry.letters.now) self.entry.place at result }
    {
        clockwise_copy::sent(self.letters.len(), self.place, self.cuts.forward, at) as u16
    }

    // Refusal 9.
    fn dent(self, dent: Dent) -> Refusal
        requires round_of { RoundOf self (border_of self) }
        requires piece_bound { (dent.piece < 4) × (dent.at ≤ 4 * longest) × (dent.length ≤ 4 * longest) }
        ensures { result ≡ dent_as self.entry.cuts.forward self.entry.place (border_of self.entry) dent.piece dent.at dent.length }
    {
        Refusal::Dent {
            piece: (dent.piece + 1) as u16,
            place: self.sent(dent.at),
            length: dent.length as u16,
            cell: rows::missing_cell(self.west, self.letters, self.bottom, self.top),
        }
    }

    // Refusal 9 or the edges, for a border without back-steps.
    fn edges(self, buffer: &mut [i16]) -> Result<Taken, Refusal>
        requires round_of { RoundOf self (border_of self) }
        requires letters_value { ltb (back_step_piece (border_of self)) 4 ≡ false }
        ensures { OutcomeOfRound self.entry.cuts.forward self.entry.place (border_of self.entry) buffer.old buffer.new result }
    {
        let mut numbers = [0i16; MOST_NUMBERS];
        match dents::read(self.cuts, self.letters, &mut numbers) {
            Ok(edges) => {
                write_edges(&numbers[..2 * edges], buffer);
                Ok(Taken {
                    edges: edges as u16,
                    anchor: self.west,
                })
            }
            Err(dent) => Err(self.dent(dent)),
        }
    }

    // Refusals 8 and 9 or the edges.
    fn judged(self, buffer: &mut [i16]) -> Result<Taken, Refusal>
        requires { RoundOf self (border_of self) }
        ensures { OutcomeOfRound self.entry.cuts.forward self.entry.place (border_of self.entry) buffer.old buffer.new result }
    {
        match back_steps::first(self.cuts, self.letters) {
            Some(step) => Err(Refusal::BackStep {
                piece: (step.piece + 1) as u16,
                place: self.sent(step.at),
            }),
            None => self.edges(buffer),
        }
    }
}

// The same for an outline that passes refusals 1 to 6, with its corners. Its border is copied first. It is no part of its callers, so that
// its arrays and those of the survey are never on the stack at once.
#[inline(never)]
fn read(start: Point, letters: &[u8], found: Corners, buffer: &mut [i16]) -> Result<Taken, Refusal>
    requires simple { Simple (outline start letters.now) }
    requires found_value { found ≡ corners_of (outline start letters.now) }
    ensures { OutcomeOfBorder (outline start letters.now) buffer.old buffer.new result }
{
    let count = letters.len();
    let cuts = cut_places::cut_places(letters, found);
    let place = clockwise_copy::read_place(count, found.west, cuts.forward);
    let mut ring = [0u8; LONGEST];
    clockwise_copy::fill_round(letters, found.west, cuts.forward, &mut ring);
    let round = Round {
        letters: &ring[..count],
        cuts,
        place,
        west: found.corner,
        bottom: found.bottom,
        top: found.top,
    };
    round.judged(buffer)
}

// The first of refusals 1 to 9 that applies, or the edges (contract 5 and 3.12), which are written to the front of the buffer. The buffer
// is left alone if it has no room for them, and if the outline is refused.
pub fn judge(start: Point, letters: &[u8], buffer: &mut [i16]) -> Result<Taken, Refusal>
    ensures value { result ≡ verdict_of (outline start letters.now) }
    ensures buffer_after { buffer.new ≡ edges_after (outline start letters.now) buffer.old }
{
    let found = survey::survey(start, letters)?;
    read(start, letters, found, buffer)
}

// The verdict alone.
pub fn verdict_of(start: Point, letters: &[u8]) -> Result<Taken, Refusal>
    ensures { result ≡ verdict_of (outline start letters.now) }
{
    let mut none = [0i16; 0];
    judge(start, letters, &mut none)
}

// The verdict, and the edges, two numbers each, with zeros after them. They are all zeros if the outline is refused.
#[derive(Clone, Copy)]
pub struct Judged {
    pub verdict: Result<Taken, Refusal>,
    pub numbers: [i16; MOST_NUMBERS],
}

// Verdict and edges as one value.
pub fn judgement(start: Point, letters: &[u8]) -> Judged
    ensures { result ≡ judged_of (outline start letters.now) }
{
    let mut list = [0i16; MOST_NUMBERS];
    let verdict = judge(start, letters, &mut list);
    Judged {
        verdict,
        numbers: list,
    }
}
