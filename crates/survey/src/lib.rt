// Refusals 1 to 6: whether the letters are a simple closed walk on the chart; and its W, N, E and S.
#![tactic(auto)]

ghost use Rattle.std.specs.Prelude.{◌≡◌, false, IfErr, OnOk};
ghost use Rattle.chart.specs.Outline.{outline};
ghost use Rattle.lattice.specs.Refusals.{Stays, unclosed};
ghost use Rattle.survey.specs.Survey.{survey_of};
ghost use Rattle.survey_walk.specs.parts.Walks.{Begun, MetAt, Out};

use chart::{Point, Refusal};
use survey_walk::{Corners, Walk};

pub mod checks;

// Refusals 4 and 5 by a walk without marks, from the corner at a place on, with its number.
fn closes(start: Point, letters: &[u8], place: usize, number: u32) -> Result<(), Refusal>
    requires { Begun (outline start letters.now) × Out (outline start letters.now) place number }
    ensures refused { IfErr result (λ f. Err f ≡ survey_of (outline start letters.now)) }
    ensures closed { OnOk result (Stays (outline start letters.now) × (unclosed (outline start letters.now) ≡ false)) }
{
    match survey_walk::walk_on(letters, place, number) {
        Err(leaving) => Err(Refusal::OffChart {
            place: leaving as u16,
        }),
        Ok(end) => {
            if survey_walk::ends_away(start, end) {
                return Err(Refusal::NotClosed);
            }
            Ok(())
        }
    }
}

// The first of refusals 4, 5 and 6, for a walk that met one of its corners again.
fn touched(start: Point, letters: &[u8], place: usize, number: u32) -> Result<Corners, Refusal>
    requires { Begun (outline start letters.now) × MetAt (outline start letters.now) place number }
    ensures { result ≡ survey_of (outline start letters.now) }
{
    closes(start, letters, place, number)?;
    Err(Refusal::Touches {
        place: (place - 1) as u16,
    })
}

// Refusals 4, 5 and 6 and the corners, if 1, 2 and 3 do not apply, by a walk that marks every corner.
fn marked(start: Point, letters: &[u8]) -> Result<Corners, Refusal>
    requires { Begun (outline start letters.now) }
    ensures { result ≡ survey_of (outline start letters.now) }
{
    match survey_walk::along(start, letters) {
        Walk::Leaves { place } => Err(Refusal::OffChart {
            place: place as u16,
        }),
        Walk::Meets { place, number } => touched(start, letters, place, number),
        Walk::Round { end, corners } => {
            if survey_walk::ends_away(start, end) {
                return Err(Refusal::NotClosed);
            }
            Ok(corners)
        }
    }
}

// The same. If the steps do not add up to zero, a walk without marks comes first: it finds refusal 4 or 5.
fn walked(start: Point, letters: &[u8]) -> Result<Corners, Refusal>
    requires { Begun (outline start letters.now) }
    ensures { result ≡ survey_of (outline start letters.now) }
{
    if survey_walk::seems_open(letters) {
        closes(start, letters, 0, survey_walk::col_number(start))?;
    }
    marked(start, letters)
}

// The first of refusals 1 to 6 that applies (contract 5), or W, N, E and S.
pub fn survey(start: Point, letters: &[u8]) -> Result<Corners, Refusal>
    ensures { result ≡ survey_of (outline start letters.now) }
{
    if checks::bad_count(letters) {
        return Err(Refusal::Length);
    }
    if checks::bad_start(start) {
        return Err(Refusal::Start);
    }
    if let Some(place) = checks::letter_place(letters) {
        return Err(Refusal::Letter {
            place: place as u16,
        });
    }
    walked(start, letters)
}
