// Writes the border of an anchor and edges (contract 6.3). The letters are built in a local array, tested, and then copied to the buffer.
#![tactic(auto)]

ghost use Rattle.std.specs.Prelude.{◌+◌, ◌≤◌, ◌≡◌, false, length};
ghost use Rattle.chart.specs.Limits.{longest_list};
ghost use Rattle.chart.specs.Outline.{outline};
ghost use Rattle.convexity.specs.Edges.{pairs};
ghost use Rattle.convexity.specs.FromEdges.{step_count};
ghost use Rattle.directions.specs.Increasing.{bad_directions};
ghost use Rattle.polygon.specs.Loose.{bad_list, bad_cell};
ghost use Rattle.border_model.specs.Outlined.{taken_as};
ghost use Rattle.border_model.specs.Traced.{traced_of, traced_fields, letters_after};
ghost use Rattle.border_model.specs.Named.{BorderNamed, Answers};

use chart::{LONGEST, MOST_NUMBERS, Point, Refusal};
use equality::same_edges;
use polygon::{bad_cell, bad_directions, bad_list};

mod direction;
mod writer;

// How many letters the edges give: one for each column and row, and the first letter of each piece.
fn count(edges: &[i16]) -> usize
    requires { length edges.now ≤ longest_list }
    ensures { result ≡ 4 + step_count (pairs edges.now) }
{
    let mut letters = 4;
    let (list, _) = edges.as_chunks::<2>();
    for &[dx, dy] in list {
        letters += direction::size(dx) + direction::size(dy);
    }
    letters
}

// Whether the letters, started at the anchor's corner, are an outline that is taken with this anchor and these edges.
fn taken_as(anchor: Point, letters: &[u8], edges: &[i16]) -> bool
    ensures { result ≡ taken_as (outline anchor letters.now) anchor edges.now }
{
    let mut numbers = [0i16; MOST_NUMBERS];
    match outline::test(anchor, letters, &mut numbers) {
        Err(_) => false,
        Ok(taken) => {
            let n = 2 * usize::from(taken.edges);
            same_edges(taken.anchor, &numbers[..n], anchor, edges)
        }
    }
}

// Checks 17 and 18 for edges that pass 10, 11 and 16, or writes the letters.
fn trace(anchor: Point, edges: &[i16], letters: &mut [u8]) -> Result<u16, Refusal>
    requires { (bad_list edges.now ≡ false) × (bad_cell anchor ≡ false) × (bad_directions edges.now ≡ false) }
    ensures { Answers anchor edges.now letters.old letters.new result }
{
    let n = count(edges);
    if LONGEST < n {
        return Err(Refusal::NoOutline);
    }
    let mut list = [0u8; LONGEST];
    writer::build(edges, &mut list);
    if !taken_as(anchor, &list[..n], edges) {
        return Err(Refusal::NoOutline);
    }
    if letters.len() < n {
        return Err(Refusal::LetterBuffer);
    }
    letters[..n].copy_from_slice(&list[..n]);
    Ok(n as u16)
}

// Writes the border, from W, of the outline that has this anchor and these edges, and returns the count of its letters.
pub fn border(anchor: Point, edges: &[i16], letters: &mut [u8]) -> Result<u16, Refusal>
    ensures answer { result ≡ traced_of anchor edges.now (length letters.old) }
    ensures letters { letters.new ≡ letters_after anchor edges.now letters.old }
    ensures outline { BorderNamed anchor edges.now (traced_fields result) letters.old letters.new }
{
    if bad_list(edges) {
        return Err(Refusal::EdgeList { edges: 0 });
    }
    if bad_cell(anchor) {
        return Err(Refusal::Cell);
    }
    if bad_directions(edges) {
        return Err(Refusal::Directions);
    }
    trace(anchor, edges, letters)
}
