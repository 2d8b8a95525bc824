// The witness call: refusals 1 to 6 and 10, then the lowest missing cell and three enclosed cells whose triangle has it (contract 6.5).
#![tactic(auto)]

ghost use Rattle.std.specs.Prelude.{◌≤◌, ◌≡◌, ◌++◌, length, drop};
ghost use Rattle.chart.specs.Outline.{outline};
ghost use Rattle.lattice.specs.Refusals.{Simple};
ghost use Rattle.witness.specs.Gap.{witness_of};
ghost use Rattle.witness.specs.Witnessed.{six_numbers, shown_in, witnessed_of, witnessed_fields, three_numbers, shown_after, cells_after};
ghost use Rattle.witness.specs.Named.{WitnessNamed};

use chart::{Point, Refusal};

// Three cells have six numbers.
const SIX: usize = 6;

// Writes three cells to the front of the buffer.
fn put(a: Point, b: Point, d: Point, cells: &mut [u16])
    requires { six_numbers ≤ length cells.old }
    ensures { cells.new ≡ three_numbers (record { a = a; b = b; d = d }) ++ drop six_numbers cells.old }
{
    cells[..SIX].copy_from_slice(&[a.col, a.row, b.col, b.row, d.col, d.row]);
}

// For an outline that passes 1 to 6: 10, the lowest missing cell, or none.
fn show(start: Point, letters: &[u8], cells: &mut [u16]) -> Result<Option<Point>, Refusal>
    requires { Simple (outline start letters.now) }
    ensures answer { result ≡ shown_in (length cells.old) (outline start letters.now) }
    ensures cells { cells.new
        ≡ shown_after (shown_in (length cells.old) (outline start letters.now))
        (witness_of (outline start letters.now)) cells.old }
{
    if cells.len() < SIX {
        return Err(Refusal::EdgeList { edges: 0 });
    }
    let Some(shown) = witness_search::find(start, letters) else {
        return Ok(None);
    };
    put(shown.a, shown.b, shown.d, cells);
    Ok(Some(shown.cell))
}

// Finds the lowest missing cell of an outline and writes three enclosed cells whose triangle has it to the front of the buffer.
// If no cell is missing, or the call is refused, the buffer is unchanged.
pub fn witness(start: Point, letters: &[u8], cells: &mut [u16]) -> Result<Option<Point>, Refusal>
    ensures answer { result ≡ witnessed_of (outline start letters.now) (length cells.old) }
    ensures cells { cells.new ≡ cells_after (outline start letters.now) cells.old }
    ensures named { WitnessNamed (outline start letters.now) (witnessed_fields result) cells.old
        cells.new }
{
    survey::survey(start, letters)?;
    show(start, letters, cells)
}
