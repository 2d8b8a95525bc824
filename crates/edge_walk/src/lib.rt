// The walk along edges, from corner cell to corner cell. A corner cell may be off the chart.
#![tactic(auto)]

ghost use Rattle.std.specs.Prelude.{◌≡◌, true, ◌+ℤ◌};
ghost use Rattle.std.specs.Int.{w32};
ghost use Rattle.std.proofs.Common.{SFits};
ghost use Rattle.directions.specs.CornerHull.{chart_number, is_on_chart};
ghost use Rattle.edge_walk.specs.parts.Walk.{started, stepped, cell_at};

use chart::{Point, SIDE};

// The last column and the last row.
const LAST: u16 = SIDE - 1;

// A corner cell, on the chart or off it.
#[derive(Clone, Copy)]
pub struct Corner {
    pub col: i32,
    pub row: i32,
}

// The corner cell where the walk from an anchor starts.
pub fn start(anchor: Point) -> Corner
    ensures { result ≡ started anchor }
{
    Corner {
        col: i32::from(anchor.col),
        row: i32::from(anchor.row),
    }
}

// The corner cell at the end of the edge (dx, dy). The caller shows that the sums fit.
pub fn further(at: Corner, dx: i16, dy: i16) -> Corner
    requires { SFits w32 (at.col +ℤ dx) × SFits w32 (at.row +ℤ dy) }
    ensures { result ≡ stepped at dx dy }
{
    Corner {
        col: at.col + i32::from(dx),
        row: at.row + i32::from(dy),
    }
}

// A column or a row of the chart.
#[tactic(auto, unfolding(directions::specs::CornerHull::chart_number))]
fn chart_number(z: i32) -> bool
    ensures { result ≡ chart_number z }
{
    (0 <= z) & (z <= i32::from(LAST))
}

// The corner cell is on the chart.
#[tactic(auto, unfolding(directions::specs::CornerHull::is_on_chart))]
pub fn on_chart(at: Corner) -> bool
    ensures { result ≡ is_on_chart at.col at.row }
{
    chart_number(at.col) & chart_number(at.row)
}

// A corner cell on the chart, as a cell.
pub fn cell(at: Corner) -> Point
    requires { is_on_chart at.col at.row ≡ true }
    ensures { result ≡ cell_at at }
{
    Point {
        col: at.col as u16,
        row: at.row as u16,
    }
}
