// One walk along the letters as sent, for refusals 4, 5 and 6 and for W, N, E and S. The current corner is two numbers, by columns and by
// rows, with its place in both. The corners met are a set of numbers. The least and the greatest number of either kind are kept.
#![tactic(auto)]

ghost use Rattle.std.specs.Prelude.{◌≡◌, ◌+◌, ◌*◌, ◌/◌, ◌%◌, ◌≤◌, not, ◌==◌};
ghost use Rattle.chart.specs.Limits.{side};
ghost use Rattle.chart.specs.declared.Point.{Point};
ghost use Rattle.chart.specs.Outline.{outline};
ghost use Rattle.survey_walk.specs.parts.Numbers.{col_number, col_stride, off_chart, row_number, row_stride};
ghost use Rattle.survey_walk.specs.parts.Numbers.{corners_from};
ghost use Rattle.survey_walk.specs.parts.Walks.{Begun, Out, RestOf, WalkedAs};

use chart::{Point, SIDE};
use flags::Flags;

// The places of the letters that leave W, N, E and S, the corner W, and the rows of S and N.
#[derive(Clone, Copy)]
pub struct Corners {
    pub west: usize,
    pub north: usize,
    pub east: usize,
    pub south: usize,
    pub corner: Point,
    pub bottom: u16,
    pub top: u16,
}

// A number by columns is column, row and place: ten bits for the place, ten for the row.
const ROW_UNIT: u32 = 1024;

const COL_UNIT: u32 = 1048576;

// The last row and the last column of corners.
const LAST: u32 = SIDE as u32;

// As many rows as a number by columns tells apart.
const ROWS: u32 = 1024;

// A number by rows is row from the top, column and place: sixteen bits for the place, eight for the column.
const CORNER_UNIT: u32 = 65536;

const LEVEL_UNIT: u32 = 16777216;

// What a letter adds to a number by columns, modulo 2^32: a step, and one to the place.
const COL_RIGHT: u32 = COL_UNIT + 1;

const COL_UP: u32 = ROW_UNIT + 1;

const COL_LEFT: u32 = 4294967295 - COL_UNIT + 2;

const COL_DOWN: u32 = 4294967295 - ROW_UNIT + 2;

// The same for a number by rows.
const ROW_RIGHT: u32 = CORNER_UNIT + 1;

const ROW_UP: u32 = 4294967295 - LEVEL_UNIT + 2;

const ROW_LEFT: u32 = 4294967295 - CORNER_UNIT + 2;

const ROW_DOWN: u32 = LEVEL_UNIT + 1;

// The numbers of the corner at which a walk begins.
pub fn col_number(p: Point) -> u32
    requires { (p.col ≤ side) × (p.row ≤ side) }
    ensures { result ≡ col_number p 0 }
{
    u32::from(p.col) * COL_UNIT + u32::from(p.row) * ROW_UNIT
}

fn row_number(p: Point) -> u32
    requires { (p.col ≤ side) × (p.row ≤ side) }
    ensures { result ≡ row_number p 0 }
{
    u32::from(SIDE - p.row) * LEVEL_UNIT + u32::from(p.col) * CORNER_UNIT
}

// What a letter adds to the number by columns and to the number by rows.
#[derive(Clone, Copy)]
struct Strides {
    col: u32,
    row: u32,
}

// The strides of a letter. Both numbers come from one match: two of them become a jump for each letter, which processors guess wrong.
fn stride(letter: u8) -> Strides
    ensures { (result.col ≡ col_stride (letter % 4)) × (result.row ≡ row_stride (letter % 4)) }
{
    let (col, row) = match letter % 4 {
        0 => (COL_RIGHT, ROW_RIGHT),
        1 => (COL_UP, ROW_UP),
        2 => (COL_LEFT, ROW_LEFT),
        _ => (COL_DOWN, ROW_DOWN),
    };
    Strides { col, row }
}

// Off the chart the row or the column is above 255; one below 0 wraps.
fn is_off_chart(number: u32) -> bool
    ensures { result ≡ off_chart number }
{
    (LAST < number / ROW_UNIT % ROWS) | (LAST < number / COL_UNIT)
}

// W, N, E and S from their numbers.
fn corners_from(west: u32, north: u32, east: u32, south: u32) -> Corners
    ensures { result ≡ corners_from west north east south }
{
    Corners {
        west: (west % ROW_UNIT) as usize,
        north: (north % CORNER_UNIT) as usize,
        east: (east % ROW_UNIT) as usize,
        south: (south % CORNER_UNIT) as usize,
        corner: Point {
            col: (west / COL_UNIT) as u16,
            row: (west / ROW_UNIT % ROWS) as u16,
        },
        bottom: SIDE - (south / LEVEL_UNIT % 256) as u16,
        top: SIDE - (north / LEVEL_UNIT % 256) as u16,
    }
}

// How a walk ends.
#[derive(Clone, Copy)]
pub enum Walk {
    // The letter at this place leaves the chart.
    Leaves { place: usize },
    // The corner at this place, with this number, was met before: the rest is not walked.
    Meets { place: usize, number: u32 },
    // No corner was met again. The walk ends at the corner with this number.
    Round { end: u32, corners: Corners },
}

// Refusals 4 and 6, the end of the walk for 5, and the corners, if 1, 2 and 3 do not apply.
pub fn along(s: Point, w: &[u8]) -> Walk
    requires { Begun (outline s w.now) }
    ensures { WalkedAs (outline s w.now) result }
{
    let mut met = Flags::none();
    let mut by_col = col_number(s);
    let mut by_row = row_number(s);
    let mut west = by_col;
    let mut north = by_row;
    let mut east = by_col;
    let mut south = by_row;
    // A place of 32 bits: one of 64 takes a controller more instructions for each letter.
    for i in 0..w.len() as u32 {
        let place = i as usize;
        if met.mark((by_row / CORNER_UNIT) as usize) {
            return Walk::Meets {
                place,
                number: by_col,
            };
        }
        west = west.min(by_col);
        north = north.min(by_row);
        east = east.max(by_col);
        south = south.max(by_row);
        let step = stride(w[place]);
        by_col = by_col.wrapping_add(step.col);
        by_row = by_row.wrapping_add(step.row);
        if is_off_chart(by_col) {
            return Walk::Leaves { place };
        }
    }
    Walk::Round {
        end: by_col,
        corners: corners_from(west, north, east, south),
    }
}

// Refusal 4 and the end of the walk, without marks, from the corner at a place on, with its number: the number of the last corner, or the
// place of the first letter that leaves the chart.
pub fn walk_on(w: &[u8], from: usize, number: u32) -> Result<u32, usize>
    ensures { (s : Point) → Begun (outline s w.now) → Out (outline s w.now) from number
        → RestOf (outline s w.now) result }
{
    let mut by_col = number;
    for place in from..w.len() {
        by_col = by_col.wrapping_add(stride(w[place]).col);
        if is_off_chart(by_col) {
            return Err(place);
        }
    }
    Ok(by_col)
}

// 5. The walk ends at another corner than its start.
pub fn ends_away(s: Point, end: u32) -> bool
    ensures { result ≡ not (end / 1024 == s.col * 1024 + s.row) }
{
    end / ROW_UNIT != u32::from(s.col) * ROWS + u32::from(s.row)
}

// Whether the steps of the letters do not add up to zero, modulo 128. If they do, rights and ups are half of the letters, and so are ups
// and lefts. This is a hint: it only decides which walk comes first, so nothing is promised. The loop is vectorised.
pub fn seems_open(w: &[u8]) -> bool {
    let mut back = 0u8;
    let mut middle = 0u8;
    for letter in w {
        back = back.wrapping_add(*letter & 2);
        middle = middle.wrapping_add(letter.wrapping_add(1) & 2);
    }
    let count = (w.len() % 256) as u8;
    (back != count) | (middle != count)
}
