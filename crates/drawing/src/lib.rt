// The drawing of a polygon of edges, one path command at a time, as the tablet's canvas takes it.
#![tactic(auto)]

ghost use Rattle.std.specs.Prelude.{◌≡◌};
ghost use Rattle.drawing.specs.Drawing.{line_to, stroke_at};
ghost use Rattle.drawing.specs.Points.{half as half_of, piece_of, cell_in, drawn_reply, pair_after, point_after};

use calls::{Answer, Piece};
use chart::{Point, Refusal};
use edge_walk::Corner;

// One path command, by the cell whose centre is its point.
#[derive(Clone, Copy)]
pub enum Stroke {
    Move(Point),
    Line(Point),
    Close,
}

// A line to a cell of the chart, and nothing for a cell off the chart.
#[tactic(auto, unfolding(crate::specs::Drawing::line_to))]
fn line_to(at: Corner) -> Option<Stroke>
    ensures { result ≡ line_to at.col at.row }
{
    if edge_walk::on_chart(at) {
        return Some(Stroke::Line(edge_walk::cell(at)));
    }
    None
}

// The path command at a position of the drawing of an anchor and a list of edges: a line for each edge but the last, and a close.
// Past the close there is none.
// A position has 16 bits, so the walk to it takes at most 65,535 edges. Corner cells are counted from 1 and the last edge is not walked: no
// plainer over the edges in chunks.
fn stroke_at(anchor: Point, edges: &[i16], position: u16) -> Option<Stroke>
    ensures { result ≡ stroke_at anchor edges.now position }
{
    if position == 0 {
        return Some(Stroke::Move(anchor));
    }
    let wanted = usize::from(position);
    let count = edges.len() / 2;
    let mut at = edge_walk::start(anchor);
    for i in 1..count {
        let k = 2 * i - 2;
        at = edge_walk::further(at, edges[k], edges[k + 1]);
        if i == wanted {
            return line_to(at);
        }
    }
    if wanted == count.max(1) {
        Some(Stroke::Close)
    } else {
        None
    }
}

// A column or a row, raised by one half.
fn half(n: u16) -> f32
    ensures { result ≡ half_of n }
{
    (n as f32) + 0.5
}

// A path command with its point.
#[tactic(auto, unfolding(crate::specs::Points::piece_of))]
fn piece_of(stroke: Stroke) -> Piece
    ensures { result ≡ piece_of stroke }
{
    match stroke {
        Stroke::Move(cell) => Piece::Move(half(cell.col), half(cell.row)),
        Stroke::Line(cell) => Piece::Line(half(cell.col), half(cell.row)),
        Stroke::Close => Piece::Close,
    }
}

// The cell of a move or a line. A close has (0, 0).
#[tactic(auto, unfolding(crate::specs::Points::cell_in))]
fn cell_in(stroke: Stroke) -> Point
    ensures { result ≡ cell_in stroke }
{
    match stroke {
        Stroke::Move(cell) => cell,
        Stroke::Line(cell) => cell,
        Stroke::Close => Point { col: 0, row: 0 },
    }
}

// The reply of the piece call for a position: the path command with its point, and the point's cell.
#[tactic(auto, unfolding(crate::specs::Points::drawn_reply))]
pub fn drawn_at(anchor: Point, edges: &[i16], position: u16) -> Result<Answer, Refusal>
    ensures { result ≡ drawn_reply (stroke_at anchor edges.now position) }
{
    match stroke_at(anchor, edges, position) {
        Some(stroke) => Ok(Answer::Drawn {
            piece: Some(piece_of(stroke)),
            cell: cell_in(stroke),
        }),
        None => Ok(Answer::Drawn {
            piece: None,
            cell: Point { col: 0, row: 0 },
        }),
    }
}

// Writes two numbers to the front of a buffer that has room for them. By the slice pattern `[first, second, ..]` the check loses what the
// buffer holds after the two stores, so they go by index.
fn write_pair(x: f32, y: f32, point: &mut [f32])
    ensures { point.new ≡ pair_after x y point.old }
{
    if point.len() < 2 {
        return;
    }
    point[0] = x;
    point[1] = y;
}

// Writes the point of a path command to the front of a buffer. A command without a point leaves the buffer unchanged.
#[tactic(auto, unfolding(crate::specs::Points::point_after))]
pub fn write_point(piece: Option<Piece>, point: &mut [f32])
    ensures { point.new ≡ point_after piece point.old }
{
    match piece {
        Some(Piece::Move(x, y)) => write_pair(x, y, point),
        Some(Piece::Line(x, y)) => write_pair(x, y, point),
        Some(Piece::Close) => {}
        None => {}
    }
}
