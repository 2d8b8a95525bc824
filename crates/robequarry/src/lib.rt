// The calls for C (include/robequarry.h). A list is passed as a pointer and a length, an array as a pointer. A
// reply is an array of seven numbers: number, word (contract 4.3), place, piece, length, column, row. A holder
// and a pile are passed as their arrays, to the functions of `on_holder` and `on_pile`.
#![tactic(auto)]

ghost use Rattle.std.specs.Prelude.{◌≡◌, length};
ghost use Rattle.chart.specs.Fields.{numbers_of, fields_of, position_fields, comparison_fields};
ghost use Rattle.chart.specs.Outline.{at, outline};
ghost use Rattle.verdict.specs.Verdict.{test_fields, edges_after};
ghost use Rattle.verdict.specs.Named.{CellNamed};
ghost use Rattle.polygon.specs.Loose.{loose_of, HullNamed};
ghost use Rattle.calls.specs.Replies.{reply_fields};
ghost use Rattle.loose_reading.specs.Read.{loose_reading_of, ReadingNamed};
ghost use Rattle.border_model.specs.Traced.{traced_of, traced_fields, letters_after};
ghost use Rattle.border_model.specs.Named.{BorderNamed};
ghost use Rattle.completion_call.specs.Completion.{completed_of, completed_fields, completion_after};
ghost use Rattle.completion_call.specs.Named.{CompletionNamed};
ghost use Rattle.nesting.specs.Cells.{polygon};
ghost use Rattle.comparison.specs.Compared.{comparison_of, CellsNamed};
ghost use Rattle.witness.specs.Witnessed.{witnessed_of, witnessed_fields, cells_after};
ghost use Rattle.witness.specs.Named.{WitnessNamed};
ghost use Rattle.library_version.specs.Version.{version};
ghost use Rattle.checksum.specs.Checksum.{checksum};
ghost use Rattle.frames.specs.Frame.{framed_fields, frame_after, unframed_fields, body_after};
ghost use Rattle.replay.specs.Script.{calls_read, replies_after};

use border_model::written::of_traced;
use chart::reply::{NUMBERS, put};
use chart::{Fields, Point};
use completion_call::written::of_completed;
use witness::written::of_witnessed;

pub mod on_holder;
pub mod on_pile;

// The version of the library.
#[unsafe(no_mangle)]
pub extern "C" fn rq_version() -> u32
    ensures { result ≡ version }
{
    library_version::number()
}

// Tests an outline: the start corner and the letters. If it is taken, its edges stand first in the buffer.
#[unsafe(no_mangle)]
pub extern "C" fn rq_test(
    col: u16,
    row: u16,
    letters: &[u8],
    edges: &mut [i16],
    reply: &mut [u16; NUMBERS],
)
    ensures reply { reply.new
        ≡ numbers_of (test_fields (outline (at col row) letters.now) (length edges.old)) }
    ensures edges { edges.new ≡ edges_after (outline (at col row) letters.now) edges.old }
    ensures cell { CellNamed (outline (at col row) letters.now) (fields_of reply.new) }
{
    let verdict = outline::test(Point { col, row }, letters, edges);
    put(Fields::from(verdict), reply);
}

// Whether a cell lies inside an anchor and edges.
#[unsafe(no_mangle)]
pub extern "C" fn rq_loose_query(
    anchor_col: u16,
    anchor_row: u16,
    edges: &[i16],
    col: u16,
    row: u16,
    reply: &mut [u16; NUMBERS],
)
    ensures reply { reply.new
        ≡ numbers_of (position_fields (loose_of (at anchor_col anchor_row) edges.now (at col row))) }
    ensures hull { HullNamed (at anchor_col anchor_row) edges.now (at col row) (fields_of reply.new) }
{
    let anchor = Point {
        col: anchor_col,
        row: anchor_row,
    };
    let position = polygon::loose_query(anchor, edges, Point { col, row });
    put(Fields::from(position), reply);
}

// Where a reading lies among an anchor and edges.
#[unsafe(no_mangle)]
pub extern "C" fn rq_loose_reading(
    anchor_col: u16,
    anchor_row: u16,
    edges: &[i16],
    angle: f32,
    load: f32,
    reply: &mut [u16; NUMBERS],
)
    ensures reply { reply.new
        ≡ numbers_of (reply_fields (loose_reading_of (at anchor_col anchor_row) edges.now
        (record { angle = angle; load = load }))) }
    ensures named { ReadingNamed (at anchor_col anchor_row) edges.now (record { angle = angle; load = load })
        (fields_of reply.new) }
{
    let anchor = Point {
        col: anchor_col,
        row: anchor_row,
    };
    loose_reading::read(anchor, edges, angle, load, reply);
}

// Writes the border of an anchor and edges. The letters, clockwise from W, stand first in the buffer.
#[unsafe(no_mangle)]
pub extern "C" fn rq_border(
    anchor_col: u16,
    anchor_row: u16,
    edges: &[i16],
    letters: &mut [u8],
    reply: &mut [u16; NUMBERS],
)
    ensures reply { reply.new
        ≡ numbers_of (traced_fields (traced_of (at anchor_col anchor_row) edges.now (length letters.old))) }
    ensures letters { letters.new
        ≡ letters_after (at anchor_col anchor_row) edges.now letters.old }
    ensures outline { BorderNamed (at anchor_col anchor_row) edges.now (fields_of reply.new)
        letters.old letters.new }
{
    let anchor = Point {
        col: anchor_col,
        row: anchor_row,
    };
    let traced = border::border(anchor, edges, letters);
    put(of_traced(traced), reply);
}

// Compares two lists of edges, each with its anchor: how the cells in their hulls lie, and which list is the inner one's.
#[unsafe(no_mangle)]
pub extern "C" fn rq_compare(
    anchor_col_1: u16,
    anchor_row_1: u16,
    edges_1: &[i16],
    anchor_col_2: u16,
    anchor_row_2: u16,
    edges_2: &[i16],
    reply: &mut [u16; NUMBERS],
)
    ensures reply { reply.new
        ≡ numbers_of (comparison_fields (comparison_of (at anchor_col_1 anchor_row_1) edges_1.now
        (at anchor_col_2 anchor_row_2) edges_2.now)) }
    ensures cells { CellsNamed (polygon (at anchor_col_1 anchor_row_1) edges_1.now)
        (polygon (at anchor_col_2 anchor_row_2) edges_2.now) (fields_of reply.new) }
{
    let first = Point {
        col: anchor_col_1,
        row: anchor_row_1,
    };
    let second = Point {
        col: anchor_col_2,
        row: anchor_row_2,
    };
    let comparison = comparison::relate(first, edges_1, second, edges_2);
    put(Fields::from(comparison), reply);
}

// Finds the lowest missing cell of an outline. Three enclosed cells whose triangle has it stand first in the buffer, two numbers each.
#[unsafe(no_mangle)]
pub extern "C" fn rq_witness(
    col: u16,
    row: u16,
    letters: &[u8],
    cells: &mut [u16],
    reply: &mut [u16; NUMBERS],
)
    ensures reply { reply.new
        ≡ numbers_of (witnessed_fields (witnessed_of (outline (at col row) letters.now) (length cells.old))) }
    ensures cells { cells.new ≡ cells_after (outline (at col row) letters.now) cells.old }
    ensures named { WitnessNamed (outline (at col row) letters.now) (fields_of reply.new) cells.old
        cells.new }
{
    let witnessed = witness_call::witness(Point { col, row }, letters, cells);
    put(of_witnessed(witnessed), reply);
}

// Completes an outline. The letters round the hull of its cells, clockwise from W, stand first in the buffer.
#[unsafe(no_mangle)]
pub extern "C" fn rq_complete(
    col: u16,
    row: u16,
    letters: &[u8],
    out: &mut [u8],
    reply: &mut [u16; NUMBERS],
)
    ensures reply { reply.new
        ≡ numbers_of (completed_fields (completed_of (outline (at col row) letters.now) (length out.old))) }
    ensures letters { out.new ≡ completion_after (outline (at col row) letters.now) out.old }
    ensures cells { CompletionNamed (outline (at col row) letters.now) (fields_of reply.new)
        out.old out.new }
{
    let completed = completion_call::complete(Point { col, row }, letters, out);
    put(of_completed(completed), reply);
}

// The checksum of a list of bytes (contract 13.2).
#[unsafe(no_mangle)]
pub extern "C" fn rq_checksum(bytes: &[u8]) -> u32
    ensures { result ≡ checksum bytes.now }
{
    checksum::of(bytes)
}

// Writes the frame of a body to the front of the buffer (contract 14.2).
#[unsafe(no_mangle)]
pub extern "C" fn rq_frame(body: &[u8], frame: &mut [u8], reply: &mut [u16; NUMBERS])
    ensures reply { reply.new ≡ numbers_of (framed_fields body.now (length frame.old)) }
    ensures frame { frame.new ≡ frame_after body.now frame.old }
{
    frames::frame(body, frame, reply);
}

// Writes the body of a frame to the front of the buffer (contract 14.3).
#[unsafe(no_mangle)]
pub extern "C" fn rq_unframe(frame: &[u8], body: &mut [u8], reply: &mut [u16; NUMBERS])
    ensures reply { reply.new ≡ numbers_of (unframed_fields frame.now (length body.old)) }
    ensures body { body.new ≡ body_after frame.now body.old }
{
    frames::unframe(frame, body, reply);
}

// Runs a script of calls, eleven bytes each, on a fresh holder, writes a reply of seven numbers for each, and returns how many.
#[unsafe(no_mangle)]
pub extern "C" fn rq_replay_numbers(script: &[u8], replies: &mut [u16]) -> usize
    ensures count { result ≡ length (calls_read script.now (length replies.old)) }
    ensures replies { replies.new ≡ replies_after script.now replies.old }
{
    replay::replay(script, replies)
}
