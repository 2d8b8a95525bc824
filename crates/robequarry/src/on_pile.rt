// The calls on a pile (contract 12.8 and 13.11). In C a pile is one struct of two arrays, and each function here takes
// both, or the rows only. Their lengths are part of their types.
ghost use Rattle.std.specs.Prelude.{◌≡◌};
ghost use Rattle.chart.specs.Outline.{at, outline};
ghost use Rattle.chart.specs.Fields.{fields_of};
ghost use Rattle.verdict.specs.Named.{CellNamed};
ghost use Rattle.pile_sections.specs.Meaning.{CheckedRuns, NoDent};
ghost use Rattle.pile_model.specs.Calls.{Set, SetEmpty, Check, Query, Restore};
ghost use Rattle.live_sections.specs.Layers.{layers_of};
ghost use Rattle.pile_calls.specs.Arrays.{arrays, fresh_pile};
ghost use Rattle.pile_written.specs.Written.{Done, StepsDone, CheckWritten, SaveWritten};

use chart::Point;
use chart::reply::NUMBERS as REPLY;
use pile_calls::{ROW_BYTES, STATE_NUMBERS};

// Makes the arrays a fresh pile, whatever they held.
#[unsafe(no_mangle)]
pub extern "C" fn rq_pile_fresh_parts(rows: &mut [u8; ROW_BYTES], state: &mut [u16; STATE_NUMBERS])
    ensures { arrays rows.new state.new ≡ fresh_pile }
{
    pile_calls::clear_all(rows, state);
}

// Sets a layer to an outline.
#[unsafe(no_mangle)]
pub extern "C" fn rq_pile_set_parts(
    rows: &mut [u8; ROW_BYTES],
    state: &mut [u16; STATE_NUMBERS],
    layer: u8,
    col: u16,
    row: u16,
    letters: &[u8],
    reply: &mut [u16; REPLY],
)
    ensures call { Done (arrays rows.old state.old) (arrays rows.new state.new)
        (Set layer (outline (at col row) letters.now)) reply.new }
    ensures cell { CellNamed (outline (at col row) letters.now) (fields_of reply.new) }
{
    pile_written::set(rows, state, layer, Point { col, row }, letters, reply);
}

// Sets a layer to empty.
#[unsafe(no_mangle)]
pub extern "C" fn rq_pile_empty_parts(
    rows: &mut [u8; ROW_BYTES],
    state: &mut [u16; STATE_NUMBERS],
    layer: u8,
    reply: &mut [u16; REPLY],
)
    ensures { Done (arrays rows.old state.old) (arrays rows.new state.new)
        (SetEmpty layer) reply.new }
{
    pile_written::set_empty(rows, state, layer, reply);
}

// Checks every section.
#[unsafe(no_mangle)]
pub extern "C" fn rq_pile_check_parts(
    rows: &[u8; ROW_BYTES],
    state: &mut [u16; STATE_NUMBERS],
    reply: &mut [u16; REPLY],
)
    ensures call { Done (arrays rows.now state.old) (arrays rows.now state.new)
        Check reply.new }
    ensures meaning { CheckWritten (CheckedRuns (layers_of rows.now)) (NoDent (layers_of rows.now))
        reply.new }
{
    pile_written::check(rows, state, reply);
}

// Some sections of a check: "more" while it goes on, else the reply of the whole check. With none it replies "more" and does nothing.
#[unsafe(no_mangle)]
pub extern "C" fn rq_pile_check_step_parts(
    rows: &[u8; ROW_BYTES],
    state: &mut [u16; STATE_NUMBERS],
    sections: u16,
    reply: &mut [u16; REPLY],
)
    ensures { StepsDone (arrays rows.now state.old) (arrays rows.now state.new)
        sections reply.new }
{
    pile_written::check_steps(rows, state, sections, reply);
}

// Whether a layer has a cell.
#[unsafe(no_mangle)]
pub extern "C" fn rq_pile_query_parts<'a>(
    rows: &'a [u8; ROW_BYTES],
    state: &'a [u16; STATE_NUMBERS],
    layer: u8,
    col: u16,
    row: u16,
    reply: &mut [u16; REPLY],
)
    ensures { Done (arrays rows.now state.now) (arrays rows.now state.now)
        (Query layer (at col row)) reply.new }
{
    pile_written::query(rows, state, layer, Point { col, row }, reply);
}

// Writes the image of a layer's outline, or of an empty layer, to the front of a buffer.
#[unsafe(no_mangle)]
pub extern "C" fn rq_pile_save_parts(
    rows: &[u8; ROW_BYTES],
    layer: u8,
    image: &mut [u8],
    reply: &mut [u16; REPLY],
)
    ensures { SaveWritten rows.now layer image.old image.new reply.new }
{
    pile_written::save(rows, layer, image, reply);
}

// Sets a layer to the outline of an image, or to empty.
#[unsafe(no_mangle)]
pub extern "C" fn rq_pile_restore_parts(
    rows: &mut [u8; ROW_BYTES],
    state: &mut [u16; STATE_NUMBERS],
    layer: u8,
    image: &[u8],
    reply: &mut [u16; REPLY],
)
    ensures { Done (arrays rows.old state.old) (arrays rows.new state.new)
        (Restore layer image.now) reply.new }
{
    pile_written::restore(rows, state, layer, image, reply);
}
