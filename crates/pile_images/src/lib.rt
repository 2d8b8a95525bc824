// A pile's layer as an image, and a layer from an image (contract 13.11).
//
// A layer keeps rows only. The letters round them are written from W and tested as an outline, whose rows are compared with the layer's.
#![tactic(auto)]

ghost use Rattle.std.specs.Prelude.{ℕ, ◌≤◌, ◌<◌, ◌≡◌, ◌↔◌, true, length};
ghost use Rattle.chart.specs.Limits.{side, longest};
ghost use Rattle.chart.specs.Outline.{outline};
ghost use Rattle.rows.specs.parts.Rows.{rows};
ghost use Rattle.span_list.specs.SpanList.{spans_from};
ghost use Rattle.images.specs.Image.{image_of};
ghost use Rattle.pile_model.specs.Calls.{Restore};
ghost use Rattle.pile_calls.specs.Arrays.{arrays, says, answer_of};
ghost use Rattle.pile_images.specs.Left.{SetTo};
ghost use Rattle.pile_images.specs.Saved.{Written, SavesAt};
ghost use Rattle.pile_images.specs.parts.Found.{Ringed, Holds};

use border_of_rows::{count, round};
use chart::{CORNERS, LONGEST, Point, Refusal, SIDE};
use equality::same_bytes;
use hull_rows::lowest;
use images::{HEADER, IMAGE};
use judge::verdict_of;
use live_sections::Layer;
use pile_calls::{ROW_BYTES, STATE_NUMBERS, layer_index, set, set_empty};
use pile_replies::PileAnswer;
use spans::{Spans, no_spans, spans_of};

// One past the last row.
const END: u8 = SIDE as u8;

// The border of rows: where it starts, and how many letters it has.
#[derive(Clone, Copy)]
struct Ring {
    start: Point,
    count: usize,
}

// 255 columns as 16-bit numbers. The library has no conversion between lists of two lengths.
fn widened(part: &[u8]) -> [u16; CORNERS]
    requires { length part.now ≡ side }
    ensures { (k : ℕ) → rows result k ≡ rows part.now k }
{
    let mut wide = [0u16; CORNERS];
    for (k, column) in part.iter().enumerate() {
        wide[k] = u16::from(*column);
    }
    wide
}

// Writes the letters round rows `b` to `t - 1`, clockwise from the lowest of the rows that begin furthest left. More than 612 are only
// counted.
fn write_ring(layer: &Layer, b: usize, t: usize, letters: &mut [u8]) -> Ring
    requires { (b < t) × (t ≤ side) × (length letters.old ≡ longest) }
    ensures { Ringed (rows layer.now.first.now) (rows layer.now.past.now) b t letters.new result }
{
    let lo = widened(layer.first);
    let hi = widened(layer.past);
    let m = lowest(&lo, b, t);
    let start = Point {
        col: lo[m],
        row: m as u16,
    };
    let count = count(&lo, &hi, b, t, m);
    if count <= LONGEST {
        round(&lo, &hi, b, t, m, letters);
    }
    Ring { start, count }
}

// Whether these are the rows of a table. It is no `==`: a layer borrows two slices, and a table owns two arrays.
fn same_rows(layer: &Layer, spans: Spans) -> bool
    ensures { (result ≡ true) ↔ (spans_from layer.now.first.now layer.now.past.now ≡ spans) }
{
    same_bytes(layer.first, &spans.first) && same_bytes(layer.past, &spans.past)
}

// Whether a set of the outline leaves these rows: the test takes it, and they are its rows.
fn is_set(layer: &Layer, start: Point, letters: &[u8]) -> bool
    ensures { (result ≡ true) ↔ SetTo (outline start letters.now) (spans_from layer.now.first.now layer.now.past.now) }
{
    let verdict = verdict_of(start, letters);
    match verdict {
        Err(_) => false,
        Ok(_) => same_rows(layer, spans_of(start, letters)),
    }
}

// What the rows of a layer are: 27 if no set leaves them, none if the layer is empty, or the border of the outline, whose letters are then
// in the buffer.
fn find(layer: &Layer, letters: &mut [u8]) -> Result<Option<Ring>, Refusal>
    requires { length letters.old ≡ longest }
    ensures { Holds (spans_from layer.now.first.now layer.now.past.now) letters.new result }
{
    let low = layer.bottom();
    if low == END {
        return if same_rows(layer, no_spans()) {
            Ok(None)
        } else {
            Err(Refusal::Damaged)
        };
    }
    let high = layer.top(low);
    let ring = write_ring(layer, low as usize, high as usize, letters);
    if LONGEST < ring.count {
        return Err(Refusal::Damaged);
    }
    if is_set(layer, ring.start, &letters[..ring.count]) {
        Ok(Some(ring))
    } else {
        Err(Refusal::Damaged)
    }
}

// 18, or the image of an outline at the front of the buffer.
fn write_image(start: Point, letters: &[u8], image: &mut [u8]) -> Result<PileAnswer, Refusal>
    requires { (start.col ≤ side) × (start.row ≤ side) × (length letters.now ≤ longest) }
    ensures { Written (image_of (outline start letters.now)) image.old image.new result }
{
    if image.len() < IMAGE {
        return Err(Refusal::LetterBuffer);
    }
    images::write(
        start.col as u8,
        start.row as u8,
        letters,
        &mut image[..IMAGE],
    );
    Ok(PileAnswer::Done)
}

// 22, 27, 18, or the image of the layer's outline from W, or of an outline without letters.
pub fn save(rows: &[u8; ROW_BYTES], layer: u8, image: &mut [u8]) -> Result<PileAnswer, Refusal>
    ensures { SavesAt rows.now layer image.old image.new result }
{
    let layer = layer_index(layer)?;
    let mut letters = [0u8; LONGEST];
    let found = find(&Layer::of(rows, layer), &mut letters)?;
    match found {
        None => write_image(Point { col: 0, row: 0 }, &letters[..0], image),
        Some(ring) => write_image(ring.start, &letters[..ring.count], image),
    }
}

// 22, 26, or a set of the outline whose image the bytes are, or a set empty if it has no letters.
pub fn restore(
    rows: &mut [u8; ROW_BYTES],
    state: &mut [u16; STATE_NUMBERS],
    layer: u8,
    image: &[u8],
) -> Result<PileAnswer, Refusal>
    ensures { says result (arrays rows.new state.new)
        ≡ answer_of (arrays rows.old state.old) (Restore layer image.now) }
{
    layer_index(layer)?;
    match images::read(image) {
        None => Err(Refusal::Image),
        Some(found) => {
            if found.count == 0 {
                return set_empty(rows, state, layer);
            }
            let end = HEADER + found.count;
            set(rows, state, layer, found.start, &image[HEADER..end])
        }
    }
}
