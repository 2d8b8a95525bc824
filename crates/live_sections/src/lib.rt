// The sections of a pile whose layers are in one list of bytes, by columns and by rows, and the first that is dented.
#![tactic(auto)]

ghost use Rattle.std.specs.Prelude.{ℕ, ◌+◌, ◌-◌, ◌*◌, ◌≤◌, ◌<◌, ◌≡◌, Bool, true, not, length};
ghost use Rattle.base.specs.Below.{first as first_of};
ghost use Rattle.chart.specs.Limits.{side};
ghost use Rattle.windows.specs.Windows.{window};
ghost use Rattle.span_list.specs.SpanList.{slot_bytes};
ghost use Rattle.sections.specs.Sections.{layers};
ghost use Rattle.sections.specs.declared.Section.{Section};
ghost use Rattle.pile_sections.specs.Sections.{in_row, column_section, row_section, column_clear, row_clear, dented_column, dented_row};
ghost use Rattle.live_sections.specs.Layers.{layers_of};
ghost use Rattle.live_sections.specs.parts.Reach.{has_cell, reach_of, NoneBelow, NoneFrom, clear_of};

use chart::SIDE;
use sections::{LAYERS, Section};
use span_list::WIDTH;
use spans::ROWS;

// Sixteen layers, side by side.
pub const ROW_BYTES: usize = LAYERS * WIDTH;

// One past the last row, and past the last column.
const END: u8 = SIDE as u8;

// The rows of one layer: row `r` has the columns from `first[r]` up to but not including `past[r]`.
#[derive(Clone, Copy)]
pub struct Layer<'a> {
    pub first: &'a [u8],
    pub past: &'a [u8],
    ghost sized: { (length first.now ≡ side) × (length past.now ≡ side) },
}

// The 255 numbers from an index on.
fn part(rows: &[u8], from: usize) -> &[u8]
    requires { (from ≤ 16384) × (from + side ≤ length rows.now) }
    ensures { (result.now ≡ window from side rows.now) × (length result.now ≡ side) }
{
    &rows[from..from + ROWS]
}

// A row is a plain number below 255: the searches count it, and compare it with the bounds of their rows.
impl<'a> Layer<'a> {
    // Layer `l` of a pile whose layers are in one list. It takes two values, so it is no `From`.
    pub fn of(rows: &'a [u8; ROW_BYTES], l: usize) -> Layer<'a>
        requires { l < layers }
        ensures first { result.first.now ≡ window (slot_bytes * l) side rows.now }
        ensures past { result.past.now ≡ window (slot_bytes * l + side) side rows.now }
    {
        let at = WIDTH * l;
        Layer {
            first: part(rows, at),
            past: part(rows, at + ROWS),
        }
    }

    // Row `r` has column `col`.
    #[tactic(auto, unfolding(pile_sections::specs::Sections::in_row))]
    fn holds(&self, col: u8, r: usize) -> bool
        requires { r < side }
        ensures { result ≡ in_row self.now.first.now self.now.past.now col r }
    {
        self.first[r] <= col && col < self.past[r]
    }

    // Row `r` has a cell.
    #[tactic(auto, unfolding(crate::specs::parts::Reach::has_cell))]
    fn has_cell(&self, r: usize) -> bool
        requires { r < side }
        ensures { result ≡ has_cell self.now.first.now self.now.past.now r }
    {
        self.first[r] < self.past[r]
    }

    // The lowest row with a cell, or 255.
    pub fn bottom(&self) -> u8
        ensures { result ≡ first_of (λ r. has_cell self.now.first.now self.now.past.now r) side }
    {
        for r in 0..ROWS {
            if self.has_cell(r) {
                return r as u8;
            }
        }
        END
    }

    // The row past the highest with a cell, or 0. `low` is the lowest with a cell: a layer without cells is not searched again.
    pub fn top(&self, low: u8) -> u8
        requires { low ≡ first_of (λ r. has_cell self.now.first.now self.now.past.now r) side }
        ensures { result ≡ side - first_of (λ k. has_cell self.now.first.now self.now.past.now (side - 1 - k)) side }
    {
        if low == END {
            return 0;
        }
        for r in (0..ROWS).rev() {
            if self.has_cell(r) {
                return r as u8 + 1;
            }
        }
        0
    }

    // The lowest row with the column, or 255. Only rows `from` up to but not including `to` have cells. Rows are counted in 32 bits here
    // and in the next search, the two longest.
    fn lowest(&self, col: u8, from: u8, to: u8) -> u8
        requires { NoneBelow self.now.first.now self.now.past.now col from × NoneFrom self.now.first.now self.now.past.now col to }
        ensures { result ≡ first_of (λ r. in_row self.now.first.now self.now.past.now col r) side }
    {
        for r in u32::from(from)..u32::from(to) {
            if self.holds(col, r as usize) {
                return r as u8;
            }
        }
        END
    }

    // The row past the highest with the column, or 0.
    fn after_highest(&self, col: u8, from: u8, to: u8) -> u8
        requires { NoneBelow self.now.first.now self.now.past.now col from × NoneFrom self.now.first.now self.now.past.now col to }
        ensures { result ≡ side - first_of (λ k. in_row self.now.first.now self.now.past.now col (side - 1 - k)) side }
    {
        for r in (u32::from(from)..u32::from(to)).rev() {
            if self.holds(col, r as usize) {
                return r as u8 + 1;
            }
        }
        0
    }
}

// The rows of each layer that have a cell: from the lowest up to but not including the row past the highest.
pub fn reach(rows: &[u8; ROW_BYTES]) -> Section
    ensures { result ≡ reach_of (layers_of rows.now) }
{
    let mut lo = [0u8; LAYERS];
    let mut past = [0u8; LAYERS];
    for l in 0..LAYERS {
        let layer = Layer::of(rows, l);
        let low = layer.bottom();
        lo[l] = low;
        past[l] = layer.top(low);
    }
    Section { lo, past }
}

// The section at a column: for each layer, the rows with that column. They are within `reach`.
fn column(rows: &[u8; ROW_BYTES], reach: Section, col: u8) -> Section
    requires { reach ≡ reach_of (layers_of rows.now) }
    ensures { result ≡ column_section (layers_of rows.now) col }
{
    let mut lo = [0u8; LAYERS];
    let mut past = [0u8; LAYERS];
    for l in 0..LAYERS {
        let layer = Layer::of(rows, l);
        let to = reach.past[l];
        let low = layer.lowest(col, reach.lo[l], to);
        lo[l] = low;
        past[l] = layer.after_highest(col, low, to);
    }
    Section { lo, past }
}

// The section at a row: for each layer, the columns of that row.
fn row(rows: &[u8; ROW_BYTES], r: usize) -> Section
    requires { r < side }
    ensures { result ≡ row_section (layers_of rows.now) r }
{
    let mut lo = [0u8; LAYERS];
    let mut past = [0u8; LAYERS];
    for l in 0..LAYERS {
        let at = WIDTH * l + r;
        lo[l] = rows[at];
        past[l] = rows[at + ROWS];
    }
    Section { lo, past }
}

// A section without cells, which is convex.
fn no_cells() -> Section
    ensures { clear_of result ≡ true }
{
    Section {
        lo: [0; LAYERS],
        past: [0; LAYERS],
    }
}

// Whether the section is convex, given that the one before it is. Equal sections are not tested again.
#[tactic(auto, unfolding(crate::specs::parts::Reach::clear_of))]
fn clear_after(last: Section, section: Section) -> bool
    requires { clear_of last ≡ true }
    ensures { result ≡ clear_of section }
{
    section == last || section.is_clear()
}

// The first of 255 sections that is dented, or 255.
fn first_dented<F: Fn(u16) -> Section>(section: F) -> u16
    requires { (n : ℕ) → n < side → F.pre section n }
    ensures { (dented : ℕ → Bool) → ((n : ℕ) (s : Section) → n < side → F.post section n s → dented n ≡ not (clear_of s))
        → result ≡ first_of dented side }
{
    let mut last = no_cells();
    for n in 0..SIDE {
        let next = section(n);
        if !clear_after(last, next) {
            return n;
        }
        last = next;
    }
    SIDE
}

// The first column whose section is dented, or 255.
pub fn dented_column(rows: &[u8; ROW_BYTES]) -> u16
    ensures { result ≡ dented_column (layers_of rows.now) }
{
    let reach = reach(rows);
    first_dented(|col| column(rows, reach, col as u8))
}

// The first row whose section is dented, or 255.
pub fn dented_row(rows: &[u8; ROW_BYTES]) -> u16
    ensures { result ≡ dented_row (layers_of rows.now) }
{
    first_dented(|r| row(rows, usize::from(r)))
}

// Whether the section at a column is convex.
#[tactic(auto, unfolding(pile_sections::specs::Sections::column_clear))]
pub fn clear_column(rows: &[u8; ROW_BYTES], reach: Section, col: u8) -> bool
    requires { reach ≡ reach_of (layers_of rows.now) }
    ensures { result ≡ column_clear (layers_of rows.now) col }
{
    column(rows, reach, col).is_clear()
}

// Whether the section at a row is convex.
#[tactic(auto, unfolding(pile_sections::specs::Sections::row_clear))]
pub fn clear_row(rows: &[u8; ROW_BYTES], r: usize) -> bool
    requires { r < side }
    ensures { result ≡ row_clear (layers_of rows.now) r }
{
    row(rows, r).is_clear()
}
