// The cells of the chart's lower left 4 by 4 corner. Cell k is in column k % 4 and row k / 4.
use crate::sets;

// How many cells there are.
pub(crate) const CELLS: u16 = 16;

pub(crate) fn col(k: u16) -> u16 {
    k % 4
}

pub(crate) fn row(k: u16) -> u16 {
    k / 4
}

// The lowest cell of a set, leftmost in its row. Cells are numbered in this order.
pub(crate) fn lowest(set: u32) -> Option<u16> {
    (0..CELLS).find(|k| sets::has(set, *k))
}

// The leftmost cell of a set, lowest in its column.
pub(crate) fn leftmost(set: u32) -> Option<u16> {
    for t in 0..CELLS {
        let k = 4 * (t % 4) + t / 4;
        if sets::has(set, k) {
            return Some(k);
        }
    }
    None
}
