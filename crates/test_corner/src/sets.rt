// Sets of numbers below 32, of cells or of corners: one bit for each.
pub(crate) fn has(set: u32, k: u16) -> bool {
    k < 32 && (set >> (k as u32)) % 2 == 1
}

pub(crate) fn with(set: u32, k: u16) -> u32 {
    if k < 32 { set | (1 << (k as u32)) } else { set }
}
