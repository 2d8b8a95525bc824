// Writes into the four arrays, each stated as the list that it leaves.
ghost use Rattle.std.specs.Prelude.{◌≡◌, ◌+◌, ◌≤◌, ◌<◌, length};
ghost use Rattle.std.proofs.Math.Seq.{paste};
ghost use Rattle.chart.specs.Limits.{most_numbers};
ghost use Rattle.holder_memory.specs.Layout.{slots, draft_numbers, place_words, slot_head_put, open_put};

use crate::{HEADS, SLOT_HEADS, SLOT_NUMBERS};
use chart::{MOST_NUMBERS, Point};

// Writes the three numbers of a slot.
pub fn put_slot_head(heads: &mut [u16; HEADS], slot: usize, anchor: Point, edges: u16)
    requires { slot < slots }
    ensures { heads.new ≡ slot_head_put heads.old slot anchor edges }
{
    let at = SLOT_HEADS + SLOT_NUMBERS * slot;
    heads[at] = anchor.col;
    heads[at + 1] = anchor.row;
    heads[at + 2] = edges;
}

// Opens a draft: its flag is written last.
pub fn put_start(heads: &mut [u16; HEADS], at: usize, start: Point)
    requires { at + draft_numbers ≤ place_words }
    ensures { heads.new ≡ open_put heads.old at start }
{
    heads[at + 1] = start.col;
    heads[at + 2] = start.row;
    heads[at + 3] = 0;
    heads[at] = 1;
}

// Copies the numbers of edges into a buffer, from an index on.
pub fn put_numbers(list: &[i16; MOST_NUMBERS], at: usize, buffer: &mut [i16])
    requires { at + most_numbers ≤ length buffer.old }
    ensures { buffer.new ≡ paste buffer.old at list.now most_numbers }
{
    buffer[at..at + MOST_NUMBERS].copy_from_slice(&list[..]);
}
