// The tables of a plant.
ghost use Rattle.std.specs.Prelude.{◌≡◌, ℕ, ◌<◌, length, pos, ◌≤ℤ◌, slice_index_or};
ghost use Rattle.file.specs.Layout.{InTable, Limited, index, place, rows};
ghost use Rattle.file.specs.declared.layout.Cell.{Cell};
ghost use Rattle.file.specs.declared.layout.Table.TheVariants.{Generator};

use crate::horizon::Horizon;

mod reading;
mod readings;
mod writing;

pub use reading::{read, word_at};

// The entries of a file of the longest horizon.
const MOST_ENTRIES: usize = 741;

// The tables of a plant. None is ever outside its limits, so nothing above tests them again.
#[derive(Drop)]
pub struct Tables {
    horizon: Horizon,
    // in the order of the file; places past the last entry mean nothing: it is as long as the longest horizon needs, so that
    // nothing is allocated
    entries: [i32; MOST_ENTRIES],
    ghost sized: { length entries ≡ 741 },
    ghost limited: { (x : Cell) → InTable horizon.stages x → Limited x.table (slice_index_or entries (place horizon.stages x) (pos 0)) },
    ghost diagonal: { (r : ℕ) → r < rows Generator horizon.stages → pos 1 ≤ℤ slice_index_or entries (index Generator horizon.stages r r) (pos 0) },
}
