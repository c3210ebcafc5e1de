// A sequence of positions that a plan has, or that is remembered.
ghost use Rattle.std.specs.Prelude.{◌≡◌, ◌*◌, ◌≤◌, length};

use crate::calls::Reading;
use decoder::Mark;

// Of the entries the first `len` count. An array and a length, since a plan is copied, which the library's lists of fixed room
// are not. A `Reading`, which is public, has them too, but with any array and any length in them.
#[derive(Clone, Copy)]
pub(crate) struct Sequence {
    pub(crate) entries: [u8; 15],
    pub(crate) len: usize,
    ghost long: { length entries ≡ 15 },
    ghost some: { 3 ≤ len },
    ghost few: { len ≤ 15 },
}

// A plan: its sequence, what that costs, how many nodes were counted for it, and how the search ended.
#[derive(Clone, Copy)]
pub(crate) struct Plan<K> {
    pub(crate) sequence: Sequence,
    pub(crate) cost: K,
    pub(crate) count: u32,
    pub(crate) mark: Mark,
}

impl Sequence {
    ghost use Rattle.controller.specs.Book.{entries_in};
    ghost use Rattle.std.specs.Prelude.{take};

    // The part of an array that a horizon of some stages fills.
    pub(crate) fn new(entries: [u8; 15], stages: u8) -> Sequence
        requires some { 1 ≤ stages }
        requires few { stages ≤ 5 }
        ensures entries { result.entries ≡ entries }
        ensures len { result.len ≡ 3 * stages }
    {
        Sequence {
            entries,
            len: 3 * usize::from(stages),
        }
    }

    // The entries that count.
    pub(crate) fn as_slice(&self) -> &[u8]
        ensures { result.now ≡ entries_in self.now }
    {
        &self.entries[..self.len]
    }

    // The positions of the first stage.
    pub(crate) fn first_stage(&self) -> [u8; 3]
        ensures { result ≡ take 3 (entries_in self.now) }
    {
        let [a, b, c, ..] = self.entries;
        [a, b, c]
    }
}

impl<K: Copy> Plan<K> {
    ghost use Rattle.controller.specs.View.{reading_of};

    // The plan, as its readings show it.
    pub(crate) fn reading(&self) -> Reading<K>
        ensures { result ≡ reading_of self.now }
    {
        Reading {
            entries: self.sequence.entries,
            len: self.sequence.len,
            cost: self.cost,
            count: self.count,
            mark: self.mark,
        }
    }
}
