// Which tables a file has, in which order, of which shape and within which limits.
ghost use Rattle.std.specs.Prelude.{Some, ◌≡◌, ℕ, ◌+◌, ◌<◌, ◌≤◌, length, IfSome, MatchOption, ◌≢◌, slice_index_or};
ghost use Rattle.file.specs.File.{offset};
ghost use Rattle.file.specs.declared.layout.Table.TheVariants.{Generator};
ghost use Rattle.file.specs.Layout.{CellOf, InTable, count as count_of, following as following_of, ahead as ahead_of, cells as cells_of, greatest as greatest_entry, place as place_of, limited as is_limited, least as least_entry, letter as letter_of, on_diagonal, rows as rows_of, size as size_of};

use crate::header::{ENTRY_BYTES, HEADER_BYTES};
use crate::horizon::Horizon;
use crate::rows::Row;
use std::fmt;
use std::ops::Range;

// The tables, in the order in which a file has them.
#[derive(Clone, Copy, PartialEq, Eq, Debug)]
pub enum Table {
    // w, the weight on switching
    Weight,
    // Γ, by which the present currents act on the coming ones
    Gamma,
    // Υ, by which the switch positions act on the coming currents
    Upsilon,
    // P, from which the unconstrained entries come
    Unconstrained,
    // T, from which the target comes
    Target,
    // V, the generator: a lower triangle
    Generator,
}

impl fmt::Display for Table {
    ghost output = { λ t. Some (letter_of t) };

    fn fmt<W: fmt::Write>(&self, f: &mut fmt::Formatter<W>) -> fmt::Result {
        f.pad(self.letter())
    }
}

impl Table {
    // All of them, in that order.
    pub const ALL: [Table; 6] = [
        Table::Weight,
        Table::Gamma,
        Table::Upsilon,
        Table::Unconstrained,
        Table::Target,
        Table::Generator,
    ];
}

// One entry's place in a table.
#[derive(Clone, Copy, PartialEq, Eq, Debug)]
pub struct Cell {
    pub table: Table,
    pub row: usize,
    pub column: usize,
}

impl Table {
    // The letter of the table in the documents.
    pub fn letter(self) -> &'static str
        ensures { result.now ≡ letter_of self }
    {
        match self {
            Table::Weight => "w",
            Table::Gamma => "Γ",
            Table::Upsilon => "Υ",
            Table::Unconstrained => "P",
            Table::Target => "T",
            Table::Generator => "V",
        }
    }

    // The least value that an entry of the table may have.
    pub fn least(self) -> i32
        ensures { result ≡ least_entry self }
    {
        match self {
            Table::Weight => 0,
            Table::Gamma => -8192,
            Table::Upsilon => -4096,
            Table::Unconstrained => -1_048_576,
            Table::Target => -65_536,
            Table::Generator => -1_048_576,
        }
    }

    // The greatest value that an entry of the table may have.
    pub fn greatest(self) -> i32
        ensures { result ≡ greatest_entry self }
    {
        match self {
            Table::Weight => 65_536,
            Table::Gamma => 8192,
            Table::Upsilon => 4096,
            Table::Unconstrained => 1_048_576,
            Table::Target => 65_536,
            Table::Generator => 1_048_576,
        }
    }

    // Whether an entry of the table may have this value.
    pub fn limits(self, value: i32) -> bool
        ensures { result ≡ is_limited self value }
    {
        (self.least()..=self.greatest()).contains(&value)
    }

    // How many rows the table has.
    pub fn rows(self, horizon: Horizon) -> usize
        ensures { result ≡ rows_of self horizon.stages }
    {
        match self {
            Table::Weight => 1,
            Table::Gamma | Table::Upsilon => 2 * horizon.stages(),
            Table::Unconstrained | Table::Target | Table::Generator => 3 * horizon.stages(),
        }
    }

    // How many entries a file has in front of the table.
    pub(crate) fn ahead(self, horizon: Horizon) -> usize
        ensures { result ≡ ahead_of self horizon.stages }
    {
        let n = horizon.stages();
        match self {
            Table::Weight => 0,
            Table::Gamma => 1,
            Table::Upsilon => 1 + 4 * n,
            Table::Unconstrained => 1 + 4 * n + 6 * n * n,
            Table::Target => 1 + 4 * n + 15 * n * n,
            Table::Generator => 1 + 4 * n + 24 * n * n,
        }
    }

    // Where the entries of the whole table stand.
    pub(crate) fn whole(self, horizon: Horizon) -> Range<usize>
        ensures start { result.start ≡ ahead_of self horizon.stages }
        ensures end { result.end ≡ result.start + size_of self horizon.stages }
        ensures inside { result.end ≤ count_of horizon.stages }
        ensures bound { result.end ≤ 741 }
    {
        let start = self.ahead(horizon);
        let end = match self.following() {
            Some(next) => next.ahead(horizon),
            None => count(horizon),
        };
        start..end
    }

    // The table behind this one in the file, where it is not the last.
    pub(crate) fn following(self) -> Option<Table>
        ensures { MatchOption result (self ≡ Generator) (λ t. (self ≢ Generator) × (t ≡ following_of self)) }
    {
        match self {
            Table::Weight => Some(Table::Gamma),
            Table::Gamma => Some(Table::Upsilon),
            Table::Upsilon => Some(Table::Unconstrained),
            Table::Unconstrained => Some(Table::Target),
            Table::Target => Some(Table::Generator),
            Table::Generator => None,
        }
    }
}

// How many entries a file has.
pub(crate) fn count(horizon: Horizon) -> usize
    ensures value { result ≡ count_of horizon.stages }
    ensures bound { result ≤ 741 }
{
    let n = horizon.stages();
    1 + 4 * n + 24 * n * n + 3 * n * (3 * n + 1) / 2
}

impl Cell {
    // Whether it lies on the generator's diagonal.
    pub fn is_on_diagonal(self) -> bool
        ensures { result ≡ on_diagonal self }
    {
        self.table == Table::Generator && self.row == self.column
    }

    // The cell of an entry of the file, where the file has that entry.
    pub fn at(horizon: Horizon, entry: usize) -> Option<Cell>
        ensures value { MatchOption result (count_of horizon.stages ≤ entry) (λ x. CellOf horizon.stages entry x × (entry < count_of horizon.stages)) }
        ensures listed { IfSome result (λ x. (d : Cell) → slice_index_or (cells_of horizon.stages) entry d ≡ x) }
        ensures counted { length (cells_of horizon.stages) ≡ count_of horizon.stages }
    {
        // the walk would go through all rows before it finds that there is no such entry
        if entry >= count(horizon) {
            return None;
        }
        let mut row = Row::of(Table::Weight, horizon, 0)?;
        while row.span().end <= entry {
            row = row.next()?;
        }
        Some(row.cell(entry - row.span().start))
    }
}

// The cell of the entry that begins at an offset of the file, where one does.
pub fn cell_at_offset(horizon: Horizon, at: usize) -> Option<Cell>
    ensures { MatchOption result ((k : ℕ) → k < count_of horizon.stages → offset k ≢ at) (λ x. InTable horizon.stages x × (offset (place_of horizon.stages x) ≡ at)) }
{
    let past = at.checked_sub(HEADER_BYTES)?;
    if past % ENTRY_BYTES != 0 {
        return None;
    }
    Cell::at(horizon, past / ENTRY_BYTES)
}
