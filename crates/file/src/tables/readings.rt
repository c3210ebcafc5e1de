// Readings of a plant's tables.
ghost use Rattle.std.specs.Prelude.{◌≡◌, ℕ, ◌<◌, length, pos, IfSome, slice_index_or};
ghost use Rattle.file.specs.File.{entry, entry_reading, row_reading, table_reading};
ghost use Rattle.file.specs.Layout.{Limited};
ghost use Rattle.file.specs.Tables.{data_of};
ghost use Rattle.file.specs.declared.layout.Table.TheVariants.{Weight};

use super::Tables;
use crate::horizon::Horizon;
use crate::layout::Table;
use crate::rows::Row;

impl Tables {
    // For how many stages the tables plan.
    pub fn horizon(&self) -> Horizon
        ensures { result.stages ≡ (data_of self.now).horizon }
    {
        self.horizon
    }

    // The weight on switching.
    pub fn weight(&self) -> i32
        ensures value { result ≡ entry (data_of self.now) Weight 0 0 }
        ensures bound { Limited Weight result }
    {
        self.entries[0]
    }

    // The entry of a table at a row and column from 0, where the table has them.
    pub fn entry(&self, table: Table, row: usize, column: usize) -> Option<i32>
        ensures value { result ≡ entry_reading (data_of self.now) table row column }
        ensures bound { IfSome result (Limited table) }
    {
        let place = Row::of(table, self.horizon, row)?.place(column)?;
        Some(self.entries[place.entry()])
    }

    // A row of a table, from 0, by columns; empty where the table has no such row.
    pub fn row(&self, table: Table, row: usize) -> &[i32]
        ensures value { result.now ≡ row_reading (data_of self.now) table row }
        ensures bound { (k : ℕ) → k < length result.now → Limited table (slice_index_or result.now k (pos 0)) }
    {
        match Row::of(table, self.horizon, row) {
            Some(row) => &self.entries[row.span()],
            None => &[],
        }
    }

    // All entries of a table, row by row.
    pub fn entries(&self, table: Table) -> &[i32]
        ensures { result.now ≡ table_reading (data_of self.now) table }
    {
        &self.entries[table.whole(self.horizon)]
    }
}
