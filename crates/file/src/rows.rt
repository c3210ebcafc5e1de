// Rows that the tables of a horizon have, and places in them.
ghost use Rattle.std.specs.Prelude.{◌≡◌, ◌+◌, ◌<◌, ◌≤◌, MatchOption};
ghost use Rattle.file.specs.Layout.{columns as columns_of, cell as cell_at, count as count_of, above as above_of, rows as rows_of};

use crate::horizon::Horizon;
use crate::layout::{Cell, Table};
use std::ops::Range;

// A row that its table has.
#[derive(Clone, Copy)]
pub(crate) struct Row {
    table: Table,
    horizon: Horizon,
    row: usize,
    ghost there: { row < rows_of table horizon.stages },
}

// The place of an entry: a column that its row has.
#[derive(Clone, Copy)]
pub(crate) struct Place {
    row: Row,
    column: usize,
    ghost within: { column < columns_of row.table row.horizon.stages row.row },
}

impl Row {
    ghost use Rattle.file.specs.Places.{start_of, end_of};

    // A row of a table, where the table has it. There is a `Row` to make only behind the test, so no `then_some`.
    pub(crate) fn of(table: Table, horizon: Horizon, row: usize) -> Option<Row>
        ensures { MatchOption result (rows_of table horizon.stages ≤ row) (λ r. (r.table ≡ table) × (r.horizon ≡ horizon) × (r.row ≡ row)) }
    {
        if row >= table.rows(horizon) {
            return None;
        }
        Some(Row {
            table,
            horizon,
            row,
        })
    }

    // How many columns it has.
    pub(crate) fn columns(self) -> usize
        ensures { result ≡ columns_of self.table self.horizon.stages self.row }
    {
        match self.table {
            Table::Weight => 1,
            Table::Gamma => 2,
            Table::Upsilon | Table::Unconstrained | Table::Target => 3 * self.horizon.stages(),
            Table::Generator => self.row + 1,
        }
    }

    // How many entries its table has above it.
    fn above(self) -> usize
        ensures { result ≡ above_of self.table self.horizon.stages self.row }
    {
        match self.table {
            Table::Generator => self.row * (self.row + 1) / 2,
            _ => self.row * self.columns(),
        }
    }

    // Where its entries stand among those of a file.
    pub(crate) fn span(self) -> Range<usize>
        ensures start { result.start ≡ start_of self }
        ensures end { result.end ≡ end_of self }
        ensures inside { result.end ≤ count_of self.horizon.stages }
        ensures bound { result.end ≤ 741 }
    {
        let start = self.table.ahead(self.horizon) + self.above();
        start..start + self.columns()
    }

    // The cell of one of its columns.
    pub(crate) fn cell(self, column: usize) -> Cell
        ensures { result ≡ cell_at self.table self.row column }
    {
        Cell {
            table: self.table,
            row: self.row,
            column,
        }
    }

    // The row whose entries stand behind this one's, where there is one.
    pub(crate) fn next(self) -> Option<Row>
        ensures { MatchOption result (end_of self ≡ count_of self.horizon.stages) (λ r. (r.horizon ≡ self.horizon) × (start_of r ≡ end_of self)) }
    {
        let Row {
            table,
            horizon,
            row,
        } = self;
        if row + 1 < table.rows(horizon) {
            return Row::of(table, horizon, row + 1);
        }
        Row::of(table.following()?, horizon, 0)
    }

    // The place of one of its entries, where it has the column; made behind the test, as a `Row` is.
    pub(crate) fn place(self, column: usize) -> Option<Place>
        ensures { MatchOption result (columns_of self.table self.horizon.stages self.row ≤ column) (λ p. (p.row ≡ self) × (p.column ≡ column)) }
    {
        if column >= self.columns() {
            return None;
        }
        Some(Place { row: self, column })
    }
}

impl Place {
    ghost use Rattle.file.specs.Places.{entry_of};

    // Which entry of the file stands there.
    pub(crate) fn entry(self) -> usize
        ensures value { result ≡ entry_of self }
        ensures inside { result < count_of self.row.horizon.stages }
        ensures bound { result < 741 }
    {
        self.row.span().start + self.column
    }
}
