// From the bytes of a file to its tables.
ghost use Rattle.std.specs.Prelude.{◌≡◌, ◌+◌, ◌≤◌, length, if◌then◌else◌, Some, None, IsTrue, is_none, nat_le};
ghost use Rattle.fault.specs.Refusals.{Answers};
ghost use Rattle.file.specs.File.{entries_refusal, entry_refusal, file_of, file_refusal, header_refusal, horizon_of, tables_of, word};
ghost use Rattle.file.specs.Layout.{cells, count as count_of};
ghost use Rattle.file.specs.Entered.{Entered};
ghost use Rattle.file.specs.Tables.{data_of};

use super::{MOST_ENTRIES, Tables};
use crate::header::{ENTRY_BYTES, HEADER_BYTES, LETTERS, VERSION};
use crate::horizon::Horizon;
use crate::layout::{Cell, Table, count};
use crate::rows::Row;
use fault::{Fault, Rule};

// The bytes of a file whose header and length are in order.
#[derive(Clone, Copy)]
struct Sheet<'a> {
    bytes: &'a [u8],
    horizon: Horizon,
    ghost headed: { IsTrue (is_none (header_refusal bytes.now)) },
    ghost planned: { horizon.stages ≡ horizon_of bytes.now },
}

// A file's bytes, once its header and its length are found in order.
fn read_header(bytes: &[u8]) -> Result<Sheet<'_>, Fault>
    ensures { Answers (header_refusal bytes.now) (λ s. s.bytes.now ≡ bytes.now) result }
{
    let [s, d, t, low, high, stages, ..] = bytes else {
        return Err(Rule::HeaderBytes.at(bytes.len()));
    };
    if [*s, *d, *t] != LETTERS {
        return Err(Rule::FileMark.into());
    }
    if u16::from_le_bytes([*low, *high]) != VERSION {
        return Err(Rule::FileVersion.at(3));
    }
    let Some(horizon) = Horizon::of(usize::from(*stages)) else {
        return Err(Rule::FileHorizon.at(5));
    };
    if bytes.len() != HEADER_BYTES + ENTRY_BYTES * count(horizon) {
        return Err(Rule::FileLength.at(bytes.len()));
    }
    Ok(Sheet { bytes, horizon })
}

// The number whose four bytes begin at an offset, where they are all there.
pub fn word_at(bytes: &[u8], at: usize) -> Option<i32>
    ensures { result ≡ (if nat_le (at + 4) (length bytes.now) then Some (word bytes.now at) else None) }
{
    let word = bytes.get(at..)?.first_chunk()?;
    Some(i32::from_le_bytes(*word))
}

// The entry of a cell, at its offset.
fn read_entry(bytes: &[u8], cell: Cell, at: usize) -> Result<i32, Fault>
    requires { at + 4 ≤ length bytes.now }
    ensures { Answers (entry_refusal cell at (word bytes.now at)) (λ z. z ≡ word bytes.now at) result }
{
    // by index, and not by `word_at`, which would ask once more whether the bytes are there
    let value = i32::from_le_bytes([bytes[at], bytes[at + 1], bytes[at + 2], bytes[at + 3]]);
    if !cell.table.limits(value) {
        return Err(Rule::EntryLimits.at(at));
    }
    if cell.is_on_diagonal() && value < 1 {
        return Err(Rule::PositiveDiagonal.at(at));
    }
    Ok(value)
}

impl Sheet<'_> {
    // Its entries, row by row, so that from one entry to the next only the column changes.
    fn entries(self) -> Result<[i32; MOST_ENTRIES], Fault>
        ensures { Answers (entries_refusal (cells self.entry.horizon.stages) self.entry.bytes.now 6) (λ es. Entered self.entry.bytes.now self.entry.horizon.stages es (count_of self.entry.horizon.stages)) result }
    {
        let mut entries = [0; MOST_ENTRIES];
        let mut next = Row::of(Table::Weight, self.horizon, 0);
        while let Some(row) = next {
            let start = row.span().start;
            // Written by index: of what goes through a zipped `iter_mut`, a proof knows nothing.
            for column in 0..row.columns() {
                let k = start + column;
                let at = HEADER_BYTES + ENTRY_BYTES * k;
                entries[k] = read_entry(self.bytes, row.cell(column), at)?;
            }
            next = row.next();
        }
        Ok(entries)
    }
}

// The tables that a file says, or why it is refused. An accepted file is the very file of its tables.
pub fn read(bytes: &[u8]) -> Result<Tables, Fault>
    ensures { Answers (file_refusal bytes.now) (λ t. (data_of t ≡ tables_of bytes.now) × (file_of (data_of t) ≡ bytes.now)) result }
{
    let sheet = read_header(bytes)?;
    Ok(Tables {
        horizon: sheet.horizon,
        entries: sheet.entries()?,
    })
}
