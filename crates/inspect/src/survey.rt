// What a reader of a table file wants to know of it.
ghost use Rattle.std.specs.Prelude.{◌≡◌, IfSome};
ghost use Rattle.file.specs.File.{horizon_of, offset};
ghost use Rattle.file.specs.Layout.{InTable, place};
ghost use Rattle.inspect.specs.Extremes.{extremes_of, including as including_of};

use fault::{Fault, Rule};
use file::horizon::Horizon;
use file::layout::{Cell, Table, cell_at_offset};
use quantiser::Entry;

// The least and the greatest of some entries.
#[derive(Clone, Copy, Debug, PartialEq, Eq)]
pub struct Extremes {
    pub least: i32,
    pub greatest: i32,
}

impl Extremes {
    // The extremes with one value more.
    fn including(self, value: i32) -> Extremes
        ensures { result ≡ including_of self value }
    {
        Extremes {
            least: self.least.min(value),
            greatest: self.greatest.max(value),
        }
    }

    // The extremes of some entries, where there are any.
    pub fn of(entries: &[i32]) -> Option<Extremes>
        ensures { result ≡ extremes_of entries.now }
    {
        let first = *entries.first()?;
        let alone = Extremes {
            least: first,
            greatest: first,
        };
        Some(entries.iter().copied().fold(alone, Extremes::including))
    }
}

// The cell of the entry that a refusal of the file names, where it names one.
pub fn refused_cell(bytes: &[u8], fault: Fault) -> Option<Cell>
    ensures { IfSome result (λ x. InTable (horizon_of bytes.now) x × (offset (place (horizon_of bytes.now) x) ≡ fault.place)) }
{
    let number = fault.number;
    if number != Rule::EntryLimits.number() && number != Rule::PositiveDiagonal.number() {
        return None;
    }
    let stages = bytes.get(5)?;
    let horizon = Horizon::of(usize::from(*stages))?;
    cell_at_offset(horizon, fault.place)
}

// The table that an argument names. A function and no `FromStr`: the names are this program's own, and `Table` is another crate's.
pub(crate) fn table_of(word: &str) -> Option<Table> {
    match word {
        "w" => Some(Table::Weight),
        "g" => Some(Table::Gamma),
        "u" => Some(Table::Upsilon),
        "p" => Some(Table::Unconstrained),
        "t" => Some(Table::Target),
        "v" => Some(Table::Generator),
        _ => None,
    }
}

// The entry that an argument writes, likewise of this program alone: whole counts behind a '#', or else a real number of units.
pub(crate) fn entry_of(text: &str) -> Option<Entry> {
    match text.strip_prefix("#") {
        Some(counts) => counts.parse().ok().map(Entry::Counts),
        None => text.parse().ok().map(Entry::Real),
    }
}

// What a refusal of the file or the quantiser means.
pub(crate) fn reason(fault: Fault) -> &'static str {
    let Some(rule) = fault.rule() else {
        return "a refusal of another kind";
    };
    match rule {
        Rule::HeaderBytes => "fewer than 6 bytes, so there is no whole header",
        Rule::FileMark => "the file does not begin with the letters SDT",
        Rule::FileVersion => "the version is not 1",
        Rule::FileHorizon => "the horizon is not 1 to 5",
        Rule::FileLength => "the length is not that of the horizon's tables",
        Rule::EntryLimits => "an entry is outside its table's limits",
        Rule::PositiveDiagonal => "an entry on the diagonal of V is under 1",
        Rule::FiniteNumber => "not a finite number",
        Rule::CountLimits => "outside the table's limits",
        _ => "a refusal of another kind",
    }
}
