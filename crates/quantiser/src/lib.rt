// Table entries as an engineer has them, turned into the whole counts that a table file holds.
#![tactic(auto)]

ghost use Rattle.std.specs.Prelude.{◌≡◌};
ghost use Rattle.fault.specs.Refusals.{Answers};
ghost use Rattle.quantiser.specs.Quantised.{CountsAreMeant, counts, quantise_refusal};

use fault::Fault;
use file::layout::Table;

mod rounding;
#[cfg(test)]
mod tests;

// One entry: already in counts, or a real number of units.
#[derive(Clone, Copy, PartialEq, Debug)]
pub enum Entry {
    Counts(i64),
    Real(f64),
}

impl Entry {
    // The entry in counts, if the table allows them.
    pub fn quantise(self, table: Table) -> Result<i32, Fault>
        ensures outcome { Answers (quantise_refusal self table) (λ v. v ≡ counts self) result }
        ensures meaning { CountsAreMeant self }
    {
        match self {
            Entry::Counts(n) => rounding::limited_counts(n, table),
            Entry::Real(x) => rounding::real_counts(x, table),
        }
    }
}
