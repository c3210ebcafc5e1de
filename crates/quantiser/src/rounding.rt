// From a float to whole counts, with no step that rounds.
ghost use Rattle.std.specs.Prelude.{◌≡◌};
ghost use Rattle.fault.specs.Refusals.{Answers, unless};
ghost use Rattle.fault.specs.Rules.{refused};
ghost use Rattle.fault.specs.declared.rule.Rule.TheVariants.{CountLimits};
ghost use Rattle.file.specs.Layout.{limited};
ghost use Rattle.quantiser.specs.Quantised.{CountsAreMeant, counts as counts_of, quantise_refusal};
ghost use Rattle.quantiser.specs.declared.Entry.TheVariants.{Real};

use fault::{Fault, Rule};
use file::layout::Table;
use std::num::saturating_f64_to_i64;

// The counts themselves, if the table allows them.
pub(crate) fn limited_counts(counts: i64, table: Table) -> Result<i32, Fault>
    ensures { Answers (unless (limited table counts) (refused CountLimits 0)) (λ v. v ≡ counts) result }
{
    match i32::try_from(counts) {
        Ok(counts) if table.limits(counts) => Ok(counts),
        _ => Err(Rule::CountLimits.into()),
    }
}

// The counts nearest to a real number of units, if the table allows them.
// No table allows more than 256 units, and up to 512 units both products are exact. After the floor all numbers are whole.
pub(crate) fn real_counts(x: f64, table: Table) -> Result<i32, Fault>
    ensures outcome { Answers (quantise_refusal (Real x) table) (λ v. v ≡ counts_of (Real x)) result }
    ensures meaning { CountsAreMeant (Real x) }
{
    if !x.is_finite() {
        return Err(Rule::FiniteNumber.into());
    }
    let size = x.abs();
    if size > 512.0 {
        return Err(Rule::CountLimits.into());
    }
    let counts = x * 4096.0;
    let next = saturating_f64_to_i64((counts * 2.0).floor()) + 1;
    limited_counts(next.div_euclid(2), table)
}
