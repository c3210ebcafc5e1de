// What a controller is handed for one period, and whether it may be.
ghost use Rattle.std.specs.Prelude.{◌≡◌, ◌*◌, length};
ghost use Rattle.fault.specs.Refusals.{Answers};
ghost use Rattle.file.specs.Tables.{data_of};
ghost use Rattle.period.specs.Inputs.{first_outside, inputs_refusal, levels_of};
ghost use Rattle.period.specs.Sums.{EachWithin};

use crate::rows::Levels;
use fault::{Fault, Rule};
use file::tables::Tables;
use legs::phases::Phases;

// The greatest current or reference, in counts and either direction.
const GREATEST: u32 = 8192;

// The tables of a period with the currents and the references that may be handed in for it: `check` makes them.
#[derive(Clone, Copy)]
pub(crate) struct Inputs<'a> {
    pub(crate) tables: &'a Tables,
    pub(crate) currents: &'a [i32; 2],
    pub(crate) references: &'a [i32],
    ghost staged: { length references.now ≡ 2 * (data_of tables.now).horizon },
    ghost currents_small: { EachWithin 8192 currents.now },
    ghost references_small: { EachWithin 8192 references.now },
}

// The place of the first value outside the range, currents before references.
// The project fixes the form: a `for` over the values with their index, which names the first that fails.
fn first_outside_range(currents: &[i32; 2], references: &[i32]) -> Option<usize>
    ensures { result ≡ first_outside currents.now references.now }
{
    for (place, value) in currents.iter().chain(references).enumerate() {
        if value.unsigned_abs() > GREATEST {
            return Some(place);
        }
    }
    None
}

// The levels of the applied positions.
pub(crate) fn levels<L: Phases>(legs: &L, applied: &[u8; 3]) -> Levels
    ensures { result.values ≡ levels_of (L.Phases.models legs.now) applied.now }
{
    let [a, b, c] = *applied;
    Levels {
        values: [
            i32::from(legs.level(0, a)),
            i32::from(legs.level(1, b)),
            i32::from(legs.level(2, c)),
        ],
    }
}

// The currents and references, where they may be handed in.
pub(crate) fn check<'a>(
    tables: &'a Tables,
    currents: &'a [i32; 2],
    references: &'a [i32],
) -> Result<Inputs<'a>, Fault>
    ensures { Answers (inputs_refusal (data_of tables.now).horizon currents.now references.now) (λ inputs. (inputs.tables.now ≡ tables.now) × (inputs.currents.now ≡ currents.now) × (inputs.references.now ≡ references.now)) result }
{
    let horizon = tables.horizon();
    if references.len() != 2 * horizon.stages() {
        return Err(Rule::ReferenceCount.at(references.len()));
    }
    match first_outside_range(currents, references) {
        Some(place) => Err(Rule::InputRange.at(place)),
        None => Ok(Inputs {
            tables,
            currents,
            references,
        }),
    }
}
