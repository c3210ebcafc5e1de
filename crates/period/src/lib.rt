// One period's equations, in whole numbers.
#![tactic(auto)]

ghost use Rattle.fault.specs.Refusals.{Answers};
ghost use Rattle.file.specs.Tables.{data_of};
ghost use Rattle.period.specs.Equations.{given};
ghost use Rattle.period.specs.Inputs.{inputs_refusal, levels_of};
ghost use Rattle.period.specs.Solved.{Solved};

use crate::inputs::Inputs;
use crate::rows::Levels;
use fault::Fault;
use file::layout::Table;
use file::tables::Tables;
use legs::phases::Phases;

mod equations;
mod inputs;
mod rows;
pub mod sums;

// What a decoder is told of one period, by rows from 0; past the last row stands 0.
#[derive(Clone, Copy, PartialEq, Eq, Debug)]
pub struct Period {
    pub unconstrained: [i32; 15],
    pub target: [i32; 15],
}

// The equations, one after the other.
fn solved(inputs: &Inputs, levels: &Levels) -> Period
    ensures { Solved (data_of inputs.now.tables.now) (given inputs.now.currents.now inputs.now.references.now levels.now.values) result }
{
    let tables = inputs.tables;
    let errors = equations::errors(inputs);
    let thetas = equations::thetas(tables, &errors, levels);
    Period {
        unconstrained: equations::row_products(tables, Table::Unconstrained, &thetas),
        target: equations::row_products(tables, Table::Target, &thetas),
    }
}

impl Period {
    // One period, from the currents at its beginning, the references of every stage and the applied positions.
    // Values that a controller may not be handed are refused in its name. Currents and references come as a caller has them, and are
    // `Inputs` once they are checked.
    pub fn of<L: Phases>(
        tables: &Tables,
        legs: &L,
        applied: &[u8; 3],
        currents: &[i32; 2],
        references: &[i32],
    ) -> Result<Period, Fault>
        ensures { Answers (inputs_refusal (data_of tables.now).horizon currents.now references.now) (Solved (data_of tables.now) (given currents.now references.now (levels_of (L.Phases.models legs.now) applied.now))) result }
    {
        let inputs = inputs::check(tables, currents, references)?;
        let levels = inputs::levels(legs, applied);
        Ok(solved(&inputs, &levels))
    }
}
