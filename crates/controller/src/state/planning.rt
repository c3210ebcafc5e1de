// How a plan is made: the period's equations, and then the decoder.
ghost use Rattle.std.specs.Prelude.{◌≡◌, ℕ, ◌≤◌, length, pos, slice_index_or};
ghost use Rattle.std.specs.Option.{option_map};
ghost use Rattle.fault.specs.Refusals.{Answers};
ghost use Rattle.file.specs.Tables.{data_of};
ghost use Rattle.decoder.specs.Limits.{Within, most_coupling};
ghost use Rattle.period.specs.Sums.{EachWithin};
ghost use Rattle.controller.specs.Law.{PlanKept};
ghost use Rattle.controller.specs.Logbook.{plan_refusal};
ghost use Rattle.controller.specs.Problems.{generator, padded};
ghost use Rattle.controller.specs.View.{book_of, reading_of, setup_of};
ghost use Rattle.controller.specs.declared.calls.Reply.TheVariants.{Planned};

use super::Controller;
use crate::sequence::{Plan, Sequence};
use decoder::decode;
use decoder::task::Task;
use fault::{Fault, Rule};
use file::layout::Table;
use file::tables::Tables;
use legs::leg::Leg;
use legs::measure::Measure;
use period::Period;

// Some entries at the front of an array, with zeros behind them.
fn with_zeros(entries: &[i32]) -> [i32; 120]
    requires { length entries.now ≤ 120 }
    ensures { result ≡ padded 120 entries.now }
{
    let mut all = [0; 120];
    all[..entries.len()].copy_from_slice(entries);
    all
}

// The generator's rows, with zeros past the last.
fn triangle(tables: &Tables) -> [i32; 120]
    ensures value { result ≡ generator (data_of tables.now) }
    ensures bound { (i : ℕ) → Within most_coupling (slice_index_or result i (pos 0)) }
    ensures long { length result ≡ 120 }
{
    with_zeros(tables.entries(Table::Generator))
}

// The array of a remembered sequence.
fn entries_of(remembered: &Option<Sequence>) -> Option<[u8; 15]>
    ensures { result ≡ option_map (λ q. q.entries) remembered.now }
{
    remembered.as_ref().map(
        |q| -> [u8; 15]
            ensures { result ≡ q.now.entries }
        { q.entries },
    )
}

impl<M: Measure, A: Leg, B: Leg, C: Leg> Controller<M, A, B, C> {
    // The task of one period.
    fn task(&self, tables: &Tables, period: &Period) -> Task
        requires small { EachWithin 129761280 period.now.target }
        requires target { length period.now.target ≡ 15 }
        requires unconstrained { length period.now.unconstrained ≡ 15 }
        ensures stages { result.stages ≡ (data_of tables.now).horizon }
        ensures applied { result.applied ≡ self.now.applied }
        ensures triangle { result.triangle ≡ generator (data_of tables.now) }
        ensures rows { (result.target ≡ period.now.target) × (result.unconstrained ≡ period.now.unconstrained) }
        ensures remembered { result.remembered ≡ option_map (λ q. q.entries) self.now.remembered }
    {
        Task {
            stages: tables.horizon().stages() as u8,
            applied: self.applied,
            triangle: triangle(tables),
            target: period.target,
            unconstrained: period.unconstrained,
            remembered: entries_of(&self.remembered),
        }
    }

    // The plan for one period, which is not entered yet.
    pub(super) fn search(
        &self,
        currents: &[i32; 2],
        references: &[i32],
    ) -> Result<Plan<M::Cost>, Fault>
        ensures { Answers (plan_refusal (option_map data_of self.now.tables) currents.now references.now) (λ p. PlanKept (setup_of M.Measure.meaning A.Leg.model B.Leg.model C.Leg.model self.now) (book_of self.now) (option_map data_of self.now.tables) currents.now references.now (Planned (reading_of p))) result }
    {
        let Some(tables) = &self.tables else {
            return Err(Rule::LoadedTables.into());
        };
        let period = Period::of(tables, &self.legs, &self.applied, currents, references)?;
        let task = self.task(tables, &period);
        let answer = decode(&self.legs, &self.measure, &task, self.limit);
        Ok(Plan {
            sequence: Sequence::new(answer.sequence, task.stages),
            cost: answer.cost,
            count: answer.count,
            mark: answer.mark,
        })
    }
}
