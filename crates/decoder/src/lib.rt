// The decoder: the cheapest sequence of switch positions, by a sphere search that counts the nodes it visits.
#![tactic(auto)]

ghost use Rattle.decoder.specs.Outcome.{AsComputed, AsDefined, AsPromised};
ghost use Rattle.decoder.specs.Tasks.{entries_of, posed, ZeroPast};

mod guesses;
mod problem;
mod rows;
mod search;
pub mod task;
pub mod theorems;

use crate::problem::Problem;
use crate::task::Task;
use legs::measure::Measure;
use legs::phases::Phases;

// How a search ended: with every due node visited, or at its limit with more to come.
#[derive(Clone, Copy, PartialEq, Eq, Debug)]
pub enum Mark {
    Certified,
    Stopped,
}

// What a search found. Past the horizon the sequence has zeros: the array is as long as the longest, so that nothing is allocated.
#[derive(Clone, Copy, PartialEq, Eq, Debug)]
pub struct Answer<C> {
    pub sequence: [u8; 15],
    pub cost: C,
    pub count: u32,
    pub mark: Mark,
}

// The cheapest sequence for a task, found within a limit of nodes.
// Where each phase stands in a position that its leg has, the answer is the one that is defined, and keeps what is promised.
pub fn decode<L: Phases, M: Measure>(
    legs: &L,
    measure: &M,
    task: &Task,
    limit: u32,
) -> Answer<M::Cost>
    ensures computed { AsComputed (posed (L.Phases.models legs.now) (M.Measure.meaning measure.now) task.now) limit result }
    ensures defined { AsDefined (posed (L.Phases.models legs.now) (M.Measure.meaning measure.now) task.now) limit result }
    ensures promised { AsPromised (posed (L.Phases.models legs.now) (M.Measure.meaning measure.now) task.now) limit result }
    ensures rest { ZeroPast (entries_of task.now) result.sequence }
{
    let problem = Problem {
        legs,
        measure,
        task,
    };
    problem.search_from(problem.start(), limit)
}
