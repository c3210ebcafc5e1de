// A task as it is posed to three legs under a measure.
ghost use Rattle.std.specs.Prelude.{◌≡◌, ◌%◌, ◌<◌, ◌≤◌};
ghost use Rattle.decoder.specs.Sequences.{leg_of, origin};
ghost use Rattle.decoder.specs.Tasks.{posed_by};

use crate::task::Task;
use legs::measure::Measure;
use legs::phases::Phases;

// What is decoded. An entry or a row is an index below 15, and each question about one asks for that: the search goes up
// and down over them, and a type for an index that may do both would say no more than the clause does.
#[derive(Clone, Copy)]
pub(crate) struct Problem<'a, L, M> {
    pub(crate) legs: &'a L,
    pub(crate) measure: &'a M,
    pub(crate) task: &'a Task,
}

// The phase whose position entry j is, as a number: what three legs are asked by.
fn phase_of(j: usize) -> u8
    ensures { result ≡ j % 3 }
{
    (j % 3) as u8
}

// `posed_by` says in each contract which problem it is. A `Model` would say it once, but its value would name the costs of an open
// measure, which the value of a model cannot.
impl<L: Phases, M: Measure> Problem<'_, L, M> {
    // How many entries a sequence has.
    pub(crate) fn entries(&self) -> usize
        ensures is { result ≡ (posed_by L.Phases M.Measure self.now).entries }
        ensures some { 3 ≤ result }
        ensures few { result ≤ 15 }
    {
        3 * usize::from(self.task.stages)
    }

    // How many positions entry j may be chosen from.
    pub(crate) fn positions(&self, j: usize) -> u8
        ensures { result ≡ (leg_of (posed_by L.Phases M.Measure self.now) j).count }
    {
        self.legs.positions(phase_of(j))
    }

    // The output level of a position in entry j.
    pub(crate) fn level(&self, j: usize, position: u8) -> i8
        ensures { result ≡ (leg_of (posed_by L.Phases M.Measure self.now) j).level position }
    {
        self.legs.level(phase_of(j), position)
    }

    // Whether entry j's leg permits a move.
    pub(crate) fn permits(&self, j: usize, from: u8, to: u8) -> bool
        ensures { result ≡ (leg_of (posed_by L.Phases M.Measure self.now) j).permits from to }
    {
        self.legs.permits(phase_of(j), from, to)
    }

    // Where entry j moves from.
    pub(crate) fn origin(&self, at: &[u8; 15], j: usize) -> u8
        requires { j < 15 }
        ensures { result ≡ origin (posed_by L.Phases M.Measure self.now) at.now j }
    {
        if j < 3 {
            self.task.applied[j]
        } else {
            at[j - 3]
        }
    }
}
