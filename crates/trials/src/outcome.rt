// What a decoding comes to, as the definitions have it.
use crate::enumeration::{Beginning, Listing};
use decoder::{Answer, Mark};
use std::array;

// What a sequence costs under either measure.
#[derive(Clone, Copy, PartialEq, Eq, PartialOrd, Ord)]
pub(crate) enum Cost {
    Squares(u64),
    PeakAndSum(u64, u64),
}

impl From<u64> for Cost {
    fn from(squares: u64) -> Cost {
        Cost::Squares(squares)
    }
}

impl From<(u64, u64)> for Cost {
    fn from((peak, sum): (u64, u64)) -> Cost {
        Cost::PeakAndSum(peak, sum)
    }
}

// An answer in a form that both sides are brought to.
#[derive(Clone, Copy, PartialEq, Eq)]
pub(crate) struct Outcome {
    pub(crate) sequence: [u8; 15],
    pub(crate) cost: Cost,
    pub(crate) count: u32,
    pub(crate) mark: Mark,
}

impl<C: Into<Cost>> From<Answer<C>> for Outcome {
    fn from(answer: Answer<C>) -> Outcome {
        Outcome {
            sequence: answer.sequence,
            cost: answer.cost.into(),
            count: answer.count,
            mark: answer.mark,
        }
    }
}

// An outcome, and which ties it had to settle.
#[derive(Clone, Copy)]
pub(crate) struct Settled {
    pub(crate) outcome: Outcome,
    // another sequence that was visited is as cheap as the start, and nothing is cheaper
    pub(crate) start_tied: bool,
    // two that were visited are as cheap as each other, and nothing is cheaper
    pub(crate) visited_tied: bool,
    // no sequence that was visited is as cheap as the start
    pub(crate) start_kept: bool,
}

impl<'a> Listing<'a> {
    // How many nodes are due.
    pub(crate) fn count(&self) -> u32 {
        u32::try_from(self.due.len()).unwrap_or(u32::MAX)
    }

    // The nodes that are visited under a limit.
    fn visited(&self, limit: u32) -> &[Beginning<'a>] {
        let limit = usize::try_from(limit).unwrap_or(usize::MAX);
        self.due.get(..limit).unwrap_or(self.due.as_slice())
    }

    // The answer under a limit: of the cheapest full sequences that are visited the last, or else the start.
    pub(crate) fn settle(&self, limit: u32) -> Settled {
        let visited = self.visited(limit);
        let cost = visited
            .iter()
            .filter(|q| self.problem.is_full(q))
            .fold(self.start.cost, |lowest, q| lowest.min(q.cost));
        let is_cheapest = |q: &&Beginning| self.problem.is_full(q) && q.cost == cost;
        let last = visited.iter().filter(is_cheapest).last();
        let ties = visited.iter().filter(is_cheapest).count();
        let best = last.unwrap_or(&self.start);
        Settled {
            outcome: Outcome {
                sequence: array::from_fn(|j| best.word.get(j).copied().unwrap_or(0)),
                cost,
                count: limit.min(self.count()),
                mark: if self.count() <= limit {
                    Mark::Certified
                } else {
                    Mark::Stopped
                },
            },
            start_tied: cost == self.start.cost && best.word != self.start.word,
            visited_tied: ties > 1,
            start_kept: ties == 0,
        }
    }
}
