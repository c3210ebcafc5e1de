// The tree search.
ghost use Rattle.std.specs.Prelude.{◌≡◌};
ghost use Rattle.std.specs.Ordering.{is_gt};
ghost use Rattle.legs.specs.Measure.{Reached};
ghost use Rattle.decoder.specs.Outcome.{AsComputed, Started};
ghost use Rattle.decoder.specs.Tasks.{posed_by, ZeroPast};

use crate::guesses::Priced;
use crate::problem::Problem;
use crate::{Answer, Mark};
use legs::measure::Measure;
use legs::phases::Phases;

impl<L: Phases, M: Measure> Problem<'_, L, M> {
    // Whether a costs more than b. A node that costs as much as the best so far is still entered. A function of its own, so that an
    // edit of this one comparison is held against a contract.
    fn dearer(&self, a: M::Cost, b: M::Cost) -> bool
        requires first { Reached (M.Measure.meaning self.now.measure.now) 15 a }
        requires second { Reached (M.Measure.meaning self.now.measure.now) 15 b }
        ensures { result ≡ is_gt ((M.Measure.meaning self.now.measure.now).compare a b) }
    {
        self.measure.compare(a, b).is_gt()
    }

    // Visits the due nodes in order, from a start of known cost, until none is left or the limit is met.
    // Level j of the search tries positions for entry j; `costs` and `left` keep, for each level, the cost of the rows above
    // and what the entries above leave of its row's target; they are arrays of their own, since `at` is copied whole and the
    // invariant speaks of each alone.
    pub(crate) fn search_from(&self, start: Priced<M::Cost>, limit: u32) -> Answer<M::Cost>
        requires { Started (posed_by L.Phases M.Measure self.now) start }
        ensures computed { AsComputed (posed_by L.Phases M.Measure self.now) limit result }
        ensures rest { ZeroPast (posed_by L.Phases M.Measure self.now).entries result.sequence }
    {
        let n = self.entries();
        let mut at = [0u8; 15];
        let mut costs = [self.measure.start(); 16];
        let mut left = [0i64; 15];
        left[0] = self.remainder(&at, 0);
        // Two variables and no struct of both, and the answer made where the search ends: tried otherwise, and the check makes no
        // proof of a loop that puts such a struct in place, nor of one that ends in a mark alone.
        let mut best = start.sequence;
        let mut best_cost = start.cost;
        let mut j: usize = 0;
        let mut count: u32 = 0;
        'search: loop {
            'back: loop {
                let p = at[j];
                if p < self.positions(j) {
                    if self.permits(j, self.origin(&at, j), p) {
                        if count == limit {
                            break 'search Answer {
                                sequence: best,
                                cost: best_cost,
                                count,
                                mark: Mark::Stopped,
                            };
                        }
                        break 'back;
                    }
                    at[j] = p + 1;
                } else {
                    if j == 0 {
                        break 'search Answer {
                            sequence: best,
                            cost: best_cost,
                            count,
                            mark: Mark::Certified,
                        };
                    }
                    j -= 1;
                    at[j] += 1;
                }
            }
            count += 1;
            let p = at[j];
            let row = self.difference(left[j], j, p);
            let cost = self.measure.after(costs[j], row);
            if self.dearer(cost, best_cost) {
                at[j] = p + 1;
            } else if j + 1 == n {
                best = at;
                best_cost = cost;
                at[j] = p + 1;
            } else {
                j += 1;
                at[j] = 0;
                costs[j] = cost;
                left[j] = self.remainder(&at, j);
            }
        }
    }
}
