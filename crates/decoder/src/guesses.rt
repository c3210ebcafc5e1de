// The guesses that a search may start from, and the better of them.
ghost use Rattle.std.specs.Prelude.{◌≡◌, ◌<◌, length, take};
ghost use Rattle.decoder.specs.Sequences.{leg_of, cost_to};
ghost use Rattle.decoder.specs.Guesses.{distance, distance_at, moved_on};
ghost use Rattle.decoder.specs.Computed.{nearer, nearest_below, or_zero, rounded, may_be, permitted_to};
ghost use Rattle.decoder.specs.Outcome.{Started};
ghost use Rattle.decoder.specs.Tasks.{Holds, posed_by};

use crate::problem::Problem;
use legs::measure::Measure;
use legs::phases::Phases;

// A sequence with its cost. Past the horizon the array has zeros: it is as long as the longest, so that nothing is allocated.
#[derive(Clone, Copy)]
pub(crate) struct Priced<C> {
    pub(crate) sequence: [u8; 15],
    pub(crate) cost: C,
}

// How far a level lies from x.
fn gap(x: i32, level: i8) -> u64
    ensures { result ≡ distance x level }
{
    (i64::from(x) - 4096 * i64::from(level)).unsigned_abs()
}

impl<L: Phases, M: Measure> Problem<'_, L, M> {
    // How far the level of p lies from the unconstrained optimum in entry j.
    fn distance(&self, j: usize, p: u8) -> u64
        requires { j < 15 }
        ensures { result ≡ distance_at (posed_by L.Phases M.Measure self.now) j p }
    {
        gap(self.task.unconstrained[j], self.level(j, p))
    }

    // The nearer of a position found before, if any, and a higher one; where they are as near, the one found before.
    fn nearer(&self, j: usize, found: Option<u8>, p: u8) -> Option<u8>
        requires { j < 15 }
        ensures { result ≡ nearer (posed_by L.Phases M.Measure self.now) j found p }
    {
        match found {
            Some(q) if self.distance(j, q) <= self.distance(j, p) => Some(q),
            _ => Some(p),
        }
    }

    // The nearest position that entry j can move to, and of those as near the lowest.
    fn nearest(&self, j: usize, from: u8) -> u8
        requires { j < 15 }
        ensures { let P = posed_by L.Phases M.Measure self.now in result ≡ or_zero (nearest_below P j from (leg_of P j).count) }
    {
        (0..self.positions(j))
            .filter(|&p| self.permits(j, from, p))
            .fold(None, |found, p| self.nearer(j, found, p))
            .unwrap_or(0)
    }

    // The rounded guess. By index, since each entry moves from one that was written three before it.
    fn rounded_guess(&self) -> [u8; 15]
        ensures { let P = posed_by L.Phases M.Measure self.now in Holds P.entries result (rounded P) }
    {
        let mut guess = [0u8; 15];
        for j in 0..self.entries() {
            guess[j] = self.nearest(j, self.origin(&guess, j));
        }
        guess
    }

    // Whether entry j is permitted.
    fn may_be(&self, q: &[u8; 15], j: usize) -> bool
        requires { j < 15 }
        ensures { result ≡ may_be (posed_by L.Phases M.Measure self.now) q.now j }
    {
        q[j] < self.positions(j) && self.permits(j, self.origin(q, j), q[j])
    }

    // Whether each entry is permitted.
    fn is_permitted(&self, q: &[u8; 15]) -> bool
        ensures { let P = posed_by L.Phases M.Measure self.now in result ≡ permitted_to P q.now P.entries }
    {
        (0..self.entries()).all(|j| self.may_be(q, j))
    }

    // A sequence one stage later, its last stage standing twice.
    fn moved_on(&self, q: &[u8; 15]) -> [u8; 15]
        ensures long { length q.now ≡ 15 }
        ensures moved { let P = posed_by L.Phases M.Measure self.now in Holds P.entries result (moved_on (take P.entries q.now)) }
    {
        let n = self.entries();
        let mut moved = [0u8; 15];
        moved[..n].copy_from_slice(&q[..n]);
        moved.copy_within(3..n, 0);
        moved
    }

    // A sequence with its cost. A `fold` would ask what a measure answers of any cost, and it is asked of reached ones alone.
    fn priced(&self, sequence: [u8; 15]) -> Priced<M::Cost>
        ensures same { result.sequence ≡ sequence }
        ensures cost { let P = posed_by L.Phases M.Measure self.now in result.cost ≡ cost_to P sequence P.entries }
    {
        let mut cost = self.measure.start();
        for j in 0..self.entries() {
            cost = self.measure.after(cost, self.difference_of(&sequence, j));
        }
        Priced { sequence, cost }
    }

    // The start of a search: the remembered guess where it is permitted and cheaper, and otherwise the rounded one.
    pub(crate) fn start(&self) -> Priced<M::Cost>
        ensures { Started (posed_by L.Phases M.Measure self.now) result }
    {
        let rounded = self.priced(self.rounded_guess());
        let Some(planned) = &self.task.remembered else {
            return rounded;
        };
        let moved = self.moved_on(planned);
        if !self.is_permitted(&moved) {
            return rounded;
        }
        let moved = self.priced(moved);
        if self.measure.compare(moved.cost, rounded.cost).is_lt() {
            moved
        } else {
            rounded
        }
    }
}
