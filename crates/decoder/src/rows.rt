// The rows of V over the positions of a sequence.
ghost use Rattle.std.specs.Prelude.{◌≡◌, ◌<◌, ◌≤◌, ◌-ℤ◌, ◌*ℤ◌};
ghost use Rattle.legs.specs.Measure.{Small};
ghost use Rattle.decoder.specs.Limits.{Within};
ghost use Rattle.decoder.specs.Sequences.{term, left_over, difference};
ghost use Rattle.decoder.specs.Tasks.{posed_by};

use crate::problem::Problem;
use legs::measure::Measure;
use legs::phases::Phases;

// An entry of V times a level.
fn scaled(entry: i32, level: i8) -> i64
    ensures { result ≡ entry *ℤ level }
{
    i64::from(entry) * i64::from(level)
}

impl<L: Phases, M: Measure> Problem<'_, L, M> {
    // V's entry in row j and column k, times the level of p.
    fn term(&self, j: usize, k: usize, p: u8) -> i64
        requires { (k ≤ j) × (j < 15) }
        ensures low { Within 2097152 result }
        ensures is { result ≡ term (posed_by L.Phases M.Measure self.now) j k p }
    {
        scaled(self.task.triangle[j * (j + 1) / 2 + k], self.level(k, p))
    }

    // What the entries before j leave of row j's target.
    pub(crate) fn remainder(&self, at: &[u8; 15], j: usize) -> i64
        requires { j < 15 }
        ensures { result ≡ left_over (posed_by L.Phases M.Measure self.now) at.now j j }
    {
        // a `for`, since the library bounds no partial sum of a `sum` of signed numbers
        let mut left = i64::from(self.task.target[j]);
        for (k, p) in at[..j].iter().enumerate() {
            left -= self.term(j, k, *p);
        }
        left
    }

    // The difference of row j, whose remainder is `left`, where entry j is p.
    pub(crate) fn difference(&self, left: i64, j: usize, p: u8) -> i64
        requires row { j < 15 }
        requires small { Small left }
        ensures { result ≡ left -ℤ term (posed_by L.Phases M.Measure self.now) j j p }
    {
        left - self.term(j, j, p)
    }

    // The difference of row j of a sequence.
    pub(crate) fn difference_of(&self, q: &[u8; 15], j: usize) -> i64
        requires { j < 15 }
        ensures is { result ≡ difference (posed_by L.Phases M.Measure self.now) q.now j }
        ensures low { Small result }
    {
        self.difference(self.remainder(q, j), j, q[j])
    }
}
