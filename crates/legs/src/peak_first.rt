// The peak-first measure.
ghost use Rattle.std.specs.Prelude.{ℕ, ◌≤◌};
ghost use Rattle.legs.specs.Measure.{Reached};
ghost use Rattle.legs.specs.Measures.{peak_first as peak_first_model};
ghost use Rattle.legs.specs.Orders.{peak_first_lawful};
ghost use Rattle.std.proofs.Common.{rules};

use crate::limits::{MOST_DIFFERENCE, MOST_ROWS};
use crate::measure::Measure;
use std::cmp::Ordering;

// The largest difference, and where that is equal the sum of the differences, all without their signs.
#[derive(Clone, Copy, PartialEq, Eq, Debug, Default)]
pub struct PeakFirst;

impl PeakFirst {
    // The highest cost that fifteen rows can reach, in its peak and in its sum.
    pub fn highest() -> (u64, u64)
        ensures reached { Reached peak_first_model 15 result }
        ensures peak { (cost : ℕ × ℕ) → Reached peak_first_model 15 cost → cost.0 ≤ result.0 }
        ensures sum { (cost : ℕ × ℕ) → Reached peak_first_model 15 cost → cost.1 ≤ result.1 }
    {
        (MOST_DIFFERENCE, MOST_ROWS * MOST_DIFFERENCE)
    }
}

impl Measure for PeakFirst {
    type Cost = (u64, u64);

    ghost meaning = { λ _. peak_first_model };

    ghost lawful = { λ measure. peak_first_lawful };

    ghost room = { Prim.search rules };

    fn start(&self) -> (u64, u64) {
        (0, 0)
    }

    fn after(&self, cost: (u64, u64), difference: i64) -> (u64, u64) {
        let (peak, sum) = cost;
        let size = difference.unsigned_abs();
        (peak.max(size), sum + size)
    }

    fn compare(&self, a: (u64, u64), b: (u64, u64)) -> Ordering {
        a.cmp(&b)
    }
}
