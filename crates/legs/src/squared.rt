// The squared measure.
ghost use Rattle.std.specs.Prelude.{ℕ, ◌^◌, ◌<◌, ◌≤◌};
ghost use Rattle.legs.specs.Measure.{Reached};
ghost use Rattle.legs.specs.Measures.{squared as squared_model};
ghost use Rattle.legs.specs.Orders.{squared_lawful};
ghost use Rattle.std.proofs.Common.{rules};

use crate::limits::{MOST_DIFFERENCE, MOST_ROWS};
use crate::measure::Measure;
use std::cmp::Ordering;

// The sum of the squares of the differences.
#[derive(Clone, Copy, PartialEq, Eq, Debug, Default)]
pub struct Squared;

impl Squared {
    // The highest cost that fifteen rows can reach.
    pub fn highest() -> u64
        ensures reached { Reached squared_model 15 result }
        ensures highest { (cost : ℕ) → Reached squared_model 15 cost → cost ≤ result }
        ensures below { result < 2 ^ 59 }
    {
        MOST_ROWS * MOST_DIFFERENCE * MOST_DIFFERENCE
    }
}

impl Measure for Squared {
    type Cost = u64;

    ghost meaning = { λ _. squared_model };

    ghost lawful = { λ measure. squared_lawful };

    ghost room = { Prim.search rules };

    fn start(&self) -> u64 {
        0
    }

    fn after(&self, cost: u64, difference: i64) -> u64 {
        let size = difference.unsigned_abs();
        cost + size * size
    }

    fn compare(&self, a: u64, b: u64) -> Ordering {
        a.cmp(&b)
    }
}
