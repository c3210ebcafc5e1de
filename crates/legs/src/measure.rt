// The interface of a measure.
ghost use Rattle.std.specs.Prelude.{◌≡◌};
ghost use Rattle.legs.specs.Measure.{MeasureModel, Lawful, Reached, Room, Small, at_most};

use std::cmp::Ordering;

// A measure of how far the rows of a sequence differ from their target. That a cost is reached is asked at each call and is no
// type of its own: such a type would be narrower than `Cost`, and whoever writes a measure would have to wrap and unwrap it.
pub trait Measure {
    type Cost: Copy;

    ghost meaning: { Self → MeasureModel Self.Cost };

    // The cost before any row.
    fn start(&self) -> Self::Cost
        ensures { result ≡ (meaning self.now).start };

    // The cost once a further row's difference is taken in.
    fn after(&self, cost: Self::Cost, difference: i64) -> Self::Cost
        requires reached { Reached (meaning self.now) 14 cost }
        requires small { Small difference }
        ensures { result ≡ (meaning self.now).after cost difference };

    // Which of two costs is lower.
    fn compare(&self, a: Self::Cost, b: Self::Cost) -> Ordering
        requires first { Reached (meaning self.now) 15 a }
        requires second { Reached (meaning self.now) 15 b }
        ensures { result ≡ (meaning self.now).compare a b };

    // Whether a costs at most b.
    fn at_most(&self, a: Self::Cost, b: Self::Cost) -> bool
        requires first { Reached (meaning self.now) 15 a }
        requires second { Reached (meaning self.now) 15 b }
        ensures { result ≡ at_most (meaning self.now) a b }
    {
        self.compare(a, b).is_le()
    }

    ghost lawful: { (measure : Self) → Lawful (meaning measure) };

    ghost room: { Room Self.Cost.row };
}
