// The stepped leg.
ghost use Rattle.std.specs.Prelude.{◌≡◌, ◌≤◌};
ghost use Rattle.fault.specs.Refusals.{Answers};
ghost use Rattle.legs.specs.Kinds.{stepped as stepped_model};
ghost use Rattle.legs.specs.Refusals.{stepped_refusal};
ghost use Rattle.std.proofs.Common.{rules, arith};

use crate::leg::Leg;
use fault::{Fault, Rule};

// A leg whose levels go in ones from -`reach` to `reach`, and whose moves go at most `stride` levels.
#[derive(Clone, Copy, PartialEq, Eq, Debug)]
pub struct Stepped {
    reach: u8,
    stride: u8,
    ghost reaches: { (1 ≤ reach) × (reach ≤ 2) },
    ghost strides: { (1 ≤ stride) × (stride ≤ 4) },
}

impl Stepped {
    // The leg of a reach and a stride, or the refusal of one of them.
    pub fn new(reach: u8, stride: u8) -> Result<Stepped, Fault>
        ensures { Answers (stepped_refusal reach stride) (λ leg. (leg.reach ≡ reach) × (leg.stride ≡ stride)) result }
    {
        if !(1..=2).contains(&reach) {
            return Err(Rule::LegReach.into());
        }
        if !(1..=4).contains(&stride) {
            return Err(Rule::LegStride.into());
        }
        Ok(Stepped { reach, stride })
    }

    // The neutral-point-clamped leg: three levels, moved through one at a time.
    pub fn npc() -> Stepped
        ensures { (result.reach ≡ 1) × (result.stride ≡ 1) }
    {
        Stepped {
            reach: 1,
            stride: 1,
        }
    }
}

impl Leg for Stepped {
    ghost model = { λ leg. stepped_model leg.reach leg.stride };

    ghost lawful = { first_of (Prim.search rules, Prim.grind (arith, Self.row.coded.inj)) };

    fn positions(&self) -> u8 {
        2 * self.reach + 1
    }

    fn level(&self, position: u8) -> i8 {
        if position < self.positions() {
            position as i8 - self.reach as i8
        } else {
            0
        }
    }

    fn permits(&self, from: u8, to: u8) -> bool {
        let count = self.positions();
        from < count && to < count && from <= to + self.stride && to <= from + self.stride
    }

    fn rest(&self) -> u8 {
        self.reach
    }
}
