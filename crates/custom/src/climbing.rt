// A leg of a user's own.
ghost use Rattle.custom.specs.Climbing.{climbing as climbing_model};
ghost use Rattle.std.proofs.Common.{rules};

use legs::leg::Leg;

// Three levels, climbed one at a time and dropped from at once.
#[derive(Clone, Copy, PartialEq, Eq, Debug, Default)]
pub struct Climbing;

impl Leg for Climbing {
    ghost model = { λ _. climbing_model };

    ghost lawful = { Prim.search rules };

    fn positions(&self) -> u8 {
        3
    }

    fn level(&self, position: u8) -> i8 {
        match position {
            0 => -1,
            2 => 1,
            _ => 0,
        }
    }

    fn permits(&self, from: u8, to: u8) -> bool {
        from < 3 && to < 3 && to <= from + 1
    }

    fn rest(&self) -> u8 {
        1
    }
}
