// The layer that bars a leg.
ghost use Rattle.std.specs.Prelude.{◌≡◌, false};
ghost use Rattle.legs.specs.Kinds.{barred as barred_model};
ghost use Rattle.std.proofs.Common.{rules};

use crate::leg::Leg;

// A leg of any kind and a bar over it. While the bar is set the leg may only hold.
#[derive(Clone, Copy, PartialEq, Eq, Debug)]
pub struct Barred<L> {
    below: L,
    bar: bool,
}

impl<L> Barred<L> {
    // The leg with its bar lifted.
    pub fn new(below: L) -> Barred<L>
        ensures { (result.below ≡ below) × (result.bar ≡ false) }
    {
        Barred { below, bar: false }
    }

    // Sets the bar, or lifts it.
    pub fn set_bar(&mut self, bar: bool)
        ensures { (self.new.below ≡ self.old.below) × (self.new.bar ≡ bar) }
    {
        self.bar = bar;
    }

    // Whether the bar is set.
    pub fn is_barred(&self) -> bool
        ensures { result ≡ self.now.bar }
    {
        self.bar
    }

    // The leg under the bar.
    pub fn below(&self) -> &L
        ensures { result.now ≡ self.now.below }
    {
        &self.below
    }
}

impl<L: Leg> Leg for Barred<L> {
    ghost model = { λ leg. barred_model leg.bar (L.Leg.model leg.below) };

    ghost lawful = { Prim.search rules };

    fn positions(&self) -> u8 {
        self.below.positions()
    }

    fn level(&self, position: u8) -> i8 {
        self.below.level(position)
    }

    fn permits(&self, from: u8, to: u8) -> bool {
        self.below.permits(from, to) && (!self.bar || from == to)
    }

    fn rest(&self) -> u8 {
        self.below.rest()
    }
}
