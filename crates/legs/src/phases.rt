// Three legs, one for each phase.
ghost use Rattle.std.specs.Prelude.{◌≡◌, ℕ};
ghost use Rattle.legs.specs.Bars.{OneBar};
ghost use Rattle.legs.specs.Model.{LegModel, Lawful};
ghost use Rattle.legs.specs.Phases.{by_phase};
ghost use Rattle.std.proofs.Common.{rules};

use crate::barred::Barred;
use crate::leg::Leg;

// Legs by phase: phases 0 and 1 have the first two, and every other phase the third. A phase is any number and no enum: a
// narrower type would ask more of whoever has a number and asks.
pub trait Phases {
    ghost models: { Self → ℕ → LegModel };

    // How many positions a phase's leg has.
    fn positions(&self, phase: u8) -> u8
        ensures { result ≡ (models self.now phase).count };

    // The output level of a position of a phase's leg.
    fn level(&self, phase: u8, position: u8) -> i8
        ensures { result ≡ (models self.now phase).level position };

    // Whether a phase's leg permits a move.
    fn permits(&self, phase: u8, from: u8, to: u8) -> bool
        ensures { result ≡ (models self.now phase).permits from to };

    // The position that a phase's leg rests in.
    fn rest(&self, phase: u8) -> u8
        ensures { result ≡ (models self.now phase).rest };

    ghost lawful: { (legs : Self) (phase : ℕ) → Lawful (models legs phase) };
}

// Three legs, each of a kind of its own. Every question matches on the phase: the legs are of three types, and what could be any
// one of them would be a `dyn Leg`, in place of the calls that the search has inlined.
#[derive(Clone, Copy, PartialEq, Eq, Debug)]
pub struct Legs<A, B, C> {
    pub a: A,
    pub b: B,
    pub c: C,
}

impl<A: Leg, B: Leg, C: Leg> Phases for Legs<A, B, C> {
    ghost models = { λ legs. by_phase (A.Leg.model legs.a) (B.Leg.model legs.b) (C.Leg.model legs.c) };

    ghost lawful = { Prim.search rules };

    fn positions(&self, phase: u8) -> u8 {
        match phase {
            0 => self.a.positions(),
            1 => self.b.positions(),
            _ => self.c.positions(),
        }
    }

    fn level(&self, phase: u8, position: u8) -> i8 {
        match phase {
            0 => self.a.level(position),
            1 => self.b.level(position),
            _ => self.c.level(position),
        }
    }

    fn permits(&self, phase: u8, from: u8, to: u8) -> bool {
        match phase {
            0 => self.a.permits(from, to),
            1 => self.b.permits(from, to),
            _ => self.c.permits(from, to),
        }
    }

    fn rest(&self, phase: u8) -> u8 {
        match phase {
            0 => self.a.rest(),
            1 => self.b.rest(),
            _ => self.c.rest(),
        }
    }
}

impl<A, B, C> Legs<Barred<A>, Barred<B>, Barred<C>> {
    // Sets or lifts the bar of one phase.
    pub fn set_bar(&mut self, phase: u8, bar: bool)
        ensures { OneBar phase bar self.old self.new }
    {
        match phase {
            0 => self.a.set_bar(bar),
            1 => self.b.set_bar(bar),
            _ => self.c.set_bar(bar),
        }
    }
}
