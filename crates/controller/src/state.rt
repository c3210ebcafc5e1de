// What a controller keeps.
ghost use Rattle.std.specs.Prelude.{◌≡◌, length};
ghost use Rattle.controller.specs.Book.{Stands-prop, book};
ghost use Rattle.controller.specs.Law.{Stands};
ghost use Rattle.controller.specs.Problems.{built};

mod methods;
mod planning;

use crate::sequence::{Plan, Sequence};
use file::tables::Tables;
use legs::barred::Barred;
use legs::leg::Leg;
use legs::measure::Measure;
use legs::phases::Legs;

// A controller of three legs. Its orders bear its identity, so that no two controllers of a program may share one.
#[derive(Drop)]
pub struct Controller<M: Measure, A: Leg, B: Leg, C: Leg> {
    identity: u16,
    measure: M,
    legs: Legs<Barred<A>, Barred<B>, Barred<C>>,
    tables: Option<Tables>,
    limit: u32,
    applied: [u8; 3],
    remembered: Option<Sequence>,
    plan: Option<Plan<M::Cost>>,
    // an order is open; a flag beside the plan, which can still be read once the order is closed
    pending: bool,
    ghost three: { length applied ≡ 3 },
    ghost stands: { Stands (built (M.Measure.meaning measure) (A.Leg.model legs.a.below) (B.Leg.model legs.b.below) (C.Leg.model legs.c.below)) (book legs tables limit applied remembered plan pending) } by { Stands-prop _ _ },
}

// What a controller is set to: the stages of its tables, if any are loaded, the most nodes that a plan may visit, and by
// phase the bars and the applied positions.
#[derive(Clone, Copy, PartialEq, Eq, Debug)]
pub struct Settings {
    pub horizon: Option<usize>,
    pub limit: u32,
    pub barred: [bool; 3],
    pub applied: [u8; 3],
    pub order_is_open: bool,
}
