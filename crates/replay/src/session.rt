// A controller with the order that is out.
ghost use Rattle.std.specs.Prelude.{◌≡◌, false, IsSome};
ghost use Rattle.replay.specs.Held.{HeldBy, HeldBy-prop};

use crate::stray::close_stray;
use controller::calls::{Call, Reply};
use controller::order::{Closing, Order};
use controller::state::Controller;
use legs::leg::Leg;
use legs::measure::Measure;

// A controller, and its own order while one is open.
pub(crate) struct Session<M: Measure, A: Leg, B: Leg, C: Leg> {
    controller: Controller<M, A, B, C>,
    held: Option<Order>,
    ghost holds: { HeldBy controller.identity controller.pending held } by { HeldBy-prop _ _ _ },
}

impl<M: Measure, A: Leg, B: Leg, C: Leg> Session<M, A, B, C> {
    ghost use Rattle.controller.specs.View.{Does, closes, setup_of};
    ghost use Rattle.controller.specs.declared.calls.Call.TheVariants.{Plan as PlanCall};
    ghost use Rattle.replay.specs.Turns.{Turns};

    // A controller that has no order open.
    pub(crate) fn new(controller: Controller<M, A, B, C>) -> Self
        requires { controller.pending ≡ false }
        ensures { result.controller ≡ controller }
    {
        Session {
            controller,
            held: None,
        }
    }

    // Closes the order that is held.
    fn close_held(&mut self, closing: Closing) -> Reply<M::Cost>
        requires { IsSome self.old.held }
        ensures { Does self.old.controller (closes closing self.old.controller.identity) result self.new.controller }
    {
        let order = self.held.take().unwrap();
        self.controller.close(closing, order).unwrap();
        Reply::Granted
    }

    // Closes the order that is held, if it bears this identity, and otherwise presents a stray one.
    fn close(&mut self, closing: Closing, identity: u16) -> Reply<M::Cost>
        ensures { Does self.old.controller (closes closing identity) result self.new.controller }
    {
        match &self.held {
            Some(order) if order.identity() == identity => self.close_held(closing),
            _ => close_stray(&mut self.controller, closing, identity),
        }
    }

    // Plans, holds the order where the plan is granted, and reads the plan.
    fn plan(&mut self, currents: [i32; 2], references: &[i32]) -> Reply<M::Cost>
        ensures { Turns (setup_of M.Measure.meaning A.Leg.model B.Leg.model C.Leg.model self.old.controller) self.old.controller (PlanCall currents references.entry) result self.new.controller }
    {
        match self.controller.plan(currents, references) {
            Ok(order) => match self.held.replace(order) {
                None => self
                    .controller
                    .reading()
                    .map_or(Reply::Granted, Reply::Planned),
                Some(_) => unreachable!(),
            },
            Err(fault) => Reply::Denied(fault),
        }
    }

    // Makes one call.
    pub(crate) fn perform(&mut self, call: Call) -> Reply<M::Cost>
        ensures { Turns (setup_of M.Measure.meaning A.Leg.model B.Leg.model C.Leg.model self.old.controller) self.old.controller call.entry result self.new.controller }
    {
        match call {
            Call::Load(file) => self.controller.load(file).into(),
            Call::Limit(nodes) => self.controller.limit(nodes).into(),
            Call::Bar(phase) => self.controller.bar(phase).into(),
            Call::Free(phase) => self.controller.free(phase).into(),
            Call::Plan {
                currents,
                references,
            } => self.plan(currents, references),
            Call::Fire(identity) => self.close(Closing::Fire, identity),
            Call::Withdraw(identity) => self.close(Closing::Withdraw, identity),
        }
    }
}

impl<M: Measure + Drop, A: Leg + Drop, B: Leg + Drop, C: Leg + Drop> Session<M, A, B, C> {
    // Withdraws the order that is still out.
    pub(crate) fn end(self) {
        let Session {
            mut controller,
            held,
        } = self;
        if let Some(order) = held {
            controller.withdraw(order).unwrap();
        }
    }
}
