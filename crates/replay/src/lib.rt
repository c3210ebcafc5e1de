// Recordings, replayed: a list of calls on a controller from its first day.
#![tactic(auto)]

ghost use Rattle.std.specs.Prelude.{[], ◌∷◌, IfOk};
ghost use Rattle.controller.specs.Law.{Run};
ghost use Rattle.controller.specs.Problems.{built};

use crate::session::Session;
use controller::calls::{Call, Event};
use controller::state::Controller;
use legs::leg::Leg;
use legs::measure::Measure;
use std::alloc::{AllocError, Global};

mod session;
mod stray;
mod twin;

// Makes the calls one after the other on a controller from its first day, and gives each with what came of it.
pub fn run<'a, M: Measure + Drop, A: Leg + Drop, B: Leg + Drop, C: Leg + Drop>(
    heap: Global,
    identity: u16,
    measure: M,
    a: A,
    b: B,
    c: C,
    calls: &[Call<'a>],
) -> Result<Vec<Event<'a, M::Cost>>, AllocError>
    ensures { IfOk result (λ events. Run (built (M.Measure.meaning measure) (A.Leg.model a) (B.Leg.model b) (C.Leg.model c)) identity ((A.Leg.model a).rest ∷ ((B.Leg.model b).rest ∷ ((C.Leg.model c).rest ∷ []))) calls.now events.items) }
{
    let mut events = Vec::with_capacity(heap, calls.len())?;
    let mut session = Session::new(Controller::new(identity, measure, a, b, c));
    for call in calls {
        let reply = session.perform(*call);
        events.push_reserved(Event { call: *call, reply });
    }
    session.end();
    Ok(events)
}
