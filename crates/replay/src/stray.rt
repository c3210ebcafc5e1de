// Orders that are none of a controller's own.
ghost use Rattle.controller.specs.View.{Does, closes};

use crate::twin::Twin;
use controller::calls::Reply;
use controller::order::{Closing, Denied};
use controller::state::Controller;
use legs::leg::Leg;
use legs::measure::Measure;

// Presents an order of this identity that the controller did not make, or that it has closed.
pub(crate) fn close_stray<M: Measure, A: Leg, B: Leg, C: Leg>(
    controller: &mut Controller<M, A, B, C>,
    closing: Closing,
    identity: u16,
) -> Reply<M::Cost>
    ensures { Does controller.old (closes closing identity) result controller.new }
{
    let (twin, order) = Twin::with_order(identity);
    match controller.close(closing, order) {
        Ok(()) => Reply::Granted,
        Err(Denied { fault, order }) => {
            twin.take_back(order);
            Reply::Denied(fault)
        }
    }
}
