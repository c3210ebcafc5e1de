// Orders.
ghost use Rattle.std.specs.Prelude.{◌≡◌};

use fault::Fault;

// The right to apply a plan's first stage. It bears the identity of the controller that made the plan.
// It is not `Drop`: a program has to spend it, on `fire` or on `withdraw`, and can do so once only.
#[derive(Debug)]
pub struct Order {
    pub(crate) identity: u16,
}

impl Order {
    // Whose order it is.
    pub fn identity(&self) -> u16
        ensures { result ≡ self.now.identity }
    {
        self.identity
    }
}

// How an order is closed.
#[derive(Clone, Copy, PartialEq, Eq, Debug)]
pub enum Closing {
    // its plan is applied
    Fire,
    // nothing is applied
    Withdraw,
}

// An order that was turned down, with the reason. The order is as good as before.
#[derive(Debug)]
pub struct Denied {
    pub fault: Fault,
    pub order: Order,
}
