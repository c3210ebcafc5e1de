// Orders of other identities, made where a recording presents one: such an order can come from another controller alone.
ghost use Rattle.std.specs.Prelude.{◌≡◌, true, None};
ghost use Rattle.file.specs.File.{file_refusal, horizon_of};

use controller::order::Order;
use controller::state::Controller;
use legs::squared::Squared;
use legs::stepped::Stepped;

// A table file of one stage, with ones on the generator's diagonal, at offsets 122, 130 and 142, and zeros elsewhere.
fn smallest_file() -> [u8; 146]
    ensures taken { file_refusal result ≡ None }
    ensures stage { horizon_of result ≡ 1 }
{
    let mut file = [0; 146];
    file[0] = b'S';
    file[1] = b'D';
    file[2] = b'T';
    file[3] = 1;
    file[5] = 1;
    file[122] = 1;
    file[130] = 1;
    file[142] = 1;
    file
}

// A controller whose order is out.
#[derive(Drop)]
pub(crate) struct Twin {
    controller: Controller<Squared, Stepped, Stepped, Stepped>,
    ghost pending: { controller.pending ≡ true },
}

impl Twin {
    // A twin of this identity, and its order.
    pub(crate) fn with_order(identity: u16) -> (Twin, Order)
        ensures order { result.1.identity ≡ identity }
        ensures identity { result.0.controller.identity ≡ identity }
    {
        let mut controller = Controller::new(
            identity,
            Squared,
            Stepped::npc(),
            Stepped::npc(),
            Stepped::npc(),
        );
        let _ = controller.load(&smallest_file());
        let order = controller.plan([0, 0], &[0, 0]).unwrap();
        (Twin { controller }, order)
    }

    // Takes the order back.
    pub(crate) fn take_back(mut self, order: Order)
        requires { order.identity ≡ self.controller.identity }
    {
        self.controller.withdraw(order).unwrap();
    }
}
