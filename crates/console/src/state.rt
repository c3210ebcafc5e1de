// What a console holds.
ghost use Rattle.std.specs.Prelude.{◌≡◌, false};

use controller::state::Controller;
use legs::squared::Squared;
use legs::stepped::Stepped;

mod calls;
mod methods;

// A controller of three NPC legs.
pub(crate) type Npc = Controller<Squared, Stepped, Stepped, Stepped>;

// A console: a table file, and a controller of identity 1 with three NPC legs under the squared measure. Between two lines no
// order is open.
#[derive(Drop)]
pub struct Console<'a> {
    file: &'a [u8],
    controller: Npc,
    ghost identity: { controller.identity ≡ 1 },
    ghost idle: { controller.pending ≡ false },
    ghost leg_a: { (controller.legs.a.below.reach ≡ 1) × (controller.legs.a.below.stride ≡ 1) },
    ghost leg_b: { (controller.legs.b.below.reach ≡ 1) × (controller.legs.b.below.stride ≡ 1) },
    ghost leg_c: { (controller.legs.c.below.reach ≡ 1) × (controller.legs.c.below.stride ≡ 1) },
}
