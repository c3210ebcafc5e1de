// Calls on a controller and what came of them, as a recording holds them.
use decoder::Mark;
use fault::Fault;

// A call with its arguments. An order that is fired or withdrawn is named by the identity that it bears, and a phase by its
// number, since a caller may hand in any, and one that is no phase is refused.
#[derive(Clone, Copy, PartialEq, Eq, Debug)]
pub enum Call<'a> {
    Load(&'a [u8]),
    Limit(u32),
    Bar(u8),
    Free(u8),
    Plan {
        currents: [i32; 2],
        references: &'a [i32],
    },
    Fire(u16),
    Withdraw(u16),
}

// What is read of a plan. Of its entries the first `len` count: an array and a length,
// since a reading is copied, which the library's lists of fixed room are not.
#[derive(Clone, Copy, PartialEq, Eq, Debug)]
pub struct Reading<K> {
    pub entries: [u8; 15],
    pub len: usize,
    pub cost: K,
    pub count: u32,
    pub mark: Mark,
}

// What came of a call: it was granted, granted with a plan that was then read, or denied. A recording holds these three: a
// `Result` of an `Option` would leave them without names.
#[derive(Clone, Copy, PartialEq, Eq, Debug)]
pub enum Reply<K> {
    Granted,
    Planned(Reading<K>),
    Denied(Fault),
}

// What a call other than a plan answered, as a reply.
impl<K> From<Result<(), Fault>> for Reply<K> {
    ghost use Rattle.std.specs.Prelude.{◌≡◌};
    ghost use Rattle.controller.specs.View.{reply};

    ghost from_gives = { λ answer r. r ≡ reply answer };

    fn from(answer: Result<(), Fault>) -> Reply<K> {
        match answer {
            Ok(()) => Reply::Granted,
            Err(fault) => Reply::Denied(fault),
        }
    }
}

// A call and what came of it.
#[derive(Clone, Copy, PartialEq, Eq, Debug)]
pub struct Event<'a, K> {
    pub call: Call<'a>,
    pub reply: Reply<K>,
}
