// What a line came to.
use controller::calls::Reading;

// Nothing was asked for; it was done; or it was done and there is a plan. An Option in an Option would leave these without names.
#[derive(Clone, Copy)]
pub(crate) enum Answer {
    Nothing,
    Done,
    Planned(Reading<u64>),
}
