// The same problem handed to the decoder, over the legs and measures that it ships with.
use crate::leg::{Description, Kind};
use crate::outcome::Outcome;
use crate::problem::{Pricing, Problem};
use arrayvec::ArrayVec;
use decoder::decode;
use decoder::task::Task;
use fault::Fault;
use legs::barred::Barred;
use legs::leg::Leg;
use legs::listed::Listed;
use legs::peak_first::PeakFirst;
use legs::phases::{Legs, Phases};
use legs::squared::Squared;
use legs::stepped::Stepped;

// A leg of one of the kinds that there are, each of the library's own type.
#[derive(Clone, Copy)]
enum Built {
    Stepped(Stepped),
    Listed(Listed),
    BarredStepped(Barred<Stepped>),
    BarredListed(Barred<Listed>),
}

fn under_bar<L>(below: L, bar: bool) -> Barred<L> {
    let mut leg = Barred::new(below);
    leg.set_bar(bar);
    leg
}

impl TryFrom<&Description> for Built {
    type Error = Fault;

    fn try_from(leg: &Description) -> Result<Built, Fault> {
        Ok(match &leg.kind {
            Kind::Stepped { reach, stride } => {
                let below = Stepped::new(*reach, *stride)?;
                leg.bar.map_or(Built::Stepped(below), |bar| {
                    Built::BarredStepped(under_bar(below, bar))
                })
            }
            Kind::Listed { positions, rest } => {
                let mut levels = ArrayVec::<i8, 5>::new();
                let mut masks = ArrayVec::<u8, 5>::new();
                // there are no more than five, so both find room
                let _ = levels.extend(positions.iter().map(|position| position.level));
                let _ = masks.extend(positions.iter().map(|position| position.mask));
                let below = Listed::new(&levels, &masks, *rest)?;
                leg.bar.map_or(Built::Listed(below), |bar| {
                    Built::BarredListed(under_bar(below, bar))
                })
            }
        })
    }
}

// What is done with a leg, whichever kind it is of. A type that could be any of the kinds would be a leg too, and one call would
// do; but then the decoder would never be tried over the types that it is used with.
macro_rules! with_leg {
    ($built:expr, $leg:ident => $done:expr) => {
        match $built {
            Built::Stepped($leg) => $done,
            Built::Listed($leg) => $done,
            Built::BarredStepped($leg) => $done,
            Built::BarredListed($leg) => $done,
        }
    };
}

fn posed(problem: &Problem) -> Option<Task> {
    Task::new(
        problem.stages,
        problem.applied,
        problem.triangle,
        problem.target,
        problem.unconstrained,
        problem.remembered,
    )
}

fn over_legs<L: Phases>(problem: &Problem, legs: &L, limit: u32) -> Option<Outcome> {
    let task = posed(problem)?;
    Some(match problem.pricing {
        Pricing::Squared => decode(legs, &Squared, &task, limit).into(),
        Pricing::PeakFirst => decode(legs, &PeakFirst, &task, limit).into(),
    })
}

fn over_two<A: Leg + Copy, B: Leg + Copy>(
    problem: &Problem,
    a: A,
    b: B,
    limit: u32,
) -> Option<Outcome> {
    let [_, _, c] = &problem.legs;
    with_leg!(Built::try_from(c).ok()?, c => over_legs(problem, &Legs { a, b, c }, limit))
}

fn over_one<A: Leg + Copy>(problem: &Problem, a: A, limit: u32) -> Option<Outcome> {
    let [_, b, _] = &problem.legs;
    with_leg!(Built::try_from(b).ok()?, b => over_two(problem, a, b, limit))
}

// What the decoder answers. None where a leg or the task is refused, as none of those tried may be.
pub(crate) fn decoded(problem: &Problem, limit: u32) -> Option<Outcome> {
    let [a, _, _] = &problem.legs;
    with_leg!(Built::try_from(a).ok()?, a => over_one(problem, a, limit))
}
