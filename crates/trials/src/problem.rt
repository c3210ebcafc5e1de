// The problems that are tried.
use crate::leg::Description;
use crate::random::Random;
use std::array;

#[derive(Clone, Copy, PartialEq, Eq)]
pub(crate) enum Pricing {
    Squared,
    PeakFirst,
}

#[derive(Drop)]
pub(crate) struct Problem {
    pub(crate) stages: u8,
    pub(crate) legs: [Description; 3],
    pub(crate) pricing: Pricing,
    pub(crate) applied: [u8; 3],
    pub(crate) triangle: [i32; 120],
    pub(crate) target: [i32; 15],
    pub(crate) unconstrained: [i32; 15],
    pub(crate) remembered: Option<[u8; 15]>,
}

impl Problem {
    // How many entries a full sequence has.
    pub(crate) fn entries(&self) -> usize {
        usize::from(self.stages).saturating_mul(3)
    }

    // The leg of entry j.
    pub(crate) fn leg(&self, j: usize) -> &Description {
        let [a, b, c] = &self.legs;
        match j % 3 {
            0 => a,
            1 => b,
            _ => c,
        }
    }

    // Row j of the triangle: it has j + 1 entries, and 1 + 2 + .. + j stand above it.
    pub(crate) fn row(&self, j: usize) -> &[i32] {
        let above = j.saturating_mul(j.saturating_add(1)) / 2;
        self.triangle
            .get(above..above.saturating_add(j).saturating_add(1))
            .unwrap_or_default()
    }
}

// Where the rows of the triangle end, in their diagonal entries.
const ROW_ENDS: [usize; 15] = [0, 2, 5, 9, 14, 20, 27, 35, 44, 54, 65, 77, 90, 104, 119];

// How the numbers of a problem are drawn. The first two make many costs equal.
#[derive(Clone, Copy)]
enum Style {
    Halves,
    Zeros,
    Plain,
    Extreme,
}

impl Style {
    fn any(random: &mut Random) -> Style {
        match random.below(8u64) {
            0..=3 => Style::Halves,
            4 => Style::Zeros,
            5..=6 => Style::Plain,
            _ => Style::Extreme,
        }
    }

    fn coupling(self, random: &mut Random) -> i32 {
        match self {
            Style::Halves => random.multiple(2048, 2),
            Style::Zeros => 0,
            Style::Plain => random.within(8192),
            Style::Extreme => random.multiple(1_048_576, 1),
        }
    }

    fn diagonal(self, random: &mut Random) -> i32 {
        match self {
            Style::Halves => 4096,
            Style::Zeros => random.multiple(4096, 1),
            Style::Plain => random.within(8192).saturating_abs().saturating_add(1),
            Style::Extreme => 1_048_576,
        }
    }

    fn aim(self, random: &mut Random) -> i32 {
        match self {
            Style::Halves => random.multiple(2048, 4),
            Style::Zeros => random.multiple(2048, 1),
            Style::Plain => random.within(20_000),
            Style::Extreme => random.multiple(129_761_280, 1),
        }
    }

    // Rows past the horizon hold numbers too, which no answer may rest on.
    fn triangle(self, random: &mut Random) -> [i32; 120] {
        array::from_fn(|place| {
            if ROW_ENDS.contains(&place) {
                self.diagonal(random)
            } else {
                self.coupling(random)
            }
        })
    }
}

fn optimum(random: &mut Random, target: i32) -> i32 {
    match random.below(8u64) {
        0..=3 => target,
        4..=5 => random.multiple(2048, 5),
        6 => random.within(10_000),
        _ => random.multiple(i32::MAX, 1),
    }
}

// A position for each entry, drawn with the one that its phase stands in at hand.
// A loop: over `from_fn` the proof that `draw` may be called for each entry did not close.
fn guess<F: Fn(&mut Random, u8) -> u8>(random: &mut Random, applied: &[u8; 3], draw: F) -> [u8; 15]
    requires { F.IsAlwaysCallable draw }
{
    let mut guess = [0u8; 15];
    for (entry, near) in guess.iter_mut().zip(applied.iter().cycle()) {
        *entry = draw(random, *near);
    }
    guess
}

// None, or positions of which a few are such that no leg has them.
fn remembered(random: &mut Random, applied: &[u8; 3]) -> Option<[u8; 15]> {
    match random.below(6u64) {
        0 => None,
        1 => Some(guess(random, applied, |random, _| random.below(7))),
        2 => Some(guess(random, applied, |_, near| near)),
        3 => Some(guess(random, applied, |random, near| {
            near.saturating_add(random.below(2))
        })),
        4 => Some(guess(random, applied, |random, near| {
            near.saturating_sub(random.below(2))
        })),
        _ => Some(guess(random, applied, |random, _| random.below(3))),
    }
}

// A problem of so many stages, whose legs are drawn one after the other.
pub(crate) fn any_problem<F: Fn(&mut Random) -> Description>(
    random: &mut Random,
    stages: u8,
    leg: &F,
) -> Problem
    requires { F.IsAlwaysCallable leg.now }
{
    let legs = [leg(random), leg(random), leg(random)];
    let style = Style::any(random);
    let applied = legs.each_ref().map(|leg| random.below(leg.positions()));
    let pricing = if random.once_in(2) {
        Pricing::Squared
    } else {
        Pricing::PeakFirst
    };
    let target = array::from_fn(|_| style.aim(random));
    Problem {
        stages,
        legs,
        pricing,
        applied,
        triangle: style.triangle(random),
        target,
        unconstrained: target.map(|target| optimum(random, target)),
        remembered: remembered(random, &applied),
    }
}
