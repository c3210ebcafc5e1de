// Legs by their description alone. None of the legs of crate `legs` has a part in these answers.
use crate::random::Random;
use arrayvec::ArrayVec;

// A position of a listed leg. Bit k of the mask permits the move to position k.
#[derive(Clone, Copy, Default)]
pub(crate) struct Position {
    pub(crate) level: i8,
    pub(crate) mask: u8,
}

impl Position {
    fn permits(&self, to: u8) -> bool {
        self.mask.checked_shr(u32::from(to)).unwrap_or(0) % 2 == 1
    }
}

#[derive(Drop)]
pub(crate) enum Kind {
    Stepped {
        reach: u8,
        stride: u8,
    },
    Listed {
        positions: ArrayVec<Position, 5>,
        rest: u8,
    },
}

// A leg, and the bar over it where there is such a layer.
#[derive(Drop)]
pub(crate) struct Description {
    pub(crate) kind: Kind,
    pub(crate) bar: Option<bool>,
}

impl Description {
    pub(crate) fn positions(&self) -> u8 {
        match &self.kind {
            Kind::Stepped { reach, .. } => reach.saturating_mul(2).saturating_add(1),
            Kind::Listed { positions, .. } => u8::try_from(positions.len()).unwrap_or(0),
        }
    }

    pub(crate) fn level(&self, position: u8) -> i64 {
        if position >= self.positions() {
            return 0;
        }
        match &self.kind {
            Kind::Stepped { reach, .. } => i64::from(position).saturating_sub(i64::from(*reach)),
            Kind::Listed { positions, .. } => positions
                .get(usize::from(position))
                .map_or(0, |position| i64::from(position.level)),
        }
    }

    // Whether it permits a move, and not the move back.
    pub(crate) fn is_one_way(&self, from: u8, to: u8) -> bool {
        self.permits(from, to) && !self.permits(to, from)
    }

    pub(crate) fn permits(&self, from: u8, to: u8) -> bool {
        if from >= self.positions() || to >= self.positions() {
            return false;
        }
        if self.bar == Some(true) && from != to {
            return false;
        }
        match &self.kind {
            Kind::Stepped { stride, .. } => {
                self.level(from).abs_diff(self.level(to)) <= u64::from(*stride)
            }
            Kind::Listed { positions, .. } => positions
                .get(usize::from(from))
                .is_some_and(|position| position.permits(to)),
        }
    }
}

// A leg of any kind.
pub(crate) fn any_leg(random: &mut Random) -> Description {
    leg_of(random, |random| random.below(2u8).saturating_add(1), 5)
}

// A leg of at most three positions.
pub(crate) fn small_leg(random: &mut Random) -> Description {
    leg_of(random, |_| 1, 3)
}

// A leg of five positions that permits every move.
pub(crate) fn widest_leg() -> Description {
    Description {
        kind: Kind::Stepped {
            reach: 2,
            stride: 4,
        },
        bar: None,
    }
}

// A stepped leg of the reach that is drawn for it, or a listed leg of at most so many positions.
fn leg_of<F: FnOnce(&mut Random) -> u8>(random: &mut Random, reach: F, most: u8) -> Description
    requires { F.IsAlwaysCallable reach }
{
    let kind = if random.once_in(2) {
        Kind::Stepped {
            reach: reach(random),
            stride: random.below(4u8).saturating_add(1),
        }
    } else {
        listed_of(random, most)
    };
    Description {
        kind,
        bar: any_bar(random),
    }
}

// No layer, or one whose bar is mostly lifted.
fn any_bar(random: &mut Random) -> Option<bool> {
    if random.once_in(2) {
        None
    } else {
        Some(random.once_in(4))
    }
}

// A listed leg of at most so many positions. A move back may be missing.
fn listed_of(random: &mut Random, most: u8) -> Kind {
    let count = random.below(most.saturating_sub(1)).saturating_add(2);
    let mut positions = ArrayVec::from([Position::default(); 5]);
    positions.truncate(usize::from(count));
    raise(random, &mut positions);
    let masks = 1u8.checked_shl(u32::from(count)).unwrap_or(0);
    for (position, holding) in positions.iter_mut().zip([1, 2, 4, 8, 16]) {
        position.mask = random.below(masks) | holding;
    }
    Kind::Listed {
        positions,
        rest: random.below(count),
    }
}

// Gives at most five positions levels from -2 to 2 that rise. A loop, since what one skips the next ones cannot skip.
fn raise(random: &mut Random, positions: &mut [Position]) {
    let mut spare = 5u8.saturating_sub(u8::try_from(positions.len()).unwrap_or(5));
    let mut next = -2i8;
    for position in positions {
        let skipped = random.below(spare.saturating_add(1));
        spare = spare.saturating_sub(skipped);
        position.level = next.saturating_add(i8::try_from(skipped).unwrap_or(0));
        next = position.level.saturating_add(1);
    }
}
