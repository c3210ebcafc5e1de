// The listed leg.
ghost use Rattle.std.specs.Prelude.{◌≡◌, ℕ, ◌<◌, ◌≤◌, true, length, take, None, slice_index_or};
ghost use Rattle.std.proofs.Common.{sym, ◌∙◌, arith, length-take-le};
ghost use Rattle.std.proofs.lemmas.List.{length-map};
ghost use Rattle.fault.specs.Refusals.{Answers, lowest_failing};
ghost use Rattle.legs.specs.Positions.{levels_of, masks_of};
ghost use Rattle.legs.specs.Kinds.{bit, listed as listed_model};
ghost use Rattle.legs.specs.Refusals.{level_stands, listed_refusal, mask_stands};
ghost use Rattle.legs.specs.ListedLaws.{listed_lawful};

use crate::leg::Leg;
use fault::{Fault, Rule};
use std::array;

// A position: its output level, and the mask of the positions that it may move to.
#[derive(Clone, Copy, PartialEq, Eq, Debug)]
struct Position {
    level: i8,
    targets: u8,
}

// What stands in for a position that a leg lacks.
const LACKING: Position = Position {
    level: 0,
    targets: 0,
};

// A leg by its positions, whose levels rise. The first `count` places of the table are in use. An array and a count, as a leg
// is copied and keeps to fixed memory, and the library's lists of fixed room are not copied.
#[derive(Clone, Copy, PartialEq, Eq, Debug)]
pub struct Listed {
    count: u8,
    table: [Position; 5],
    rest: u8,
    ghost sized: { (2 ≤ count) × (count ≤ 5) },
    ghost full: { length table ≡ 5 },
    ghost rests: { rest < count },
    ghost rising: { (p : ℕ) → p < count → level_stands (levels_of (take count table)) p ≡ true },
    ghost holding: { (p : ℕ) → p < count → mask_stands count (masks_of (take count table)) p ≡ true },
}

impl Listed {
    // The leg of these levels, masks and rest, or the refusal of them. The levels and the masks come as two lists, since one
    // may be longer than the other and is refused for that.
    pub fn new(levels: &[i8], masks: &[u8], rest: u8) -> Result<Listed, Fault>
        ensures { Answers (listed_refusal levels.now masks.now rest) (λ leg. (levels_of (take leg.count leg.table) ≡ levels.now) × (masks_of (take leg.count leg.table) ≡ masks.now) × (leg.rest ≡ rest)) result }
    {
        let n = levels.len();
        if !(2..=5).contains(&n) || masks.len() != n {
            return Err(Rule::LevelCount.into());
        }
        if let Some(position) = first_bad_level(levels) {
            return Err(Rule::RisingLevels.at(position));
        }
        if let Some(position) = first_bad_mask(masks) {
            return Err(Rule::HoldingMasks.at(position));
        }
        if usize::from(rest) >= n {
            return Err(Rule::RestPosition.into());
        }
        Ok(Listed {
            count: n as u8,
            table: tabled(levels, masks),
            rest,
        })
    }

    // The position of a number, or what stands in for one that the leg lacks.
    fn position(&self, position: u8) -> Position
        ensures { result ≡ slice_index_or (take self.now.count self.now.table) position LACKING }
    {
        let positions = &self.table[..usize::from(self.count)];
        positions
            .get(usize::from(position))
            .copied()
            .unwrap_or(LACKING)
    }
}

// The table of these levels and masks.
fn tabled(levels: &[i8], masks: &[u8]) -> [Position; 5]
    requires { (length levels.now ≤ 5) × (length masks.now ≡ length levels.now) }
    ensures full { length result ≡ 5 }
    ensures levels { levels_of (take (length levels.now) result) ≡ levels.now }
    ensures masks { masks_of (take (length levels.now) result) ≡ masks.now }
{
    array::from_fn(|p| Position {
        level: levels.get(p).copied().unwrap_or(0),
        targets: masks.get(p).copied().unwrap_or(0),
    })
}

// Whether a level may stand where it does.
fn level_stands(levels: &[i8], position: usize) -> bool
    requires { position < length levels.now }
    ensures { result ≡ level_stands levels.now position }
{
    let level = levels[position];
    (-2..=2).contains(&level) && (position == 0 || levels[position - 1] < level)
}

// The lowest position whose level may not stand. It and the search among the masks are one `find` each: over a test as a parameter
// a contract could not name the test.
fn first_bad_level(levels: &[i8]) -> Option<usize>
    ensures { result ≡ lowest_failing (level_stands levels.now) (length levels.now) }
{
    (0..levels.len()).find(|&position| !level_stands(levels, position))
}

// Whether a mask has a bit.
fn has_bit(mask: u8, k: u8) -> bool
    ensures { result ≡ bit mask k }
{
    k < 8 && (mask >> k) % 2 == 1
}

// Whether a mask may stand where it does.
fn mask_stands(masks: &[u8], position: usize) -> bool
    requires { (position < length masks.now) × (length masks.now ≤ 5) }
    ensures { result ≡ mask_stands (length masks.now) masks.now position }
{
    let mask = masks[position];
    has_bit(mask, position as u8) && mask < 1 << masks.len()
}

// The lowest position whose mask may not stand.
fn first_bad_mask(masks: &[u8]) -> Option<usize>
    requires { length masks.now ≤ 5 }
    ensures { result ≡ lowest_failing (mask_stands (length masks.now) masks.now) (length masks.now) }
{
    (0..masks.len()).find(|&position| !mask_stands(masks, position))
}

impl Leg for Listed {
    ghost model = { λ leg. listed_model (levels_of (take leg.count leg.table)) (masks_of (take leg.count leg.table)) leg.rest };

    ghost lawful = { λ leg.
        let fits : leg.count ≤ length leg.table = omega arith in
        let long : length (take leg.count leg.table) ≡ leg.count = length-take-le leg.count leg.table fits in
        let levels : length (levels_of (take leg.count leg.table)) ≡ leg.count = length-map (take leg.count leg.table) _ ∙ long in
        let masks : length (masks_of (take leg.count leg.table)) ≡ leg.count = length-map (take leg.count leg.table) _ ∙ long in
        listed_lawful _ _ leg.rest (omega arith) (omega arith) (masks ∙ sym levels) (omega arith) (λ p h. leg.rising p (omega arith)) (λ p h. rw levels (leg.holding p (omega arith))) };

    fn positions(&self) -> u8 {
        self.count
    }

    fn level(&self, position: u8) -> i8 {
        self.position(position).level
    }

    fn permits(&self, from: u8, to: u8) -> bool {
        has_bit(self.position(from).targets, to)
    }

    fn rest(&self) -> u8 {
        self.rest
    }
}
