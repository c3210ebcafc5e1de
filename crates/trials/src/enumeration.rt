// The answer by the definitions: everything permitted is listed, and every due node is decided by asking all of it.
// There is no search here.
use crate::outcome::Cost;
use crate::problem::{Pricing, Problem};
use crate::word::Word;
use std::alloc::{AllocError, Global};

// A beginning with what it costs.
#[derive(Clone, Copy)]
pub(crate) struct Beginning<'a> {
    pub(crate) word: &'a [u8],
    pub(crate) cost: Cost,
}

// Where the start came from.
#[derive(Clone, Copy, PartialEq, Eq)]
pub(crate) enum Origin {
    NothingRemembered,
    NotPermitted,
    NotCheaper,
    Remembered,
}

// All that an answer is taken from, whatever the limit.
#[derive(Drop)]
pub(crate) struct Listing<'a> {
    pub(crate) problem: &'a Problem,
    pub(crate) start: Beginning<'a>,
    pub(crate) origin: Origin,
    pub(crate) due: Vec<Beginning<'a>>,
}

impl Problem {
    // Where entry j moves from: the applied position of its phase, or the entry a stage before.
    fn moved_from(&self, word: &[u8], j: usize) -> Option<u8> {
        self.applied.iter().chain(word).nth(j).copied()
    }

    fn permits(&self, word: &[u8]) -> bool {
        let from = self.applied.iter().chain(word);
        word.iter()
            .zip(from)
            .enumerate()
            .all(|(j, (to, from))| self.leg(j).permits(*from, *to))
    }

    // The size of the difference of row j.
    fn size(&self, word: &[u8], j: usize) -> u64 {
        let reached = self
            .row(j)
            .iter()
            .zip(word)
            .enumerate()
            .fold(0i64, |sum, (k, (coupling, position))| {
                let level = self.leg(k).level(*position);
                sum.saturating_add(i64::from(*coupling).saturating_mul(level))
            });
        let target = self.target.get(j).copied().unwrap_or(0);
        i64::from(target).abs_diff(reached)
    }

    fn cost(&self, word: &[u8]) -> Cost {
        let sizes = (0..word.len()).map(|j| self.size(word, j));
        match self.pricing {
            Pricing::Squared => Cost::Squares(sizes.fold(0u64, |sum, size| {
                sum.saturating_add(size.saturating_mul(size))
            })),
            Pricing::PeakFirst => {
                let (peak, sum) = sizes.fold((0u64, 0u64), |(peak, sum), size| {
                    (peak.max(size), sum.saturating_add(size))
                });
                Cost::PeakAndSum(peak, sum)
            }
        }
    }

    // Whether a beginning has every entry.
    pub(crate) fn is_full(&self, q: &Beginning) -> bool {
        q.word.len() == self.entries()
    }

    fn beginning<'a>(&self, word: &'a [u8]) -> Beginning<'a> {
        Beginning {
            word,
            cost: self.cost(word),
        }
    }

    // The permitted position for the entry after a beginning whose level is nearest to the unconstrained optimum, the
    // lower one where two are as near.
    fn nearest(&self, word: &[u8]) -> Option<u8> {
        let j = word.len();
        let leg = self.leg(j);
        let from = self.moved_from(word, j)?;
        let wanted = i64::from(*self.unconstrained.get(j)?);
        (0..leg.positions())
            .filter(|to| leg.permits(from, *to))
            .min_by_key(|to| wanted.abs_diff(leg.level(*to).saturating_mul(4096)))
    }

    // A loop, since each entry moves from an earlier one of the guess itself.
    fn rounded_guess(&self) -> Option<Word> {
        let mut word = Word::new();
        for _ in 0..self.entries() {
            let nearest = self.nearest(&word)?;
            word.try_push(nearest).ok()?;
        }
        Some(word)
    }

    // The remembered guess: each entry is the one of a stage later, and in the last stage that stage's own.
    fn remembered_guess(&self, remembered: &[u8; 15]) -> Option<Word> {
        let all = remembered.get(..self.entries())?;
        let (_, later) = all.split_first_chunk::<3>()?;
        let (_, last) = all.split_last_chunk::<3>()?;
        let mut word = Word::try_from(later).ok()?;
        word.try_extend_from_slice(last).ok()?;
        Some(word)
    }

    // The start, and where it came from.
    fn start<'a>(&self, all: &[Beginning<'a>]) -> Option<(Beginning<'a>, Origin)> {
        let rounded = among(all, &self.rounded_guess()?)?;
        let Some(remembered) = self.remembered else {
            return Some((rounded, Origin::NothingRemembered));
        };
        let guess = self.remembered_guess(&remembered)?;
        Some(match among(all, &guess) {
            None => (rounded, Origin::NotPermitted),
            Some(moved) if moved.cost < rounded.cost => (moved, Origin::Remembered),
            Some(_) => (rounded, Origin::NotCheaper),
        })
    }
}

// The one of these that a list of positions is.
fn among<'a>(all: &[Beginning<'a>], word: &Word) -> Option<Beginning<'a>> {
    all.iter().find(|q| q.word == word.as_slice()).copied()
}

// Whether nothing undercuts q: neither the start nor any full sequence that stands before it.
fn is_open(start: &Beginning, full: &[Beginning], q: &Beginning) -> bool {
    q.cost <= start.cost && !full.iter().any(|f| f.cost < q.cost && f.word < q.word)
}

// The due nodes of a problem, in order, and its start. None where the definitions give no start.
pub(crate) fn list_due<'a>(
    heap: Global,
    problem: &'a Problem,
    words: &'a [Word],
) -> Result<Option<Listing<'a>>, AllocError> {
    let all: Vec<Beginning> = words
        .iter()
        .map(|word| word.as_slice())
        .filter(|word| problem.permits(word))
        .map(|word| problem.beginning(word))
        .collect(heap)?;
    let Some((start, origin)) = problem.start(&all) else {
        return Ok(None);
    };
    let full: Vec<Beginning> = all
        .iter()
        .copied()
        .filter(|q| problem.is_full(q))
        .collect(heap)?;
    let due = all
        .iter()
        .copied()
        .filter(|q| match q.word {
            [parent @ .., _] if !parent.is_empty() => {
                is_open(&start, &full, &problem.beginning(parent))
            }
            _ => true,
        })
        .collect(heap)?;
    Ok(Some(Listing {
        problem,
        start,
        origin,
        due,
    }))
}
