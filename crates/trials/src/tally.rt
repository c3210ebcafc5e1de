// What has been tried so far.
use crate::enumeration::{Listing, Origin};
use crate::leg::{Description, Kind};
use crate::outcome::Settled;
use crate::problem::Pricing;
use decoder::Mark;
use std::fmt;

// How often something held, or how many there were.
#[derive(Clone, Copy, Default)]
pub(crate) struct Counter(u64);

impl Counter {
    pub(crate) fn add<N: Into<u64>>(&mut self, n: N) {
        self.0 = self.0.saturating_add(n.into());
    }
}

impl fmt::Display for Counter {
    fn fmt<W: fmt::Write>(&self, f: &mut fmt::Formatter<W>) -> fmt::Result {
        self.0.fmt(f)
    }
}

// Counts side by side.
#[derive(Clone, Copy, Default)]
struct Four([Counter; 4]);

impl fmt::Display for Four {
    fn fmt<W: fmt::Write>(&self, f: &mut fmt::Formatter<W>) -> fmt::Result {
        let [a, b, c, d] = self.0;
        write!(f, "{a}, {b}, {c}, {d}")
    }
}

// Problems by what they hold.
#[derive(Clone, Copy, Default)]
pub(crate) struct Problems {
    one_stage: Counter,
    two_stages: Counter,
    squared: Counter,
    peak_first: Counter,
    mixed: Counter,
    due: Counter,
}

impl Problems {
    pub(crate) fn add(&mut self, listing: &Listing) {
        let problem = listing.problem;
        self.one_stage.add(problem.stages == 1);
        self.two_stages.add(problem.stages == 2);
        self.squared.add(problem.pricing == Pricing::Squared);
        self.peak_first.add(problem.pricing == Pricing::PeakFirst);
        self.mixed.add(is_mixed(&problem.legs));
        self.due.add(listing.count());
    }
}

impl fmt::Display for Problems {
    fn fmt<W: fmt::Write>(&self, f: &mut fmt::Formatter<W>) -> fmt::Result {
        writeln!(
            f,
            "problems        {} of horizon 1, {} of horizon 2",
            self.one_stage, self.two_stages
        )?;
        writeln!(
            f,
            "measures        {} squared, {} peak-first",
            self.squared, self.peak_first
        )?;
        writeln!(
            f,
            "legs by phase   {} problems with both stepped and listed legs",
            self.mixed
        )?;
        write!(f, "due nodes       {} in all problems", self.due)
    }
}

fn is_stepped(leg: &Description) -> bool {
    matches!(leg.kind, Kind::Stepped { .. })
}

fn is_mixed(legs: &[Description; 3]) -> bool {
    legs.iter().any(|leg| is_stepped(leg)) && !legs.iter().all(|leg| is_stepped(leg))
}

// Legs by their kind.
#[derive(Clone, Copy, Default)]
pub(crate) struct LegKinds {
    short: Four,
    long: Four,
    listed: Four,
    one_way: Counter,
    layered: Counter,
    barred: Counter,
}

// Whether some move is permitted and the move back is not.
fn has_one_way(leg: &Description) -> bool {
    (0..leg.positions()).any(|from| (0..leg.positions()).any(|to| leg.is_one_way(from, to)))
}

impl LegKinds {
    pub(crate) fn add(&mut self, leg: &Description) {
        if let Some(counter) = self.counter(&leg.kind) {
            counter.add(true);
        }
        self.one_way.add(has_one_way(leg));
        self.layered.add(leg.bar.is_some());
        self.barred.add(leg.bar == Some(true));
    }

    // The counter of legs of this kind.
    fn counter(&mut self, kind: &Kind) -> Option<&mut Counter> {
        let (counters, least, n) = match kind {
            Kind::Stepped { reach: 1, stride } => (&mut self.short, 1, usize::from(*stride)),
            Kind::Stepped { stride, .. } => (&mut self.long, 1, usize::from(*stride)),
            Kind::Listed { positions, .. } => (&mut self.listed, 2, positions.len()),
        };
        counters.0.get_mut(n.checked_sub(least)?)
    }
}

impl fmt::Display for LegKinds {
    fn fmt<W: fmt::Write>(&self, f: &mut fmt::Formatter<W>) -> fmt::Result {
        writeln!(
            f,
            "stepped legs    reach 1 with strides 1 to 4: {}",
            self.short
        )?;
        writeln!(
            f,
            "                reach 2 with strides 1 to 4: {}",
            self.long
        )?;
        writeln!(
            f,
            "listed legs     2 to 5 positions: {}; with a move that has no way back: {}",
            self.listed, self.one_way
        )?;
        write!(
            f,
            "barred legs     {} under a bar, set in {}",
            self.layered, self.barred
        )
    }
}

// Problems by where their start came from.
#[derive(Clone, Copy, Default)]
pub(crate) struct Starts {
    nothing: Counter,
    not_permitted: Counter,
    not_cheaper: Counter,
    taken: Counter,
}

impl Starts {
    pub(crate) fn add(&mut self, origin: Origin) {
        self.nothing.add(origin == Origin::NothingRemembered);
        self.not_permitted.add(origin == Origin::NotPermitted);
        self.not_cheaper.add(origin == Origin::NotCheaper);
        self.taken.add(origin == Origin::Remembered);
    }
}

impl fmt::Display for Starts {
    fn fmt<W: fmt::Write>(&self, f: &mut fmt::Formatter<W>) -> fmt::Result {
        write!(
            f,
            "remembered      {} none, {} not permitted, {} not cheaper, {} taken as start",
            self.nothing, self.not_permitted, self.not_cheaper, self.taken
        )
    }
}

// Decodings by how they ended.
#[derive(Clone, Copy, Default)]
pub(crate) struct Decodings {
    all: Counter,
    certified: Counter,
    stopped: Counter,
    at_last_node: Counter,
    one_short: Counter,
    start_tied: Counter,
    visited_tied: Counter,
    start_kept: Counter,
}

impl Decodings {
    pub(crate) fn add(&mut self, due: u32, limit: u32, settled: &Settled) {
        self.all.add(true);
        self.certified.add(settled.outcome.mark == Mark::Certified);
        self.stopped.add(settled.outcome.mark == Mark::Stopped);
        self.at_last_node.add(limit == due);
        self.one_short.add(limit.saturating_add(1) == due);
        self.start_tied.add(settled.start_tied);
        self.visited_tied.add(settled.visited_tied);
        self.start_kept.add(settled.start_kept);
    }
}

impl fmt::Display for Decodings {
    fn fmt<W: fmt::Write>(&self, f: &mut fmt::Formatter<W>) -> fmt::Result {
        writeln!(
            f,
            "decodings       {}: {} certified, {} stopped",
            self.all, self.certified, self.stopped
        )?;
        writeln!(
            f,
            "limits          {} equal to the due nodes, {} one less",
            self.at_last_node, self.one_short
        )?;
        writeln!(
            f,
            "ties            {} between the start and another visited, {} between visited ones",
            self.start_tied, self.visited_tied
        )?;
        write!(
            f,
            "start kept      {}, nothing as cheap having been visited",
            self.start_kept
        )
    }
}
