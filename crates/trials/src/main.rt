// Tries the decoder against a full enumeration by the definitions, over many small problems.
#![tactic(auto)]

mod decoding;
mod enumeration;
mod leg;
mod outcome;
mod problem;
mod random;
mod tally;
mod word;

use crate::decoding::decoded;
use crate::enumeration::{Listing, list_due};
use crate::leg::{Description, any_leg, small_leg, widest_leg};
use crate::problem::{Problem, any_problem};
use crate::random::Random;
use crate::tally::{Counter, Decodings, LegKinds, Problems, Starts};
use crate::word::{Word, words};
use std::alloc::{AllocError, Global};
use std::{fmt, io};

// All that is counted. A difference is an answer of the decoder's that is not the one by the definitions, or a problem
// for which they give no start.
#[derive(Clone, Copy, Default)]
struct Totals {
    problems: Problems,
    legs: LegKinds,
    starts: Starts,
    decodings: Decodings,
    differences: Counter,
}

impl fmt::Display for Totals {
    fn fmt<W: fmt::Write>(&self, f: &mut fmt::Formatter<W>) -> fmt::Result {
        writeln!(f, "{}", self.problems)?;
        writeln!(f, "{}", self.legs)?;
        writeln!(f, "{}", self.starts)?;
        writeln!(f, "{}", self.decodings)?;
        write!(f, "{} differences", self.differences)
    }
}

// What the trials go on with from one to the next.
#[derive(Drop)]
struct Trials {
    heap: Global,
    random: Random,
    totals: Totals,
}

impl Trials {
    fn try_limit(&mut self, listing: &Listing, limit: u32) {
        let settled = listing.settle(limit);
        let same = decoded(listing.problem, limit) == Some(settled.outcome);
        self.totals.decodings.add(listing.count(), limit, &settled);
        self.totals.differences.add(!same);
    }

    // Every limit up to one more than the due nodes.
    fn try_each_limit(&mut self, listing: &Listing) {
        for limit in 1..listing.count().saturating_add(2) {
            self.try_limit(listing, limit);
        }
    }

    // Limits at both ends, and a few between.
    fn try_some_limits(&mut self, listing: &Listing) {
        let due = listing.count();
        let last = due.saturating_sub(1)..due.saturating_add(2);
        for limit in [1, 2, 130, u32::MAX].into_iter().chain(last) {
            self.try_limit(listing, limit);
        }
        for _ in 0..6 {
            let limit = self.random.below(due).saturating_add(1);
            self.try_limit(listing, limit);
        }
    }

    fn try_problem(&mut self, problem: &Problem, words: &[Word]) -> Result<(), AllocError> {
        let Some(listing) = list_due(self.heap, problem, words)? else {
            self.totals.differences.add(true);
            return Ok(());
        };
        self.totals.problems.add(&listing);
        for leg in &problem.legs {
            self.totals.legs.add(leg);
        }
        self.totals.starts.add(listing.origin);
        if problem.stages == 1 {
            self.try_each_limit(&listing);
        } else {
            self.try_some_limits(&listing);
        }
        Ok(())
    }

    // So many problems of so many stages, with legs drawn like this.
    fn try_problems<F: Fn(&mut Random) -> Description>(
        &mut self,
        times: u32,
        stages: u8,
        leg: F,
    ) -> Result<(), AllocError>
        requires { F.IsAlwaysCallable leg }
    {
        let words = words(self.heap, usize::from(stages).saturating_mul(3))?;
        for _ in 0..times {
            let problem = any_problem(&mut self.random, stages, &leg);
            self.try_problem(&problem, &words)?;
        }
        Ok(())
    }
}

fn main(rt: HostRuntime) -> io::Result<()> {
    let mut trials = Trials {
        heap: rt.alloc(),
        random: Random::new(2026),
        totals: Totals::default(),
    };
    trials.try_problems(6000, 1, any_leg)?;
    trials.try_problems(1200, 2, small_leg)?;
    trials.try_problems(500, 2, any_leg)?;
    trials.try_problems(4, 2, |_| widest_leg())?;
    println!(rt; "{}", trials.totals)
}
