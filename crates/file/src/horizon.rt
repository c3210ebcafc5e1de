// How many stages a set of tables plans ahead.
ghost use Rattle.std.specs.Prelude.{◌≡◌, ◌≤◌, ◌&&◌, ◌++◌, Some, is_some, is_ok, IfSome, MatchResult, nat_le, codes, decimal};

use std::error::Error;
use std::fmt;

// A horizon: 1 to 5 stages.
#[derive(Clone, Copy, Debug, PartialEq, Eq)]
pub struct Horizon {
    stages: usize,
    ghost some: { 1 ≤ stages },
    ghost few: { stages ≤ 5 },
}

// A number of stages that no horizon has.
#[derive(Clone, Copy, Debug, PartialEq, Eq)]
pub struct NotAHorizon(pub usize);

impl TryFrom<usize> for Horizon {
    type Error = NotAHorizon;

    ghost try_from_gives = { λ n r. (is_ok r ≡ (nat_le 1 n && nat_le n 5)) × MatchResult r (λ h. h.stages ≡ n) (λ e. e.0 ≡ n) };

    fn try_from(stages: usize) -> Result<Horizon, NotAHorizon> {
        if !(1..=5).contains(&stages) {
            return Err(NotAHorizon(stages));
        }
        Ok(Horizon { stages })
    }
}

impl fmt::Display for NotAHorizon {
    ghost output = { λ e. Some (codes "no horizon has " ++ (decimal e.0 ++ codes " stages")) };

    fn fmt<W: fmt::Write>(&self, f: &mut fmt::Formatter<W>) -> fmt::Result {
        write!(f, "no horizon has {} stages", self.0)
    }
}

impl Error for NotAHorizon {}

impl Horizon {
    // A horizon of so many stages, where there is one: `try_from` for whoever has no use for the error.
    pub fn of(stages: usize) -> Option<Horizon>
        ensures test { is_some result ≡ nat_le 1 stages && nat_le stages 5 }
        ensures value { IfSome result (λ h. h.stages ≡ stages) }
    {
        Horizon::try_from(stages).ok()
    }

    // How many stages there are.
    pub fn stages(self) -> usize
        ensures { result ≡ self.stages }
    {
        self.stages
    }
}
