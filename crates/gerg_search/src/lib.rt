// The search for a density within a bracket, whatever the equation: what is tested first, the next point, and one step, which takes the verdict of the trial at
// one density and answers what to do next. All that a search knows is in one struct by value.
#![tactic(auto)]

ghost use Rattle.std.specs.Prelude.{◌≡◌};
ghost use Rattle.gerg_search.specs.Stop.{refusal_of};

use gerg_refusals::Refusal;
use interval::Interval;

pub mod checks;
pub mod point;
pub mod steps;

// What the caller chooses: the bracket (densities in mol/m³), the most interior trials, and the largest scaled pressure residual that
// is accepted.
#[derive(Clone, Copy)]
pub struct Options {
    pub bracket: Interval,
    pub limit: usize,
    pub tolerance: f64,
}

// The verdict of a trial at a density: the scaled residual and the scaled derivative, or the refusal that stopped it.
pub type Sample = Result<(f64, f64), Refusal>;

// Which density is being tried. The state of a search is a value that is stored between its steps (document 01), which a closure for
// the next step cannot be.
#[derive(Clone, Copy)]
pub enum Stage {
    Low,
    High,
    Interior,
}

// A search: the density being tried, the bracket before that trial, the residual found at the low end, and the interior trials made,
// the present one included.
#[derive(Clone, Copy)]
pub struct Search {
    pub stage: Stage,
    pub density: f64,
    pub bracket: Interval,
    pub low_residual: f64,
    pub trials: usize,
}

// Why a step refuses: its trial's own refusal, or a row of the search. No `Refusal` yet: the count that two of them report is defined
// as the length of the list of trials, which is complete where the search ends, and a step has no list.
#[derive(Clone, Copy, Debug, PartialEq, Eq)]
pub enum Stop {
    Trial(Refusal),
    NotBracketed,
    Collapsed,
    LimitReached,
}

impl Stop {
    // The refusal of a search that made so many trials.
    pub fn refusal(self, trials: usize) -> Refusal
        ensures { result ≡ refusal_of self trials }
    {
        match self {
            Stop::Trial(refusal) => refusal,
            Stop::NotBracketed => Refusal::NotBracketed,
            Stop::Collapsed => Refusal::Collapsed { trials },
            Stop::LimitReached => Refusal::LimitReached { trials },
        }
    }
}

// What a step answers: try this density, accepted at this density, refused. One enum whose first two cases carry a density, and no
// `Result` or `Option`: document 01 sets this form ("Forms by place").
#[derive(Clone, Copy)]
pub enum Step {
    Try(f64),
    Accepted(f64),
    Refused(Stop),
}

// An accepted density, the trials made, and the bracket before the last of them.
#[derive(Clone, Copy)]
pub struct Found {
    pub density: f64,
    pub trials: usize,
    pub bracket: Interval,
}

// How a search ends.
pub type Outcome = Result<Found, Refusal>;
