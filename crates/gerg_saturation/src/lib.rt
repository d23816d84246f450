// What saturation takes from the roots at a temperature, and the halvings of an interval of temperatures: all of `gerg_ph` that looks at no isotherm.
#![tactic(auto)]

pub mod checks;
pub mod coexistence;
pub mod halving;

use gerg_refusals::Refusal;
use interval::Interval;

// The numbers of `PureSaturation` in saturation.rs.
#[derive(Clone, Copy)]
pub struct PureSaturation {
    pub temperature_k: f64,
    pub pressure_pa: f64,
    pub liquid_compressibility: f64,
    pub vapor_compressibility: f64,
    pub liquid_molar_volume: f64,
    pub vapor_molar_volume: f64,
    pub ln_fugacity_coefficient: f64,
    pub fugacity_residual: f64,
    pub iterations: usize,
}

// The positive fractions of a list: how many, and the place of the last of them. Not the `Option` of the only one's place: `checks::positive` promises the count for every list,
// and a loop that finds whether there is one alone counts too.
#[derive(Clone, Copy)]
pub struct Positive {
    pub count: usize,
    pub place: usize,
}

// The exterior roots at a temperature: the sign of the branch of a single one; of more, the difference of the fugacity coefficients of
// liquid and vapor, and the saturation that they would be. An enum: a sign and a difference are different numbers, which one field beside an
// `Option` would not tell apart.
#[derive(Clone, Copy)]
pub enum Exterior {
    Single(f64),
    Coexisting(f64, PureSaturation),
}

// What exterior roots say: accepted, or apart by this difference. Neither is a failure, so it is no `Result`: `Tried` is one around it.
#[derive(Clone, Copy)]
pub enum Verdict {
    Accepted(PureSaturation),
    Apart(f64),
}

// The exterior roots at a temperature that is tried, or why there are none.
pub type Sample = Result<Exterior, Refusal>;

// What a temperature that is tried says.
pub type Tried = Result<Verdict, Refusal>;

// What the caller chooses: the interval (temperatures in K), and the most halvings of it. A type of its own: `gerg_search::Options` has a tolerance, which is fixed here.
#[derive(Clone, Copy)]
pub struct Options {
    pub interval: Interval,
    pub limit: usize,
}

// A saturation, or none where the ends enclose none.
pub type Answer = Result<Option<PureSaturation>, Refusal>;
