// The density search of a mixture: rows 13 and 14, the loop over steps, and the state at an accepted density.
#![tactic(auto, unfolding(crate::specs::Density::trial_of, crate::specs::Density::verdict_of, crate::specs::Density::residual_of, crate::specs::Density::checked_of, crate::specs::Density::finished_of, crate::specs::Density::density_of))]

ghost use Rattle.std.specs.Prelude.{◌≡◌};
ghost use Rattle.gerg_tables.specs.Lent.{lent};
ghost use Rattle.gerg_density.specs.Density as is;
ghost use Rattle.gerg_density.specs.Running.{Ready, run_of};

use crate::{DensityResult, trial};
use gerg::{GergState, Range, evaluate, helmholtz};
use gerg_isotherm::lent::Isotherm;
use gerg_reducing::GergModel;
use gerg_refusals::Refusal;
use gerg_search::{Found, Options, Outcome, Sample, Step, checks, steps};
use gerg_tables::coefficients::Coefficients;

// Isotherm, range and target stay parameters, here and below: no fact ties them, a state at an accepted density takes the first two alone, and `Sought` of gerg_scan would be an arrow that
// a search does not need.

// The trial at a density of an isotherm.
fn verdict(isotherm: Isotherm, range: Range, target: f64, rho: f64) -> Sample
    ensures { result ≡ is.verdict_of (lent isotherm.entry.coefficients) isotherm.entry.model.now range isotherm.entry.temperature target rho }
{
    let a = helmholtz::helmholtz_at(isotherm, range, rho)?;
    let p = evaluate::trial_pressure(a, isotherm.temperature, rho);
    let derivative = evaluate::stiffness(a, isotherm.temperature);
    trial::sample(target, p, derivative)
}

// The steps of a search, one tried density each.
fn run(isotherm: Isotherm, range: Range, target: f64, o: Options) -> Outcome
    requires { Ready range.pressure_high target o }
    ensures { result ≡ run_of (lent isotherm.entry.coefficients) isotherm.entry.model.now range isotherm.entry.temperature target o }
{
    let mut s = steps::begin(o);
    // No `for`: each step says whether the search goes on, and the bound on their number is the proof's.
    loop {
        let sample = verdict(isotherm, range, target, s.density);
        match steps::advance(o, s, sample) {
            Step::Try(x) => {
                s = steps::moved(s, sample, x);
            }
            // A search knows more than it reports, so no `From` makes `Found` of it.
            Step::Accepted(x) => return Ok(Found {
                density: x,
                trials: s.trials,
                bracket: s.bracket,
            }),
            Step::Refused(stop) => return Err(stop.refusal(s.trials)),
        }
    }
}

// Rows 13 and 14, then the steps.
#[tactic(auto, unfolding(crate::specs::Density::search_of, crate::specs::Running::run_of, gerg_search::specs::Run::outcome_of))]
pub fn search(isotherm: Isotherm, range: Range, target: f64, options: Options) -> Outcome
    ensures { result ≡ is.search_of (lent isotherm.entry.coefficients) isotherm.entry.model.now range isotherm.entry.temperature target options }
{
    let options_refused = checks::options_refused(options);
    let target_refused = checks::target_refused(range.pressure_high, target);
    if options_refused {
        return Err(Refusal::Options);
    }
    if target_refused {
        return Err(Refusal::Target);
    }
    run(isotherm, range, target, options)
}

// The scaled residual of a state's own pressure.
fn residual(target: f64, s: GergState) -> f64
    ensures { result ≡ is.residual_of target s }
{
    (s.pressure_pa - target) / trial::scale(target)
}

// Whether the size of a residual is above the tolerance. Not `!within`: a residual that is NaN is neither.
#[tactic(auto, using(gerg_search::proofs::Size::size_beyond), unfolding(crate::specs::Density::beyond_of))]
fn beyond(tolerance: f64, f: f64) -> bool
    ensures { result ≡ is.beyond_of tolerance f }
{
    f.abs() > tolerance
}

// Row 17, by the state's own pressure.
fn checked(
    target: f64,
    o: Options,
    found: Found,
    state: GergState,
) -> Result<DensityResult, Refusal>
    ensures { result ≡ is.checked_of target o found.trials found.bracket (Ok state) }
{
    let f = residual(target, state);
    if beyond(o.tolerance, f) {
        return Err(Refusal::PressureCheck);
    }
    Ok(DensityResult {
        state,
        residual: f,
        trials: found.trials,
        first: o.bracket,
        last: found.bracket,
    })
}

// Pressure inverted within a bracket: the isotherm's cells are made once for all trials and for the state at an accepted density.
pub fn density(
    coefficients: Coefficients,
    model: &GergModel,
    range: Range,
    temperature: f64,
    target: f64,
    options: Options,
) -> Result<DensityResult, Refusal>
    ensures { result ≡ is.density_of (lent coefficients.entry) model.now range temperature target options }
{
    let mut cells = [0.0; 939];
    let isotherm = Isotherm::of(coefficients, model, temperature, &mut cells);
    let found = search(isotherm, range, target, options)?;
    let state = evaluate::evaluate_at(isotherm, range, found.density)?;
    checked(target, options, found, state)
}
