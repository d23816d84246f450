// One step of a search, and the state after it. Options and state stand apart, as in the definitions: the first is the caller's and stays, the second changes at each step.
// `f` and `derivative` are the two numbers of a sample that is no refusal.
#![tactic(auto, unfolding(crate::specs::Steps::begin_of, crate::specs::Steps::go_on_of, crate::specs::Steps::interior_of, crate::specs::Steps::ends_of, crate::specs::Steps::stage_of, crate::specs::Steps::step_of, crate::specs::Steps::moved_by, crate::specs::Steps::moved_of))]

ghost use Rattle.std.specs.Prelude.{◌≡◌, ◌+◌, ◌^◌, ◌<◌};
ghost use Rattle.gerg_search.specs.Steps.{begin_of, go_on_of, interior_of, ends_of, stage_of, step_of, moved_by, moved_of};

use crate::{Options, Sample, Search, Stage, Step, Stop, point};
use interval::Interval;

// A search before its first trial, which is at the low end.
pub fn begin(o: Options) -> Search
    ensures { result ≡ begin_of o }
{
    let b = o.bracket;
    Search {
        stage: Stage::Low,
        density: b.lo,
        bracket: b,
        low_residual: 0.0,
        trials: 0,
    }
}

// Collapsed is looked at before the limit.
fn go_on(limit: usize, trials: usize, b: Interval, x: f64) -> Step
    ensures { result ≡ go_on_of limit trials b x }
{
    let collapsed = point::collapsed(b, x);
    let limit_reached = limit <= trials;
    if collapsed {
        return Step::Refused(Stop::Collapsed);
    }
    if limit_reached {
        return Step::Refused(Stop::LimitReached);
    }
    Step::Try(x)
}

// An interior trial.
fn interior(o: Options, s: Search, f: f64, derivative: f64) -> Step
    ensures { result ≡ interior_of o s f derivative }
{
    let rho = s.density;
    if point::within(o.tolerance, f) {
        return Step::Accepted(rho);
    }
    let b = s.bracket.narrowed(rho, f);
    let x = point::next(b, rho, f, derivative);
    go_on(o.limit, s.trials, b, x)
}

// Both ends are worked out before either is accepted.
fn ends(o: Options, flo: f64, fhi: f64) -> Step
    ensures { result ≡ ends_of o flo fhi }
{
    let b = o.bracket;
    if point::within(o.tolerance, flo) {
        return Step::Accepted(b.lo);
    }
    if point::within(o.tolerance, fhi) {
        return Step::Accepted(b.hi);
    }
    if (flo > 0.0) | (fhi < 0.0) {
        return Step::Refused(Stop::NotBracketed);
    }
    Step::Try(b.middle())
}

fn staged(o: Options, s: Search, f: f64, derivative: f64) -> Step
    ensures { result ≡ stage_of o s f derivative s.stage }
{
    match s.stage {
        Stage::Low => Step::Try(o.bracket.hi),
        Stage::High => ends(o, s.low_residual, f),
        Stage::Interior => interior(o, s, f, derivative),
    }
}

// One step: the verdict at the density being tried, and what to do next.
pub fn advance(o: Options, s: Search, sample: Sample) -> Step
    ensures { result ≡ step_of o s sample }
{
    match sample {
        Err(refusal) => Step::Refused(Stop::Trial(refusal)),
        Ok((f, derivative)) => staged(o, s, f, derivative),
    }
}

fn moved_by(s: Search, f: f64, x: f64) -> Search
    requires { s.trials + 1 < 2 ^ 64 }
    ensures { result ≡ moved_by s f x s.stage }
{
    match s.stage {
        Stage::Low => Search {
            stage: Stage::High,
            density: x,
            low_residual: f,
            ..s
        },
        Stage::High => Search {
            stage: Stage::Interior,
            density: x,
            trials: s.trials + 1,
            ..s
        },
        Stage::Interior => Search {
            density: x,
            bracket: s.bracket.narrowed(s.density, f),
            trials: s.trials + 1,
            ..s
        },
    }
}

// The state in which x, the density that the step said, is tried.
pub fn moved(s: Search, sample: Sample, x: f64) -> Search
    requires { s.trials + 1 < 2 ^ 64 }
    ensures { result ≡ moved_of s sample x }
{
    match sample {
        Err(_) => s,
        Ok((f, _)) => moved_by(s, f, x),
    }
}
