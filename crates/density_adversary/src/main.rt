// Drives the search's step by verdicts made up to keep the bracket as wide as can be, and prints how each search ends: the number of
// the refusal and the trials made. No search makes more than 600 trials.
#![tactic(auto)]

use gerg_refusals::Refusal;
use gerg_search::{Options, Sample, Search, Stage, Step, point, steps};
use interval::Interval;
use std::{fmt, io};

// How a driven search ended: with how many trials, or not within `STEPS` steps. An enum of three: a search that is not over is neither
// accepted nor refused, and `Display` needs a type of this crate.
#[derive(Clone, Copy)]
enum Ended {
    Accepted { trials: usize },
    Refused { refusal: Refusal, trials: usize },
    NotOver,
}

const STEPS: usize = 1000;

// A number and the trials: 0 for an acceptance, 255 for a search that was not over.
impl fmt::Display for Ended {
    fn fmt<W: fmt::Write>(&self, f: &mut fmt::Formatter<W>) -> fmt::Result {
        match self {
            Ended::Accepted { trials } => write!(f, "0 {trials}"),
            Ended::Refused { refusal, trials } => write!(f, "{} {trials}", refusal.number()),
            Ended::NotOver => write!(f, "255 {STEPS}"),
        }
    }
}

// The stiffness that sets Newton's point a part of the width below the high end, which is the density being tried.
fn stiffness(b: Interval, part: f64) -> f64 {
    1.0 / (part * (b.hi - b.lo))
}

fn lands(b: Interval, part: f64) -> bool {
    point::inside(b, b.hi - 1.0 / stiffness(b, part))
}

// The verdict that keeps what lies below the high end and sets Newton's point as little inside the margin below it as rounding allows: nine
// tenths of the width are left each time, down to the low end, where doubles are densest.
fn widest(b: Interval) -> Sample {
    let parts = [
        0.1,
        0.1000000000001,
        0.1000001,
        0.101,
        0.11,
        0.12,
        0.14,
        0.17,
    ];
    let part = parts
        .into_iter()
        .find(|part| lands(b, *part))
        .unwrap_or(0.25);
    Ok((1.0, stiffness(b, part)))
}

fn verdict(search: Search) -> Sample {
    match search.stage {
        Stage::Low => Ok((-1.0, 1.0)),
        Stage::High => Ok((1.0, 1.0)),
        Stage::Interior => widest(Interval {
            hi: search.density,
            ..search.bracket
        }),
    }
}

fn drive(options: Options) -> Ended {
    let mut search = steps::begin(options);
    for _step in 0..STEPS {
        let sample = verdict(search);
        let trials = search.trials;
        match steps::advance(options, search, sample) {
            Step::Try(density) => search = steps::moved(search, sample, density),
            Step::Accepted(_) => return Ended::Accepted { trials },
            Step::Refused(stop) => {
                let refusal = stop.refusal(trials);
                return Ended::Refused { refusal, trials };
            }
        }
    }
    Ended::NotOver
}

fn main(rt: HostRuntime) -> io::Result<()> {
    let searches = [
        // the whole range, without and with a limit that is met
        (1e-3, 30000.0, usize::MAX),
        (1e-3, 30000.0, 600),
        (1e-3, 30000.0, 100),
        (1e-3, 30000.0, 1),
        // narrower brackets
        (1e-3, 2e-3, usize::MAX),
        (1.0, 1.0001, usize::MAX),
        (29999.0, 30000.0, usize::MAX),
        // two doubles apart, and neighbours, across a power of two and within one
        (1.0, 1.0000000000000004, usize::MAX),
        (1.0, 1.0000000000000002, usize::MAX),
        (0.9999999999999999, 1.0, usize::MAX),
        (1.0000000000000002, 1.0000000000000004, 1),
    ];
    for (lo, hi, limit) in searches {
        let bracket = Interval { lo, hi };
        rt.println(drive(Options {
            bracket,
            limit,
            tolerance: 1e-10,
        }))?;
    }
    Ok(())
}
