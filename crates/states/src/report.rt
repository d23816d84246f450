// What the program prints.
ghost use Rattle.std.specs.Prelude.{◌≡◌, Some};
ghost use Rattle.states.specs.Text as is;

use decimal_lines::{CountLines, Line};
use gerg_refusals::Refusal;
use gerg_states::Run;
use gerg_states::counts::count_refusals;
use std::fmt;

// A run's seed and number of states with how many of them each number refuses.
#[derive(Clone, Copy)]
pub struct Counted {
    pub run: Line,
    pub counts: [u64; 38],
}

impl fmt::Display for Counted {
    ghost output = { λ counted. Some (is.counted_text counted) };

    fn fmt<W: fmt::Write>(&self, f: &mut fmt::Formatter<W>) -> fmt::Result {
        let Counted { run, counts } = self;
        write!(f, "{run}{}", CountLines(counts))
    }
}

// What was counted, or the refusal of all: a type of its own, since `Display` cannot be given to a `Result`.
#[derive(Clone, Copy)]
pub struct Report {
    pub answer: Result<Counted, Refusal>,
}

impl fmt::Display for Report {
    ghost output = { λ report. Some (is.report_text report) };

    fn fmt<W: fmt::Write>(&self, f: &mut fmt::Formatter<W>) -> fmt::Result {
        match self.answer {
            Ok(counted) => write!(f, "{counted}"),
            Err(refusal) => write!(f, "{}", Line::from(refusal)),
        }
    }
}

impl Report {
    // The report on the first states of a seed.
    #[tactic(auto, unfolding(crate::specs::Text::report_of))]
    pub fn of_run(seed: u64, states: u32, list: &[u8], fractions: &[f64], file: &[u8]) -> Report
        ensures { is.report_text result ≡ is.report_of seed states list.now fractions.now file.now }
    {
        let mut counts = [0u64; 38];
        let run = Run {
            seed,
            first: 0,
            states,
        };
        match count_refusals(file, list, fractions, run, &mut counts) {
            Ok(()) => Report {
                answer: Ok(Counted {
                    run: Line {
                        number: seed,
                        value: u64::from(states),
                    },
                    counts,
                }),
            },
            Err(refusal) => Report {
                answer: Err(refusal),
            },
        }
    }
}
