// Lines of two decimal numbers.
#![tactic(auto)]

ghost use Rattle.std.specs.Prelude.{Some};
ghost use Rattle.decimal_lines.specs.Line.{line_text, count_lines_text};

mod lent;

use gerg_refusals::Refusal;
pub use lent::{put_counts, put_line};
use std::fmt;

// Two numbers on a line.
#[derive(Clone, Copy)]
pub struct Line {
    pub number: u64,
    pub value: u64,
}

// The line of a refusal: its number and value, which has no `From` into 64 bits.
impl From<Refusal> for Line {
    ghost use Rattle.std.specs.Prelude.{◌≡◌};
    ghost use Rattle.gerg_refusals.specs.Refusal.{number_of, value_of};

    ghost from_gives = { λ r line. line ≡ record { number = number_of r; value = value_of r } };

    fn from(refusal: Refusal) -> Line {
        Line {
            number: u64::from(refusal.number()),
            value: refusal.value() as u64,
        }
    }
}

impl fmt::Display for Line {
    ghost output = { λ line. Some (line_text line) };

    fn fmt<W: fmt::Write>(&self, f: &mut fmt::Formatter<W>) -> fmt::Result {
        let Line { number, value } = *self;
        writeln!(f, "{number} {value}")
    }
}

// The first number that has a line.
const FIRST: usize = 1;

// The lines of the numbers from 1 on whose counts are not 0; the first of the counts is that of number 0.
#[derive(Clone, Copy)]
pub struct CountLines<'a>(pub &'a [u64]);

impl fmt::Display for CountLines<'_> {
    ghost output = { λ lines. Some (count_lines_text lines.0.now) };

    fn fmt<W: fmt::Write>(&self, f: &mut fmt::Formatter<W>) -> fmt::Result {
        let counts = self.0;
        for (number, value) in counts.iter().enumerate() {
            if FIRST <= number && *value != 0 {
                // A `usize` has no `From` into 64 bits.
                let line = Line {
                    number: number as u64,
                    value: *value,
                };
                write!(f, "{line}")?;
            }
        }
        Ok(())
    }
}
