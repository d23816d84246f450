// Why a call refuses: the numbers of the table of refusals, each with its value. A refusal is the error of every call that can refuse.
#![tactic(auto)]

ghost use Rattle.std.specs.Prelude.{◌≡◌, Some};
ghost use Rattle.gerg_refusals.specs.Refusal.{cause_of, number_of, value_of};
ghost use Rattle.gerg_refusals.specs.Text.{text_of};

use std::error::Error;
use std::fmt;

pub mod code;

// What is wrong with the tables of a coefficient file.
#[derive(Clone, Copy, Debug, PartialEq, Eq)]
pub enum Fault {
    // a number of a pair that is not finite
    Btij,
    Bvij,
    Gtij,
    Gvij,
    Fij,
    // Tc that is not finite, or a mass that is not finite and positive
    Critical,
    // btij or bvij that is not positive
    NotPositive,
    // mNumb that is 0 or above the number of departure functions
    Departure,
}

// In the order of the numbers, from 1.
#[derive(Clone, Copy, Debug, PartialEq, Eq)]
pub enum Refusal {
    // the offset of the first bad record of a coefficient file, or of the first byte over
    File { offset: usize },
    Tables { fault: Fault },
    // the first bad place of a component list
    Components { place: usize },
    // the first bad place of the fractions, or the length of the component list
    Fractions { place: usize },
    Reducing,
    DensityNotFinite,
    DensityNotPositive,
    OutsideRange,
    Derivative,
    Unstable,
    Pressure,
    // of a state, a fugacity coefficient or a trial of a density search
    NotFinite,
    Options,
    Target,
    TrialUnstable,
    NotBracketed,
    PressureCheck,
    Collapsed { trials: usize },
    LimitReached { trials: usize },
    BeyondFive,
    OutsideEnvelope,
    RootNotConverged,
    NoRoot,
    // of lent memory
    TooShort { needed: usize },
    NotPure,
    SaturationNotConverged { trials: usize },
    ZeroSeed,
    // the offset of the first wrong record of a chromatograph's list
    Record { offset: usize },
    Total,
}

impl Fault {
    // 1 to 8: the variants stand in the order of their causes, so that the number of each is not written a second time beside it, as a match would.
    pub fn cause(self) -> u8
        ensures { result ≡ cause_of self }
    {
        self as u8 + 1
    }
}

impl Refusal {
    pub fn number(self) -> u8
        ensures { result ≡ number_of self }
    {
        match self {
            Refusal::File { .. } => 1,
            Refusal::Tables { .. } => 2,
            Refusal::Components { .. } => 3,
            Refusal::Fractions { .. } => 4,
            Refusal::Reducing => 5,
            Refusal::DensityNotFinite => 6,
            Refusal::DensityNotPositive => 7,
            Refusal::OutsideRange => 8,
            Refusal::Derivative => 9,
            Refusal::Unstable => 10,
            Refusal::Pressure => 11,
            Refusal::NotFinite => 12,
            Refusal::Options => 13,
            Refusal::Target => 14,
            Refusal::TrialUnstable => 15,
            Refusal::NotBracketed => 16,
            Refusal::PressureCheck => 17,
            Refusal::Collapsed { .. } => 18,
            Refusal::LimitReached { .. } => 19,
            Refusal::BeyondFive => 20,
            Refusal::OutsideEnvelope => 21,
            Refusal::RootNotConverged => 22,
            Refusal::NoRoot => 23,
            Refusal::TooShort { .. } => 24,
            Refusal::NotPure => 25,
            Refusal::SaturationNotConverged { .. } => 26,
            Refusal::ZeroSeed => 27,
            Refusal::Record { .. } => 28,
            Refusal::Total => 29,
        }
    }

    // What the table gives beside the number, 0 unless given.
    pub fn value(self) -> usize
        ensures { result ≡ value_of self }
    {
        match self {
            Refusal::File { offset } => offset,
            Refusal::Tables { fault } => usize::from(fault.cause()),
            Refusal::Components { place } => place,
            Refusal::Fractions { place } => place,
            Refusal::Collapsed { trials } => trials,
            Refusal::LimitReached { trials } => trials,
            Refusal::TooShort { needed } => needed,
            Refusal::SaturationNotConverged { trials } => trials,
            Refusal::Record { offset } => offset,
            _ => 0,
        }
    }
}

impl From<Fault> for Refusal {
    ghost use Rattle.std.specs.Prelude.{◌≡◌};
    ghost use Rattle.gerg_refusals.specs.declared.Refusal.TheVariants as refusal;

    ghost from_gives = { λ fault r. r ≡ refusal.Tables fault };

    fn from(fault: Fault) -> Refusal {
        Refusal::Tables { fault }
    }
}

impl fmt::Display for Refusal {
    ghost output = { λ r. Some (text_of r) };

    fn fmt<W: fmt::Write>(&self, f: &mut fmt::Formatter<W>) -> fmt::Result {
        let number = self.number();
        let value = self.value();
        write!(f, "{number} {value}")
    }
}

impl Error for Refusal {}
