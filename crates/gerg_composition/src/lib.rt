// GERG-2008: the composition derivative of the residual Helmholtz energy.
#![tactic(auto)]

ghost use Rattle.std.specs.Prelude.{◌<◌};

pub mod composition;
pub mod point;
pub mod powers;

// The places of two components, from 0, and their fractions.
#[derive(Clone, Copy)]
pub struct Pair {
    pub i: usize,
    pub j: usize,
    pub xi: f64,
    pub xj: f64,
}

// A pair with its departure function, from 0.
#[derive(Clone, Copy)]
pub struct PairFunction {
    pub pair: Pair,
    pub m: usize,
    pub ghost first: { pair.i < 21 },
    pub ghost second: { pair.j < 21 },
    pub ghost known: { m < 10 },
}

// The sums of the two components of a pair.
#[derive(Clone, Copy)]
pub struct Both {
    pub first: f64,
    pub second: f64,
}
