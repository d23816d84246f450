// What a term or a part of the ideal gas adds to the nine derivatives, its powers worked out.
#![tactic(auto, unfolding(crate::specs::Parts::damped_term, crate::specs::Parts::ideal_added, crate::specs::Parts::ideal_taken, crate::specs::Parts::departed_term))]

ghost use Rattle.std.specs.Prelude.{◌≡◌, ◌+◌, ◌*◌};
ghost use Rattle.gerg_derivatives.specs.Parts as parts;

use crate::derivatives::GergDerivatives;

// c delta², e delta, and the exponential of their sum with g.
#[derive(Clone, Copy)]
pub struct Exponent {
    pub c: f64,
    pub e: f64,
    pub exponential: f64,
}

// A term's numbers, its powers worked out.
#[derive(Clone, Copy)]
pub struct Departed {
    pub factor: f64,
    pub n: f64,
    pub delta_power: f64,
    pub tau_power: f64,
    pub t: f64,
    pub d: f64,
    pub exponent: Exponent,
}

pub fn departed_term(a: GergDerivatives, p: Departed) -> GergDerivatives
    ensures { result ≡ parts.departed_term p a }
{
    let c = p.exponent.c;
    let e = p.exponent.e;
    let v = p.factor * p.n * p.delta_power * p.tau_power * p.exponent.exponential;
    a.term(v, p.t, p.d + 2.0 * c + e, 4.0 * c + e)
}

// A term's numbers, its powers worked out.
#[derive(Clone, Copy)]
pub struct Damped {
    pub x: f64,
    pub n: f64,
    pub delta_power: f64,
    pub tau_power: f64,
    pub exponential: f64,
    pub t: f64,
    pub d: f64,
    pub q: f64,
    pub damping: f64,
}

pub fn damped_term(a: GergDerivatives, p: Damped) -> GergDerivatives
    ensures { result ≡ parts.damped_term p a }
{
    let v = p.x * p.n * p.delta_power * p.tau_power * p.exponential;
    a.term(v, p.t, p.d - p.q * p.damping, -(p.q * p.q) * p.damping)
}

// Two functions: they are two signs apart, and an operation that is handed in makes neither shorter.
pub fn added(a: GergDerivatives, value: f64, slope: f64, curvature: f64) -> GergDerivatives
    ensures { result ≡ parts.ideal_added value slope curvature a }
{
    GergDerivatives {
        a0: a.a0 + value,
        a0_t: a.a0_t + slope,
        a0_tt: a.a0_tt - curvature,
        ..a
    }
}

pub fn taken(a: GergDerivatives, value: f64, slope: f64, curvature: f64) -> GergDerivatives
    ensures { result ≡ parts.ideal_taken value slope curvature a }
{
    GergDerivatives {
        a0: a.a0 - value,
        a0_t: a.a0_t - slope,
        a0_tt: a.a0_tt - curvature,
        ..a
    }
}
