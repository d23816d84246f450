// The reduced density and the inverse reduced temperature at which the derivatives are taken.
ghost use Rattle.std.specs.Prelude.{◌≡◌};
ghost use Rattle.elementary_ln.specs.Ln.{ln_of};

use crate::powers::{Dampings, Powers};

// With the powers of delta, its damping factors and the logarithm of tau, worked out once a call.
#[derive(Clone, Copy)]
pub struct Point<'a> {
    pub powers: Powers<'a>,
    pub dampings: Dampings<'a>,
    pub tau: f64,
    pub ln_tau: f64,
    pub ghost one_delta: { dampings.delta ≡ powers.delta },
    pub ghost logarithm_is: { ln_tau ≡ ln_of tau },
}
