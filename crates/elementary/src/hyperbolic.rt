// sinh, cosh and tanh by the exponential. sinh and cosh differ in one operation; a function that took it as a closure would be longer than the two.

#![tactic(auto, unfolding(crate::specs::Hyperbolic::sinh_of, crate::specs::Hyperbolic::cosh_of, crate::specs::Hyperbolic::tanh_of))]

ghost use Rattle.std.specs.Prelude.{◌≡◌};
ghost use Rattle.elementary.specs.Hyperbolic.{sinh_of, cosh_of, tanh_of};

use elementary_exp::exp;

pub fn sinh(v: f64) -> f64
    ensures { result ≡ sinh_of v }
{
    0.5 * (exp::exp(v) - exp::exp(-v))
}

pub fn cosh(v: f64) -> f64
    ensures { result ≡ cosh_of v }
{
    0.5 * (exp::exp(v) + exp::exp(-v))
}

// Each exponential is taken once.
pub fn tanh(v: f64) -> f64
    ensures { result ≡ tanh_of v }
{
    if v > 20.0 {
        return 1.0;
    }
    if v < -20.0 {
        return -1.0;
    }
    let a = exp::exp(v);
    let b = exp::exp(-v);
    (0.5 * (a - b)) / (0.5 * (a + b))
}
