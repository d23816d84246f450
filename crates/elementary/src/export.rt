// The elementary functions as C has them (`elementary_c` exports them). Each ends in `quieted`, so that every NaN leaves with the bits 0x7FF8000000000000.

ghost use Rattle.std.specs.Prelude.{◌≡◌};
ghost use Rattle.elementary_exp.specs.Exp.{exp_of};
ghost use Rattle.elementary_ln.specs.Ln.{ln_of};
ghost use Rattle.elementary_sqrt.specs.Sqrt.{sqrt_of};
ghost use Rattle.elementary.specs.Power.{powf_of, powi_of};
ghost use Rattle.elementary.specs.Hyperbolic.{sinh_of, cosh_of, tanh_of};

use crate::{hyperbolic, power};
use elementary_exp::exp;
use elementary_ln::ln;
use elementary_sqrt::sqrt;

// The value as it is, with one pattern for every NaN: the quotient of literals, which the compiler folds to 0x7FF8000000000000.
pub fn quieted(x: f64) -> f64
    ensures { result ≡ x }
{
    // The test of `exp`'s definition.
    if x != x {
        return 0.0 / 0.0;
    }
    x
}

pub fn elementary_exp(x: f64) -> f64
    ensures { result ≡ exp_of x }
{
    quieted(exp::exp(x))
}

pub fn elementary_ln(x: f64) -> f64
    ensures { result ≡ ln_of x }
{
    quieted(ln::ln(x))
}

pub fn elementary_sqrt(x: f64) -> f64
    ensures { result ≡ sqrt_of x }
{
    quieted(sqrt::sqrt(x))
}

pub fn elementary_powf(x: f64, t: f64) -> f64
    ensures { result ≡ powf_of x t }
{
    quieted(power::powf(x, t))
}

pub fn elementary_powi(x: f64, n: i32) -> f64
    ensures { result ≡ powi_of x n }
{
    quieted(power::powi(x, n))
}

pub fn elementary_sinh(v: f64) -> f64
    ensures { result ≡ sinh_of v }
{
    quieted(hyperbolic::sinh(v))
}

pub fn elementary_cosh(v: f64) -> f64
    ensures { result ≡ cosh_of v }
{
    quieted(hyperbolic::cosh(v))
}

pub fn elementary_tanh(v: f64) -> f64
    ensures { result ≡ tanh_of v }
{
    quieted(hyperbolic::tanh(v))
}
