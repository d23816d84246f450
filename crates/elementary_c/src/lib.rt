// The C exports of the elementary functions: each calls `elementary`'s and states its clause again. A crate of its own, since no crate can depend on a static library.
#![tactic(auto)]

ghost use Rattle.std.specs.Prelude.{◌≡◌};
ghost use Rattle.elementary_exp.specs.Exp.{exp_of};
ghost use Rattle.elementary_ln.specs.Ln.{ln_of};
ghost use Rattle.elementary_sqrt.specs.Sqrt.{sqrt_of};
ghost use Rattle.elementary.specs.Power.{powf_of, powi_of};
ghost use Rattle.elementary.specs.Hyperbolic.{sinh_of, cosh_of, tanh_of};

use elementary::export;

#[unsafe(no_mangle)]
pub extern "C" fn elementary_exp(x: f64) -> f64
    ensures { result ≡ exp_of x }
{
    export::elementary_exp(x)
}

#[unsafe(no_mangle)]
pub extern "C" fn elementary_ln(x: f64) -> f64
    ensures { result ≡ ln_of x }
{
    export::elementary_ln(x)
}

#[unsafe(no_mangle)]
pub extern "C" fn elementary_sqrt(x: f64) -> f64
    ensures { result ≡ sqrt_of x }
{
    export::elementary_sqrt(x)
}

#[unsafe(no_mangle)]
pub extern "C" fn elementary_powf(x: f64, t: f64) -> f64
    ensures { result ≡ powf_of x t }
{
    export::elementary_powf(x, t)
}

#[unsafe(no_mangle)]
pub extern "C" fn elementary_powi(x: f64, n: i32) -> f64
    ensures { result ≡ powi_of x n }
{
    export::elementary_powi(x, n)
}

#[unsafe(no_mangle)]
pub extern "C" fn elementary_sinh(v: f64) -> f64
    ensures { result ≡ sinh_of v }
{
    export::elementary_sinh(v)
}

#[unsafe(no_mangle)]
pub extern "C" fn elementary_cosh(v: f64) -> f64
    ensures { result ≡ cosh_of v }
{
    export::elementary_cosh(v)
}

#[unsafe(no_mangle)]
pub extern "C" fn elementary_tanh(v: f64) -> f64
    ensures { result ≡ tanh_of v }
{
    export::elementary_tanh(v)
}
