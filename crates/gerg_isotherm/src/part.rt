// The two kinds of parts of the ideal gas.
ghost use Rattle.std.specs.Prelude.{◌≡◌};
ghost use Rattle.gerg_isotherm.specs.Parts as is;

use elementary::hyperbolic;

// A part of n0i and th0i 4 or 6 takes sinh, one of 5 or 7 cosh.
#[derive(Clone, Copy)]
pub enum Part {
    Sinh,
    Cosh,
}

impl Part {
    pub fn function(self, v: f64) -> f64
        ensures { result ≡ is.function self v }
    {
        match self {
            Part::Sinh => hyperbolic::sinh(v),
            Part::Cosh => hyperbolic::cosh(v),
        }
    }

    // a times the derivative of the function's logarithm at v.
    pub fn slope(self, a: f64, v: f64) -> f64
        ensures { result ≡ is.slope self a v }
    {
        match self {
            Part::Sinh => a / hyperbolic::tanh(v),
            Part::Cosh => a * hyperbolic::tanh(v),
        }
    }
}
