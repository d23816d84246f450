// The nine scaled derivatives of the Helmholtz energy.
#![tactic(auto, unfolding(crate::specs::Derivatives::term_of))]

ghost use Rattle.std.specs.Prelude.{◌≡◌};
ghost use Rattle.gerg_derivatives.specs.Derivatives.{term_of};

// Dimensionless Helmholtz derivatives scaled by powers of delta and tau; d and t denote differentiation by delta and tau.
#[derive(Clone, Copy, Default)]
pub struct GergDerivatives {
    pub ar: f64,
    pub ar_d: f64,
    pub ar_dd: f64,
    pub ar_t: f64,
    pub ar_tt: f64,
    pub ar_dt: f64,
    pub a0: f64,
    pub a0_t: f64,
    pub a0_tt: f64,
}

impl GergDerivatives {
    // A term n*delta^d*tau^t*exp(c*delta^2+e*delta+g-delta^q) is added.
    // Logarithmic slopes give ordinary scaled second derivatives as L^2-L+L'.
    pub fn term(mut self, value: f64, t: f64, slope: f64, curvature: f64) -> Self
        ensures { result ≡ term_of self value t slope curvature }
    {
        self.ar += value;
        self.ar_d += value * slope;
        self.ar_dd += value * (slope * slope - slope + curvature);
        self.ar_t += value * t;
        self.ar_tt += value * t * (t - 1.0);
        self.ar_dt += value * t * slope;
        self
    }
}
