// A temperature and the inverse reduced temperature of a mixture at it.
ghost use Rattle.std.specs.Prelude.{◌≡◌};
ghost use Rattle.elementary_ln.specs.Ln.{ln_of};

// With their logarithms.
#[derive(Clone, Copy)]
pub struct Temperature {
    // K
    pub t: f64,
    pub ln_t: f64,
    pub tau: f64,
    pub ln_tau: f64,
    pub ghost of_t: { ln_t ≡ ln_of t },
    pub ghost of_tau: { ln_tau ≡ ln_of tau },
}
