// Powers of delta, dampings and their exponentials for small exponents, each worked out once for a density.
ghost use Rattle.std.specs.Prelude.{◌≡◌, ◌<◌};
ghost use Rattle.std.specs.Float.Ieee.{neg};
ghost use Rattle.numerics.specs.Fill.{tabulate};
ghost use Rattle.elementary_exp.specs.Exp.{exp_of};
ghost use Rattle.elementary_ln.specs.Ln.{ln_of};
ghost use Rattle.elementary.specs.Power.{powf_of, signed_double_of};
ghost use Rattle.gerg_derivatives.specs.Parts.{damping_of};
ghost use Rattle.gerg_derivatives.specs.Powers.{power_cell, powers_of};

use elementary::power as elementary_power;
use elementary_exp::exp;

// The cells that `powers` makes of a reduced density, lent. One array and no three: the definition `powers_of` is one list with these places, and one loop makes it.
#[derive(Clone, Copy)]
pub struct SmallPowers<'a> {
    pub delta: f64,
    pub cells: &'a [f64; 24],
    pub ghost cells_are: { cells.now ≡ powers_of delta },
}

// With the logarithm of the density, which a power with a large exponent takes.
#[derive(Clone, Copy)]
pub struct ReducedDensity<'a> {
    pub small: SmallPowers<'a>,
    pub logarithm: f64,
    pub ghost logarithm_is: { logarithm ≡ ln_of small.delta },
}

impl<'a> SmallPowers<'a> {
    #[tactic(auto, using(crate::proofs::Laws::Powers::damping_small))]
    pub fn damping(self, q: u8) -> f64
        ensures { result ≡ damping_of self.entry.delta q }
    {
        if q < 8 {
            return self.cells[8 + usize::from(q)];
        }
        plain_damping(self.delta, q)
    }

    // The exponential of the damping's negative.
    #[tactic(auto, using(crate::proofs::Laws::Powers::exponential_small))]
    pub fn exponential(self, damping: f64, q: u8) -> f64
        requires { damping ≡ damping_of self.delta q }
        ensures { result ≡ exp_of (neg (damping_of self.entry.delta q)) }
    {
        if q < 8 {
            return self.cells[16 + usize::from(q)];
        }
        exp::exp(-damping)
    }
}

impl<'a> ReducedDensity<'a> {
    // delta to the signed number of a byte, by powf.
    #[tactic(auto, using(elementary::proofs::Laws::powf_from_ln, crate::proofs::Laws::Powers::power_small))]
    pub fn power(self, b: u8) -> f64
        ensures { result ≡ powf_of self.entry.small.delta (signed_double_of b) }
    {
        if b < 8 {
            return self.small.cells[usize::from(b)];
        }
        elementary_power::powf_of_ln(
            self.small.delta,
            self.logarithm,
            elementary_power::signed_double(b),
        )
    }
}

#[tactic(auto, unfolding(crate::specs::Parts::damping_of))]
fn plain_damping(delta: f64, q: u8) -> f64
    ensures { result ≡ damping_of delta q }
{
    if q == 0 {
        return 0.0;
    }
    elementary_power::powi_byte(delta, q)
}

// The dampings for q from 0 to 7.
#[tactic(auto, unfolding(numerics::specs::Fill::tabulate, crate::specs::Parts::damping_of))]
fn small_dampings(delta: f64) -> [f64; 8]
    ensures { result ≡ tabulate (damping_of delta) 8 }
{
    let mut dampings = elementary_power::powers_below_8(delta);
    dampings[0] = 0.0;
    dampings
}

#[tactic(auto, using(elementary::proofs::Laws::powf_from_ln, numerics::specs::Fill::get_d_tabulate), unfolding(crate::specs::Powers::power_cell))]
fn cell(dampings: &[f64; 8], delta: f64, logarithm: f64, c: u8) -> f64
    requires { (c < 24) × (logarithm ≡ ln_of delta) × (dampings.now ≡ tabulate (damping_of delta) 8) }
    ensures { result ≡ power_cell delta c }
{
    if c < 8 {
        return elementary_power::powf_of_ln(delta, logarithm, elementary_power::signed_double(c));
    }
    if c < 16 {
        return dampings[usize::from(c - 8)];
    }
    exp::exp(-dampings[usize::from(c - 16)])
}

#[tactic(auto, using(numerics::specs::Fill::fill_begins, numerics::specs::Fill::fill_again, numerics::specs::Fill::fill_whole), unfolding(crate::specs::Powers::powers_of))]
pub fn powers(delta: f64, logarithm: f64) -> [f64; 24]
    requires { logarithm ≡ ln_of delta }
    ensures { result ≡ powers_of delta }
{
    let dampings = small_dampings(delta);
    let mut out = [0.0; 24];
    // Over bytes, which `array::from_fn` is not: it counts in usize.
    for c in 0u8..24 {
        out[usize::from(c)] = cell(&dampings, delta, logarithm, c);
    }
    out
}
