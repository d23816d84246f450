// Powers of delta and damping factors, worked out once a call. Not the cells of gerg_derivatives: here a power is powi, the exponential alone is kept, and an exponent of 0 damps.
ghost use Rattle.std.specs.Prelude.{◌≡◌};
ghost use Rattle.numerics.specs.Fill.{tabulate};
ghost use Rattle.elementary.specs.Power.{powi_byte_of};
ghost use Rattle.gerg_composition.specs.Powers.{damping_at, damping_of};

use elementary::power;
use elementary_exp::exp::exp;

// delta with its powers 0 to 15, lent.
#[derive(Clone, Copy)]
pub struct Powers<'a> {
    pub delta: f64,
    pub cells: &'a [f64; 16],
    pub ghost cells_are: { cells.now ≡ tabulate (powi_byte_of delta) 16 },
}

// delta with its damping factors, lent.
#[derive(Clone, Copy)]
pub struct Dampings<'a> {
    pub delta: f64,
    pub cells: &'a [f64; 17],
    pub ghost cells_are: { cells.now ≡ tabulate (damping_at delta) 17 },
}

// delta to the powers 0 to 15. A loop over bytes: `array::from_fn` counts in usize, and the exponent is a byte.
#[tactic(auto, using(numerics::specs::Fill::fill_begins, numerics::specs::Fill::fill_again, numerics::specs::Fill::fill_whole))]
pub fn powers_of(delta: f64) -> [f64; 16]
    ensures { result ≡ tabulate (powi_byte_of delta) 16 }
{
    let mut a = [0.0; 16];
    for q in 0u8..16 {
        a[usize::from(q)] = power::powi_byte(delta, q);
    }
    a
}

// exp(−delta^q) for q from 0 to 15, and last exp(−0), for a term with no damping: a cell, so that its term works out no exponential.
#[tactic(auto, using(numerics::specs::Fill::fill_begins, numerics::specs::Fill::fill_again, numerics::specs::Fill::fill_whole))]
pub fn dampings_of(powers: Powers) -> [f64; 17]
    ensures { result ≡ tabulate (damping_at powers.entry.delta) 17 }
{
    let mut a = [0.0; 17];
    for q in 0..17 {
        a[q] = damping_at(powers, q);
    }
    a
}

#[tactic(auto, using(numerics::specs::Fill::get_d_tabulate), unfolding(crate::specs::Powers::damping_at))]
fn damping_at(powers: Powers, q: usize) -> f64
    ensures { result ≡ damping_at powers.entry.delta q }
{
    if q < 16 {
        return exp(-powers.cells[q]);
    }
    exp(-0.0)
}

impl<'a> Powers<'a> {
    // delta to the number whose signed byte is b.
    #[tactic(auto, using(numerics::specs::Fill::get_d_tabulate))]
    pub fn power(self, b: u8) -> f64
        ensures { result ≡ powi_byte_of self.entry.delta b }
    {
        if b < 16 {
            return self.cells[usize::from(b)];
        }
        power::powi_byte(self.delta, b)
    }
}

impl<'a> Dampings<'a> {
    // exp(−delta^c) for a term with a damping exponent c, exp(−0) for one with none.
    #[tactic(auto, using(crate::proofs::Laws::damping_at_lem), unfolding(crate::specs::Composition::damping_factor))]
    pub fn damping(self, exponent: Option<u8>) -> f64
        ensures { result ≡ damping_of self.entry.delta exponent }
    {
        match exponent {
            None => self.cells[16],
            Some(c) => {
                if c < 16 {
                    return self.cells[usize::from(c)];
                }
                exp(-power::powi_byte(self.delta, c))
            }
        }
    }
}
