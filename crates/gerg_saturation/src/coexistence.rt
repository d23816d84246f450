// What one or two exterior roots tell of saturation.
#![tactic(auto, unfolding(crate::specs::Coexistence::magnitude_of, crate::specs::Coexistence::sign_of, crate::specs::Coexistence::saturation_of, crate::specs::Coexistence::coexisting_of, crate::specs::Coexistence::verdict_of, crate::specs::Coexistence::tried_of))]

ghost use Rattle.std.specs.Prelude.{◌≡◌, ◌<◌};
ghost use Rattle.gerg_saturation.specs.Coexistence.{magnitude_of, sign_of, saturation_of, coexisting_of, verdict_of, tried_of};

use crate::{Exterior, PureSaturation, Sample, Tried, Verdict};
use gerg_root_list::Root;

// The size of a number, +0 for either zero: `halve::size` of gerg_scan_steps keeps a zero's sign, and std's `abs` speaks of the sign bit, from which the law to `magnitude_of` is longer than this.
pub fn magnitude(x: f64) -> f64
    ensures { result ≡ magnitude_of x }
{
    if x < 0.0 {
        return -x;
    }
    if x == 0.0 {
        return 0.0;
    }
    x
}

// A single root denser than the reducing density is a liquid. A number and no enum: it takes the place of a difference, of which the halvings ask
// the sign alone.
pub fn sign(reducing_density: f64, head: &[f64; 4]) -> f64
    ensures { result ≡ sign_of reducing_density head.now }
{
    if head[0] > reducing_density {
        return -1.0;
    }
    1.0
}

// The numbers of two roots, and their coefficients of the one component.
pub fn saturation(
    temperature: f64,
    pressure: f64,
    liquid: &[f64; 4],
    liquid_ln_phi: f64,
    vapor: &[f64; 4],
    vapor_ln_phi: f64,
) -> PureSaturation
    ensures { result ≡ saturation_of temperature pressure liquid.now liquid_ln_phi vapor.now vapor_ln_phi }
{
    let residual = magnitude(liquid_ln_phi - vapor_ln_phi);
    PureSaturation {
        temperature_k: temperature,
        pressure_pa: pressure,
        liquid_compressibility: liquid[2],
        vapor_compressibility: vapor[2],
        liquid_molar_volume: 1.0 / liquid[0],
        vapor_molar_volume: 1.0 / vapor[0],
        ln_fugacity_coefficient: vapor_ln_phi,
        fugacity_residual: residual,
        iterations: 0,
    }
}

pub fn coexisting(
    place: usize,
    temperature: f64,
    pressure: f64,
    liquid: &Root,
    vapor: &Root,
) -> Exterior
    requires { place < 21 }
    ensures { result ≡ coexisting_of place temperature pressure liquid.now vapor.now }
{
    let l = liquid.coefficients[place];
    let v = vapor.coefficients[place];
    let s = saturation(temperature, pressure, &liquid.head, l, &vapor.head, v);
    Exterior::Coexisting(l - v, s)
}

// What a temperature says by its sample: a refusal is the sample's.
pub fn tried(sample: Sample) -> Tried
    ensures { result ≡ tried_of sample }
{
    Ok(sample?.verdict())
}

impl Exterior {
    // A saturation is accepted by its residual.
    pub fn verdict(self) -> Verdict
        ensures { result ≡ verdict_of self }
    {
        match self {
            Exterior::Single(sign) => Verdict::Apart(sign),
            Exterior::Coexisting(difference, s) => {
                if s.fugacity_residual <= 1e-12 {
                    return Verdict::Accepted(s);
                }
                Verdict::Apart(difference)
            }
        }
    }
}
