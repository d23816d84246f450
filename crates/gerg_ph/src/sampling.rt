// What the exterior roots at a temperature tell of saturation.
#![tactic(auto, unfolding(crate::specs::Sampling::roots_sample, crate::specs::Sampling::sample_of))]

ghost use Rattle.std.specs.Prelude.{◌≡◌, Ok};
ghost use Rattle.gerg_ph.specs.Isobars.{sample_along};
ghost use Rattle.gerg_ph.specs.Sampling.{roots_sample};

use crate::Isobar;
use gerg_flash::roots;
use gerg_refusals::Refusal;
use gerg_root_list::{Root, Roots, envelope};
use gerg_saturation::{Exterior, Sample, coexistence};

// From the roots that are kept: the vapor is the first and the liquid the last.
fn from_roots(isobar: Isobar, temperature: f64, roots: &[Root]) -> Sample
    ensures { result ≡ roots_sample isobar.entry.mixture.model.now.reducing_density isobar.entry.place temperature isobar.entry.pressure (Ok roots.now) }
{
    match roots {
        [] => Err(Refusal::NoRoot),
        [root] => Ok(Exterior::Single(coexistence::sign(
            isobar.mixture.model.reducing_density,
            &root.head,
        ))),
        [vapor, .., liquid] => Ok(coexistence::coexisting(
            isobar.place,
            temperature,
            isobar.pressure,
            liquid,
            vapor,
        )),
    }
}

// Row 21, then the roots; row 20 belongs to the model and is tested before.
pub fn sample(isobar: Isobar, temperature: f64) -> Sample
    ensures { result ≡ sample_along isobar.entry temperature }
{
    if !envelope::within_envelope(temperature, isobar.pressure) {
        return Err(Refusal::OutsideEnvelope);
    }
    let mut kept = Roots::new();
    roots::exterior_roots(
        isobar.grid,
        isobar.mixture,
        isobar.range,
        temperature,
        isobar.pressure,
        &mut kept,
    )?;
    from_roots(isobar, temperature, &kept)
}
