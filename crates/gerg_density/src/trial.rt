// The trial of a density, from its pressure and its stiffness there.
#![tactic(auto, unfolding(crate::specs::Trial::scale_of, crate::specs::Trial::sample_of))]

ghost use Rattle.std.specs.Prelude.{◌≡◌};
ghost use Rattle.gerg_density.specs.Trial.{scale_of, sample_of};

use gerg_refusals::Refusal;
use gerg_search::Sample;
use gerg_tables::numbers::is_finite;

// The larger of the target and 1 Pa. Not `max`, which makes 1 of a target that is NaN.
pub fn scale(target: f64) -> f64
    ensures { result ≡ scale_of target }
{
    if target < 1.0 {
        return 1.0;
    }
    target
}

// Nonfinite numbers, then the stiffness, and the tolerance only after both.
pub fn sample(target: f64, p: f64, derivative: f64) -> Sample
    ensures { result ≡ sample_of target p derivative }
{
    if !is_finite(p) | !is_finite(derivative) {
        return Err(Refusal::NotFinite);
    }
    let s = scale(target);
    let f = (p - target) / s;
    if derivative <= 0.0 {
        return Err(Refusal::TrialUnstable);
    }
    Ok((f, derivative / s))
}
