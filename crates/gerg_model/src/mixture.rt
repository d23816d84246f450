// The mixture: component list and fractions (rows 3 and 4), the model, and row 5.

ghost use Rattle.std.specs.Prelude.{◌≡◌, ◌<◌, length};
ghost use Rattle.std.specs.Float.Ieee.Scale.{finite};
ghost use Rattle.gerg_model.specs.MixtureCheck as check;
ghost use Rattle.gerg_model.specs.Accepted.{KnownList, Accepted};
ghost use Rattle.gerg_model.specs.Mixture as mix;

use gerg_reducing::reducing::reducing;
use gerg_reducing::{GergModel, Reduced};
use gerg_refusals::Refusal;
use gerg_tables::{named, numbers};

#[tactic(auto, unfolding(crate::specs::MixtureCheck::bad_number))]
fn bad_number(list: &[u8], k: usize) -> bool
    requires { k < length list.now }
    ensures { result ≡ check.bad_number list.now k }
{
    let number = list[k];
    (21 <= k) | (number == 0) | (21 < number) | list[..k].contains(&number)
}

// Row 3's first bad place.
pub fn first_bad_number(list: &[u8]) -> Option<usize>
    ensures { result ≡ check.found (check.bad_number list.now) (length list.now) }
{
    (0..list.len()).position(|k| bad_number(list, k))
}

fn first_bad_fraction(fractions: &[f64]) -> Option<usize>
    ensures { result ≡ check.found (check.bad_fraction fractions.now) (length fractions.now) }
{
    fractions
        .iter()
        .position(|x| !numbers::is_finite(*x) | (*x < 0.0))
}

// A loop, since the iterator's `sum` begins at −0 and the definition at +0.
#[tactic(auto, using(numerics::specs::Iterate::iter_zero, numerics::specs::Iterate::iter_next), unfolding(crate::specs::MixtureCheck::sum_of))]
fn sum_of(fractions: &[f64]) -> f64
    ensures { result ≡ check.sum_of fractions.now }
{
    let mut sum = 0.0;
    for x in fractions {
        sum += *x;
    }
    sum
}

#[tactic(auto, unfolding(crate::specs::MixtureCheck::adds_up))]
fn adds_up(fractions: &[f64]) -> bool
    ensures { result ≡ check.adds_up fractions.now }
{
    // Both ends, as the definition has them: the law of `abs` stands in gerg_search, on which no mixture stands.
    let difference = sum_of(fractions) - 1.0;
    (-1e-9 <= difference) & (difference <= 1e-9)
}

// Rows 3 and 4, in their order.
#[tactic(auto, using(crate::proofs::Laws::First::found_some, crate::proofs::Laws::First::found_none), unfolding(crate::specs::MixtureCheck::check_of))]
pub fn check_mixture(list: &[u8], fractions: &[f64]) -> Result<(), Refusal>
    ensures { result ≡ check.check_of list.now fractions.now }
{
    if list.is_empty() {
        return Err(Refusal::Components { place: 0 });
    }
    if let Some(place) = first_bad_number(list) {
        return Err(Refusal::Components { place });
    }
    if fractions.len() != list.len() {
        return Err(Refusal::Fractions { place: list.len() });
    }
    if let Some(place) = first_bad_fraction(fractions) {
        return Err(Refusal::Fractions { place });
    }
    if !adds_up(fractions) {
        return Err(Refusal::Fractions { place: list.len() });
    }
    Ok(())
}

#[tactic(auto, using(numerics::specs::Iterate::iter_zero, numerics::specs::Iterate::iter_next), unfolding(crate::specs::Mixture::by_component))]
fn by_component(list: &[u8], fractions: &[f64]) -> [f64; 21]
    requires { Accepted list.now fractions.now }
    ensures { result ≡ mix.by_component list.now fractions.now }
{
    let mut x = [0.0; 21];
    for (number, fraction) in list.iter().zip(fractions) {
        x[usize::from(*number) - 1] = *fraction;
    }
    x
}

// By index: of places that are written through a zip over `iter_mut` a proof knows nothing.
#[tactic(auto, using(numerics::specs::Iterate::iter_zero, numerics::specs::Iterate::iter_next), unfolding(crate::specs::Mixture::indices_of))]
fn indices(list: &[u8]) -> [u8; 21]
    requires { KnownList list.now }
    ensures { result ≡ mix.indices_of list.now }
{
    let mut a = [0u8; 21];
    for (k, number) in list.iter().enumerate() {
        a[k] = *number - 1;
    }
    a
}

// A loop, as in `sum_of`: the iterator's `sum` begins at −0.
#[tactic(auto, using(numerics::specs::Iterate::iter_zero, numerics::specs::Iterate::iter_next), unfolding(crate::specs::Mixture::molar_mass))]
fn molar_mass(doubles: &[f64; 4086], x: &[f64; 21]) -> f64
    ensures { result ≡ mix.molar_mass doubles.now x.now }
{
    let mut mass = 0.0;
    for i in 0..21 {
        mass += x[i] * named::mmi_gerg(doubles, i) / 1000.0;
    }
    mass
}

// The model of a list and fractions that passed.
#[tactic(auto, unfolding(crate::specs::Mixture::model_of))]
pub fn model(doubles: &[f64; 4086], list: &[u8], fractions: &[f64]) -> GergModel
    requires { Accepted list.now fractions.now }
    ensures { result ≡ mix.model_of doubles.now list.now fractions.now }
{
    let x = by_component(list, fractions);
    let component_indices = indices(list);
    let reducing_temperature = reducing(doubles, &x, Reduced::Temperature);
    let reducing_density = 1000.0 / reducing(doubles, &x, Reduced::Volume);
    let molar_mass = molar_mass(doubles, &x);
    GergModel {
        fractions: x,
        component_indices,
        components: list.len(),
        reducing_temperature,
        reducing_density,
        molar_mass,
    }
}

// The first place whose value is not finite.
pub fn first_nonfinite(values: &[f64]) -> Option<usize>
    ensures { result ≡ check.found (mix.nonfinite_at values.now) (length values.now) }
{
    values.iter().position(|x| !numbers::is_finite(*x))
}

fn all_finite(gradient: &[f64; 21]) -> bool
    ensures { result ≡ mix.all_finite gradient.now 21 }
{
    first_nonfinite(gradient).is_none()
}

// Row 5: whether the reducing values are finite and positive and the gradients finite.
#[tactic(auto, unfolding(crate::specs::Mixture::reducing_sound))]
pub fn reducing_sound(model: GergModel, gradients: &[[f64; 21]; 2]) -> bool
    ensures { result ≡ mix.reducing_sound model gradients.now }
{
    let temperature = model.reducing_temperature;
    let density = model.reducing_density;
    numbers::is_finite(temperature)
        & (temperature > 0.0)
        & numbers::is_finite(density)
        & (density > 0.0)
        & all_finite(&gradients[0])
        & all_finite(&gradients[1])
}
