// Rows 20 and 21, which are tested first.
#![tactic(auto, unfolding(crate::specs::RootList::within_envelope))]

ghost use Rattle.std.specs.Prelude.{◌≡◌, ◌<◌};
ghost use Rattle.gerg_reducing.specs.Listed.{Listed};
ghost use Rattle.gerg_root_list.specs.RootList as is;

use gerg_reducing::GergModel;

// Row 20: a listed component that is not one of the first five.
pub fn beyond_five(model: &GergModel) -> bool
    requires { Listed model.now }
    ensures { result ≡ is.beyond_five model.now }
{
    model.component_indices[..model.components]
        .iter()
        .any(|index| *index >= 5)
}

// Row 21.
pub fn within_envelope(temperature: f64, pressure: f64) -> bool
    ensures { result ≡ is.within_envelope temperature pressure }
{
    (230.0 <= temperature) & (temperature <= 350.0) & ((1e5 <= pressure) & (pressure <= 1e7))
}
