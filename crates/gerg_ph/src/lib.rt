// The saturation temperature of a pure fluid at a pressure: `pure_saturation` of gerg_ph.rs. An interval of temperatures is halved until
// the fugacity coefficients of the first and the last exterior root agree.
#![tactic(auto)]

ghost use Rattle.std.specs.Prelude.{◌≡◌, false, ◌<◌};
ghost use Rattle.gerg_grid.specs.Grid.{grid_of};
ghost use Rattle.gerg_root_list.specs.RootList as root_list;
ghost use Rattle.gerg_saturation.specs.Checks.{positive_place};

pub mod sampling;
pub mod saturation;

use gerg::Range;
use gerg_reducing::lent::Mixture;

// What stays while temperatures are tried: a mixture of the first five components, the grid of densities, the range, the place in the
// list of the one positive fraction, and the pressure in Pa.
#[derive(Clone, Copy)]
pub struct Isobar<'a> {
    pub mixture: Mixture<'a>,
    pub grid: &'a [f64],
    pub range: Range,
    pub place: usize,
    pub pressure: f64,
    pub ghost whole: { grid.now ≡ grid_of },
    pub ghost first_five: { root_list.beyond_five mixture.model.now ≡ false },
    pub ghost positive: { place ≡ positive_place mixture.model.now },
    pub ghost small: { place < 21 },
}
