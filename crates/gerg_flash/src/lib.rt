// The exterior roots of gerg_flash.rs: the pressure of an isotherm is sampled on a grid of densities, each crossing of the target is
// halved, and the roots that do not lie between the points of negative stiffness are kept.
#![tactic(auto)]

ghost use Rattle.std.specs.Prelude.{◌≡◌};
ghost use Rattle.gerg_tables.specs.Lent.{lent};

pub mod roots;
pub mod settle;

use gerg_reducing::lent::Mixture;
use gerg_scan::Sought;

// What is sought of a mixture: the densities at which its isotherm has a pressure, and the fugacity coefficients there.
#[derive(Clone, Copy)]
pub struct SoughtRoots<'a> {
    pub densities: Sought<'a>,
    pub mixture: Mixture<'a>,
    pub ghost tables: { lent densities.isotherm.coefficients ≡ lent mixture.coefficients },
    pub ghost model: { densities.isotherm.model.now ≡ mixture.model.now },
}
