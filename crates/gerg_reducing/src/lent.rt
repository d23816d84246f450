// A mixture that is lent: its model with the tables and the gradients that belong to it.
ghost use Rattle.gerg_reducing.specs.Listed.{Listed};

use crate::GergModel;
use gerg_tables::coefficients::Coefficients;

#[derive(Clone, Copy)]
pub struct Mixture<'a> {
    pub coefficients: Coefficients<'a>,
    pub model: &'a GergModel,
    // of the reducing volume and of the reducing temperature
    pub gradients: &'a [[f64; 21]; 2],
    pub ghost listed: { Listed model.now },
}
