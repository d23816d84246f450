// The reducing volume and temperature of a mixture, and their gradients by mole fraction.
#![tactic(auto)]

pub mod gradients;
pub mod lent;
pub mod reducing;

// Which reducing value.
#[derive(Clone, Copy, Debug, PartialEq, Eq)]
pub enum Reduced {
    Volume,
    Temperature,
}

// A mixture of fixed composition, between the layers. Its reducing gradients, two rows of 21 numbers as document 01 has them, volume first, are passed beside it.
#[derive(Clone, Copy)]
pub struct GergModel {
    // mole fraction of each of the 21 components
    pub fractions: [f64; 21],
    // the listed components in list order, each less 1; the first `components` places count: an ArrayVec is not Copy, and the model is
    pub component_indices: [u8; 21],
    pub components: usize,
    // K
    pub reducing_temperature: f64,
    // mol/m³
    pub reducing_density: f64,
    // kg/mol
    pub molar_mass: f64,
}
