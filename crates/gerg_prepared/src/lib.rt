// A prepared model: what rows 1 to 5 make of the coefficient file's bytes, the component list and the fractions. It passes only between layers.
// The calls above take file, list and fractions as three parameters, in the order of the C interface and of document 01: a struct of them would be made at each call and taken apart again in `rows`.
#![tactic(auto)]

use gerg_reducing::GergModel;

pub mod rows;

// What rows 1 to 5 give where nothing is refused. Three calls lend it as a `Mixture`, three fields each time: a method would ask for `Listed`, and its clauses are longer than the fields.
#[derive(Clone, Copy)]
pub struct Mixed {
    pub model: GergModel,
    // of the reducing volume and of the reducing temperature
    pub gradients: [[f64; 21]; 2],
}
