// What is made of a scan's roots, whatever each gives: rows 20 and 21, the residual that row 22 allows, and the answer in lent memory. All
// of `gerg_flash` that looks at no isotherm and no tables.
#![tactic(auto)]

pub mod answer;
pub mod envelope;

use arrayvec::ArrayVec;

// A root that is kept.
#[derive(Clone, Copy, Default)]
pub struct Root {
    // density, pressure, Z and Gibbs energy in the order in which they are written: an array, since it is copied as it stands
    pub head: [f64; 4],
    // ln φ of the listed components in the first places
    pub coefficients: [f64; 21],
}

// At most as many as a grid has points.
pub type Roots = ArrayVec<Root, 386>;
