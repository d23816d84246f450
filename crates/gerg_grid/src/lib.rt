// The densities at which an isotherm is sampled: logarithmic and even points, sorted, equals dropped. No equation of state stands here.
#![tactic(auto)]

pub mod grid;

use arrayvec::ArrayVec;

// Densities in rising order.
pub type Points = ArrayVec<f64, 386>;

// The grid by value, for who keeps a copy: `Points` have one owner, who lends them.
#[derive(Clone, Copy)]
pub struct GridPoints {
    pub points: [f64; 386],
    pub count: usize,
}
