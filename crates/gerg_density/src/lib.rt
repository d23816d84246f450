// The density search of gerg_density.rs: a pressure is inverted within a given bracket of densities. One step of the search takes the
// verdict of the trial at one density and answers what to do next; all that a search knows is in one struct by value.
#![tactic(auto)]

pub mod density;
pub mod trial;

use gerg::GergState;
use interval::Interval;

// An accepted density: its state, the state's scaled pressure residual, the interior trials, the given bracket and the last one.
#[derive(Clone, Copy)]
pub struct DensityResult {
    pub state: GergState,
    pub residual: f64,
    pub trials: usize,
    pub first: Interval,
    pub last: Interval,
}
