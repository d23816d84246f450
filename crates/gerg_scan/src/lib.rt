// The scan of an isotherm over the grid: each crossing of the target is halved, and its best point joins the roots.
#![tactic(auto)]

pub mod sampling;

use gerg::Range;
use gerg_isotherm::lent::Isotherm;

// What is sought: the densities at which the mixture of an isotherm has a pressure.
#[derive(Clone, Copy)]
pub struct Sought<'a> {
    pub isotherm: Isotherm<'a>,
    pub range: Range,
    // Pa
    pub pressure: f64,
}
