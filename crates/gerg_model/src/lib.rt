// GERG-2008: component list and fractions, the mixture model, its reducing values and their gradients.
#![tactic(auto)]

pub mod mixture;
