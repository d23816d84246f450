// The public calls `outer_roots` and `pure_saturation`. Each starts from the coefficient file's bytes, the component list and the fractions, and meets rows 1 to 5 first.
#![tactic(auto, unfolding(crate::specs::Equilibrium::roots_call, crate::specs::Equilibrium::roots_written, crate::specs::Equilibrium::saturation_call))]

pub mod roots;
pub mod saturation;
