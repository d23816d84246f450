// The square root, as the nearest double.
#![tactic(auto)]

pub mod sqrt;
