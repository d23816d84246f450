// The exponential, equal to its definition in specs/ for every double.
#![tactic(auto)]

pub mod exp;
