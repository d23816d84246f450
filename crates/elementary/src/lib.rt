// Elementary functions on doubles, each equal to its definition in specs/ for every double. The crates above see those names and their laws only.
#![tactic(auto)]

pub mod export;
pub mod hyperbolic;
pub mod power;
