// GERG-2008: what the Helmholtz derivatives take from the temperature alone.
#![tactic(auto)]

pub mod isotherm;
pub mod lent;
pub mod part;
pub mod temperature;
