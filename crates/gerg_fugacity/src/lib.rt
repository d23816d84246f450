// GERG-2008: the fugacity coefficients of a mixture.
#![tactic(auto)]

pub mod fugacity;
