// The natural logarithm: reduction by a table of ln (1 + i / 128) and an odd polynomial.
#![tactic(auto)]

pub mod ln;
