// GERG-2008: the nine derivatives as sums over components, terms and pairs.
#![tactic(auto)]

pub mod departure;
pub mod ideal;
pub mod lent;
pub mod pure;
pub mod sums;
