// The nine derivatives, what a term adds to them, and the powers that the terms at one density share.
#![tactic(auto)]

pub mod derivatives;
pub mod parts;
pub mod powers;
