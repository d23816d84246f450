// A chromatograph's list: records of packed decimal read into components, parts and fractions, and written from whole parts.
#![tactic(auto)]

pub mod reader;
mod row_3;
pub mod writer;
