// The public calls `properties`, `fugacity` and `density`, each in a range that the caller names. Each starts from the coefficient file's bytes, the component list and the fractions, and meets rows 1 to 5 first.
#![tactic(auto, unfolding(crate::specs::Calls::properties_in, crate::specs::Calls::fugacity_in, crate::specs::Calls::fugacity_written_in, crate::specs::Calls::fugacity_from, crate::specs::Calls::memory_from, crate::specs::Calls::fugacity_after, crate::specs::Calls::memory_after, crate::specs::Calls::density_in))]

pub mod density;
pub mod fugacity;
pub mod properties;
