#![tactic(auto)]

// Specifications and laws that every other crate cites; no code runs.
