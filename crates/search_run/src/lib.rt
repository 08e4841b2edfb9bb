//! The run of a best-first search, as a definition: which states are taken, in which order, at which
//! costs and from which parents.
//!
//! The searches of `jps` give exactly such runs. This crate has no code that searches: its specs
//! have the definition, and module `laws` what holds of all runs.
#![tactic(auto)]

pub mod laws;
