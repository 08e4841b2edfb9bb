//! Searches over jumps that keep one state for each cell: they end right, with any consistent estimate,
//! wherever they stop up to the first stop (jump point), and however ties are broken.
//!
//! This crate has no code that runs: its specs have the definitions, and each law is the contract of a call
//! that does nothing.
#![tactic(auto)]

pub mod laws;
