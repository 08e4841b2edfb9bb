//! Scenarios that are made: the entries of one with their least lengths on a map, and problems from a number.
//!
//! What a map makes of an entry is settled in one place, for whoever judges or lists it: it is meant for a
//! map of other sides, an end lies outside or is blocked, or a query is searched. A listed length is that of
//! a least walk on the grid of the query, rounded to eight decimals, and its bucket comes from the cost
//! itself. So a scenario gets the lengths of another corner rule, or its wrong ones put right.
#![tactic(auto)]

mod costs;
pub mod laws;
mod lengths;
mod problems;

pub use costs::{LeastCosts, Settled, has_sides};
pub use lengths::{Lengths, write_lengths};
pub use problems::problems_text;
pub use std::alloc::AllocError as NoMemory;
