//! Maps and scripts that are made from a number, the same on each machine.
//!
//! A seed gives a list of words, and from these a map or the commands of a drill are made:
//!
//! - a map of a width and a height takes one word for each cell, row by row from the left; the cell is
//!   blocked where its word modulo 100 is below the percentage that is asked for;
//! - a drill has 150 commands on a map of 256 by 256, numbered from 1. Its words are those of the seed
//!   with the lowest bit changed, so that they are not the map's. A command whose number is divisible
//!   by 3 is an edit of three words, each other one is a query of four.
//!
//! The generator is PCG XSH RR 64/32 of crate `rand_pcg`, seeded by `seed_from_u64`: O'Neill, "PCG: a
//! family of simple fast space-efficient statistically good algorithms for random number generation",
//! 2014. What is made of the words is this project's own.
#![tactic(auto)]

mod drill;
mod making;

pub use drill::drill_script;
pub use making::make;
pub use std::alloc::AllocError as NoMemory;
