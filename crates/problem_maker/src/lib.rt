//! Problems that are made from a number, the same on each machine: pairs of free cells that a walk joins, in
//! the order of what their least walks cost.
//!
//! The free cells of a map, land and water, stand in the order of their numbers. The words of a seed
//! exclusive-or 2 (of the generator that `map_maker` has) make tries: the start is the free cell at the first
//! word modulo their number, the goal that at the second. A try is kept where start and goal differ and a
//! walk leads from one to the other. Tries end with the last one that is wanted, or after ten times as many
//! and a hundred.
//!
//! Scenarios of this kind: Sturtevant, "Benchmarks for Grid-Based Pathfinding", 2012. How pairs are drawn is
//! this project's own.
#![tactic(auto)]

mod free;
pub mod laws;
mod sorting;
mod tries;

pub use sorting::{Problem, order};
pub use std::alloc::AllocError as NoMemory;
pub use tries::make_ends;
