//! The least costs from one cell to all cells of a map, and the directions with which least walks begin, by
//! one pass over the cells and without a heap.
//!
//! Cells are settled in waves. A wave holds the cells whose cost lies in [k, k + 1), and settles all of them
//! at once, since no move costs less than 1; no move costs 2 or more, so three lists serve. Dial's buckets
//! (1969), as wide as the least move (delta-stepping, Meyer and Sanders, 2003). A cost is its rank, one
//! whole number (`root2_cost`). Beside its rank each cell keeps a byte: the directions with which some least
//! walk to it begins, which are those of all cells before it on least walks.
#![tactic(auto)]

mod front;
pub mod laws;
mod ranks;
mod sweep;
mod waves;

pub use std::alloc::AllocError as NoMemory;
pub use waves::{CostWaves, has_dir};
