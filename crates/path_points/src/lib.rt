//! Points, and the walks that they stand for.
//!
//! A walk is handed on and printed as points: consecutive points lie on one of the eight lines, and
//! unfolding fills each segment cell by cell.
#![tactic(auto)]

mod checking;
pub mod laws;
mod points;
mod segments;
mod turning;
mod unfolding;

pub use checking::{BadAt, check_walk};
pub use points::{Cells, Costs, Items, Points, Walk, push_item};
pub use std::alloc::AllocError as NoMemory;
pub use turning::{push_turn, turns};
pub use unfolding::unfold;
