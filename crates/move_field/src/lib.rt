//! The field of first moves to a cell: from each cell of the map the direction in which a unit has to go.
//!
//! Moves are symmetric, so one pass from the cell (`cost_waves`) tells what a least walk from each other cell
//! costs. A legal move begins a least walk exactly where the cost falls by what the move costs; of these the
//! one of least number is the first move. Games call it a flow field.
#![tactic(auto)]

mod field;
mod letter;

pub use field::put_field;
pub use std::alloc::AllocError as NoMemory;
