//! First moves: of each pair of cells the direction of least number with which some least walk begins.
//!
//! The first moves from one cell to all cells, by cell number, are cut into longest runs of equal ones, as in
//! Botea's compressed path databases (AIIDE 2011), with runs over rows of cells as in Strasser, Botea and
//! Harabor's (JAIR 2015). Each row comes from one pass over the map (`cost_waves`). A first move is found by
//! halving the runs of a row; a walk looks first near the part of a row where its goal stood in the first
//! one.
#![tactic(auto)]

mod follow;
mod guide;
pub mod laws;
mod moves;
mod row;

pub use follow::follow_by_pass;
pub use moves::Moves;
pub use row::{Row, Run};
pub use std::alloc::AllocError as NoMemory;
