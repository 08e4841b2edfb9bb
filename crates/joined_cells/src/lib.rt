//! Which free cells of a grid belong together: those between which a walk leads.
//!
//! Flood fill: from each free cell that has no label yet, in the order of cell numbers, all cells are reached
//! to which moves lead, and get one label. A cell that is reached waits in a list until its own moves are
//! looked at, so nothing recurs. As a legal move is legal both ways, two cells have one label exactly where
//! a walk leads from one to the other. A part's label is one more than the number of its first cell.
#![tactic(auto)]

mod both;
mod flood;
mod labels;

pub use both::JoinedLayers;
pub use labels::JoinedCells;
pub use std::alloc::AllocError as NoMemory;
