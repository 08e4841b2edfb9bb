//! What is printed of a map's two grids without a session: goal boxes, first moves and costs of one cell, by
//! one pass each; certificates and what they prove; table files.
#![tactic(auto)]

mod boxes;
mod cell;
mod check;
mod costs;
mod encoded;
mod framed;
mod moves;
mod prove;

pub use boxes::boxes_at;
pub use check::verdict;
pub use costs::{CostLines, Distances, costs_at, write_costs};
pub use encoded::{TableFile, file_of, write_file};
pub use framed::{framed_costs, framed_field};
pub use moves::moves_at;
pub use prove::proof_of;
pub use std::alloc::AllocError as NoMemory;
