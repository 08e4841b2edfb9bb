//! Certificates: texts from which anyone can see that a walk is least, or that there is none.
//!
//! With C the least cost, the potential of a cell is the lesser of its least cost from the start and of C
//! less its octile estimate to the goal. Only the cells where the first is the lesser are listed. Where no
//! walk exists, the reached cells are listed. The checker is crate `potential_check`, which knows nothing
//! of a search.
#![tactic(auto)]

pub mod laws;
mod writing;

pub use std::alloc::AllocError as NoMemory;
pub use writing::certificate;
