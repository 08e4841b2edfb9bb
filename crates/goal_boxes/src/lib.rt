//! Boxes of goals, and a search that goes by them.
//!
//! The box of a cell and a direction is the least rectangle of cells that holds every cell to which some
//! least walk from that cell begins with a move in this direction. A search for a goal may leave out each
//! move whose box does not hold the goal: no least walk to the goal begins with it. Geometric containers
//! after Wagner and Willhalm (2003). The boxes of a cell come from one pass of `cost_waves` from it.
#![tactic(auto)]

mod area;
mod around;
mod boxed;
mod boxes;
pub mod laws;
mod offers;
mod source;

pub use area::Area;
pub use around::{CellBoxes, boxes_by, boxes_of, boxes_of_waves};
pub use best_first::{Found, Taken};
pub use boxed::{boxed_query, boxed_search};
pub use boxes::{Boxes, NO_BOXES};
pub use std::alloc::AllocError as NoMemory;
