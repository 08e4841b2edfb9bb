//! Texts of cells, directions and taken states, as printed lines have them; how numbers and cells are read
//! from words; and the ends of a query.
#![tactic(auto)]

mod cells;
mod ends;
mod reading;

pub use cells::{dir_text, put_cell, put_points, put_state};
pub use ends::AskedEnds;
pub use reading::{first_number, first_two, point, two_numbers};
pub use std::alloc::AllocError as NoMemory;
