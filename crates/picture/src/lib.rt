//! The text of a picture of a query: the map by its grounds, the walk, and the taken states.
//!
//! The picture is in SVG, and one unit of its plane is one cell. Each ground is one path: a horizontal
//! stroke as wide as a cell over each longest run of its cells, row by row and from the left, so that a
//! wall of thousands of cells is one stroke. What stands later lies above: the background, the grounds,
//! the cells of the taken states, the walk, and its ends.
//!
//! W3C, "Scalable Vector Graphics (SVG) 1.1", 2011. Which lines stand in which order, and the colours,
//! are this project's own.
#![tactic(auto)]

mod answer;
mod drawing;
mod kinds;
pub mod laws;
mod marks;
mod strokes;

pub use answer::DrawnWalk;
pub use drawing::draw;
pub use kinds::DrawnGround;
pub use std::alloc::AllocError as NoMemory;
