//! The text of a grid map, after the benchmark's format of type octile.
//!
//! Four header lines are followed by a line for each row of cells from the top, and by nothing but
//! empty lines:
//!
//! ```text
//! type octile
//! height 2
//! width 3
//! map
//! ...
//! .@.
//! ```
//!
//! The words of the header are parted by spaces and tabs, which may stand before and after them too.
//! A row has one byte for each cell. Every text is read as its map or as the fault of its first
//! broken line.
//!
//! Sturtevant, "Benchmarks for Grid-Based Pathfinding", 2012, and
//! movingai.com/benchmarks/formats.html. That sides are 1 to 4096, that numbers have at most nine
//! digits and which lines may follow the rows is this project's profile.
#![tactic(auto)]

mod bytes;
mod fault;
mod map;
mod reading;
mod writing;

pub use bytes::Bytes;
pub use fault::MapFault;
pub use map::MapText;
pub use reading::read_map;
pub use std::alloc::AllocError as NoMemory;
pub use writing::write_map;
