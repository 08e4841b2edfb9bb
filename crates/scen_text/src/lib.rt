//! The text of a scenario: queries on one map with their listed lengths, after the benchmark's
//! format of version 1.
//!
//! The first line names the version, and each other line that is not blank is an entry:
//!
//! ```text
//! version 1
//! 0 maps/a b.map 4 2 0 0 3 1 3.41421
//! ```
//!
//! The fields of an entry are its bucket, the map's name, which may hold spaces, the map's width and
//! height, the columns and rows of the start and the goal, and the length of a shortest path. Every
//! text is read as its entries or as the fault of its first broken line.
//!
//! Sturtevant, "Benchmarks for Grid-Based Pathfinding", 2012, and
//! movingai.com/benchmarks/formats.html. That numbers have at most nine digits, that a length has at
//! most 8 digits before the point and 20 behind it, and that ten of these are kept is this project's
//! profile.
#![tactic(auto)]

mod entry;
mod fault;
mod length;
pub mod names;
mod reading;
mod words;

pub use entry::{ByteRange, Entry};
pub use fault::ScenFault;
pub use reading::read_scen;
pub use std::alloc::AllocError as NoMemory;
