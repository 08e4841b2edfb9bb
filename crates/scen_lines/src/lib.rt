//! The lines of a scenario, as they are written.
//!
//! The first line is `version 1`. Each other line has nine fields parted by one tab: the bucket, the map's
//! name, the map's width and height, the columns and rows of the start and the goal, and the length of a
//! least walk with eight decimals. With a blank for each tab:
//!
//! ```text
//! 1 maps/a b.map 4 4 0 0 3 3 4.24264069
//! ```
//!
//! What is written is read by `scen_text` as just these entries (`laws::written_is_read`).
#![tactic(auto)]

pub mod laws;
mod line;
mod naming;

pub use line::{Listed, Problem, put_entry, put_version};
pub use naming::problem_name;
pub use std::alloc::AllocError as NoMemory;
