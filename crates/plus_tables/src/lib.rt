//! Tables of jump distances, and jumps that read them alone.
//!
//! For each free cell and each direction a table entry tells after how many moves the legal run meets a
//! marked cell, or else, as a number not above 0, how long the run is. With these a jump is found in at most
//! two reads, wherever the goal lies. This is JPS+ (Harabor and Grastien, ICAPS 2014), here for each corner
//! rule.
#![tactic(auto)]

mod build;
mod flags;
mod heading;
mod jumps;
pub mod laws;
mod lines;
mod onward;
mod rows;
mod source;
mod tables;
mod turns;

pub use source::PlusJumps;
pub use tables::Tables;
