//! Walks that another tool found, judged by the least ones.
//!
//! The text of the walks has a line for each entry of a scenario, in order; blank lines are read
//! over. A line tells a walk by its points, or that no walk exists:
//!
//! ```text
//! 0,0 2,0 2,2
//! none
//! ```
//!
//! A claimed walk is judged by its own steps and the least cost alone, so it need not be the walk that
//! this program would find. It is accepted exactly where its points unfold to a walk from start to
//! goal that no other undercuts; all else is refused with the first reason that applies.
//!
//! The form of the lines and the order of the reasons are this project's.
#![tactic(auto)]

mod claims;
mod fault;
mod judging;
pub mod laws;
mod point;
mod reading;

pub use claims::Claimed;
pub use fault::WalkFault;
pub use judging::{Judged, judge_claimed, judge_walk};
pub use reading::read_walks;
pub use std::alloc::AllocError as NoMemory;
