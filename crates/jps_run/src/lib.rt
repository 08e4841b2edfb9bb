//! The top call of the program: words, files and streams in, a status out. `replies` has who answers, and
//! what is printed of it.
#![tactic(auto)]

mod commands;
mod replies;
mod texts;
mod top;
mod work;

pub use std::alloc::AllocError as NoMemory;
pub use top::{refuse, run, starve};
