//! Work on items, one after the other, whose lines go out in pieces.
//!
//! A command is a [`Job`]: it says what it does with one item, and what closes its output. [`work_items`]
//! works the items of any job, [`work_below`] with a line above theirs, [`work_more`] those that come in
//! later. Why the work stops is a [`Stop`]; what is known at each stop is stated once, for any lines.
#![tactic(auto)]

mod job;
mod printed;
mod sending;
mod stop;

pub use job::{Job, work_below, work_items, work_more};
pub use printed::{Printed, said};
pub use sending::{send, send_full, send_text};
pub use std::alloc::AllocError as NoMemory;
pub use stop::Stop;
