//! The lines that answer queries and edits.
#![tactic(auto)]

mod lines;

pub use lines::{edit_bytes, put_edit_reply, put_reply};
pub use std::alloc::AllocError as NoMemory;
