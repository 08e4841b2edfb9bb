//! The session that answers lines as they come in pieces, for as long as they come.
#![tactic(auto)]

mod answer;
mod asked;
mod joined;
mod server;

pub use asked::Asked;
pub use server::LineServer;
pub use std::alloc::AllocError as NoMemory;
