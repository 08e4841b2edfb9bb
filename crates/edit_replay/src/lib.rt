//! A session of queries and edits on one map.
//!
//! A session keeps the current layers, what its engine keeps beside them, and the memory of its
//! searches, which is made once and used by each query.
#![tactic(auto)]

mod engine;
mod kept;
pub mod laws;
mod parts;
mod reply;
mod search;
mod session;

pub use best_first::Layout;
pub use engine::Engine;
pub use plain_search::Taken;
pub use reply::{EditReply, Reply};
pub use session::Session;
pub use std::alloc::AllocError as NoMemory;
