//! Objects in memory, which tests hand in: they tell their bytes and fail where they are told to.
//!
//! A call moves at most `piece` bytes, and the calls whose numbers, from 1, stand in `failing`
//! fail.

mod calls;
mod files;
mod parts;
mod sink;
mod source;

pub use files::MemFiles;
pub use parts::{bytes_under, copy_front};
pub use sink::MemSink;
pub use source::MemSource;
