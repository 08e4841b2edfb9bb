//! The edge to the outside: files by name, bytes that come in and bytes that go out.
//!
//! A program reads and writes through the traits [`Files`], [`Source`] and [`Sink`]. Contracts see
//! two things of an object: its bytes, where it tells them, and a count of its faults. A fault is
//! only answered by a call in which that count rose, so no caller can be blamed for a fault that
//! nobody had. There are three kinds of objects:
//!
//! - in memory ([`MemFiles`], [`MemSource`], [`MemSink`]): they tell their bytes, move them in
//!   pieces, and fail at the calls that a test names;
//! - sure ([`SureFiles`], [`SureSource`], [`SureSink`]): they never fail;
//! - real ([`RealFiles`], [`RealIn`], [`RealOut`]): the system's. They tell nothing of their bytes.
//!
//! [`read_whole`] and [`write_whole`] work over any of them.
#![tactic(auto)]

mod memory;
mod outside;
mod real;
mod sure;
mod whole;

pub use memory::{MemFiles, MemSink, MemSource};
pub use outside::{Failed, Files, Sink, Source};
pub use real::{RealFiles, RealIn, RealOut};
/// Want of memory.
pub use std::alloc::AllocError as NoMemory;
pub use sure::{SureFiles, SureSink, SureSource};
pub use whole::{ReadStop, WriteFault, read_whole, write_whole};
