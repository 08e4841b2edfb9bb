//! The text of a script: commands that edit a map's grid and ask for walks on it.
//!
//! Each line is blank or one command, whose fields are parted by spaces and tabs:
//!
//! ```text
//! query 0 1 2 1
//! block 1 1
//! free 1 1
//! flood 1 1
//! ```
//!
//! A line has at most 128 bytes before its line feed, a carriage return counted, and a number 1 to 9
//! digits. Every text is read as its commands or as the fault of its first broken line.
//!
//! The format is this project's own.
#![tactic(auto)]

mod command;
mod fault;
mod feeder;
mod pieces;
mod reading;
mod room;

pub use command::ScriptCommand;
pub use fault::ScriptFault;
pub use feeder::LineFeeder;
pub use pieces::pieces_are_the_whole;
pub use reading::{command_of, four_numbers, read_script, two_numbers};
