//! Table files: the tables of a map's two grids as bytes, written for other programs and read back.
//!
//! A file tells by its sides alone for which map it was made, so a text is loaded only where it is, byte for
//! byte, the encoding of the tables of the map at hand: no session rests on entries that are not its map's.
//! The entries are the jump distances of JPS+ (Harabor and Grastien, ICAPS 2014). The format is this
//! project's:
//!
//! ```text
//! JPSPLUS1                 8 bytes
//! the corner rule          1 byte: how many cells beside a diagonal move may be blocked, 0, 1 or 2
//! width, height            2 bytes each
//! entries of the land      for each cell by its number, for each direction from N clockwise: 2 bytes
//! entries of the water     likewise
//! ```
//!
//! Numbers have the lower byte first; entries are in two's complement.
#![tactic(auto)]

mod encoding;
mod fault;
mod loading;
mod writing;

pub use encoding::head_bytes;
pub use fault::TableFault;
pub use loading::load;
pub use std::alloc::AllocError as NoMemory;
pub use writing::{fill_entries, write_tables};
