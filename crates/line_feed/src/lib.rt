//! Bytes in, lines out: a text without end that comes in pieces is cut into its lines.
//!
//! A line is what stands before a line feed, or, at the end of the text, what is left where that is not
//! empty. Of a line of at most 128 bytes, its carriage return counted, the bytes are handed over, of a longer
//! one only that it is too long; so the memory is the same for every text. Nothing hangs on the pieces.
#![tactic(auto)]

mod feed;

pub use feed::{FedLine, LineFeed, MAX_LINE};
