//! Lines, fields and numbers, as every text format of this program has them.
//!
//! A text is cut into pieces after each line feed, which belongs to no piece; what stands after the
//! last line feed is a piece where it is not empty. A line is a piece without the one carriage
//! return at its end, if it has one. A field is a longest piece of a line without space and tab. A
//! number is 1 to 9 decimal digits, a long one 1 to 20 with a value below 2^64.
#![tactic(auto)]

mod fields;
mod lines;
mod long_numbers;
mod numbers;
mod places;
mod writing;

pub use fields::Fields;
pub use lines::{Line, Lines, Pieces, without_cr};
pub use long_numbers::long_number;
pub use numbers::{digits_after, is_number, number};
pub use places::{FieldsAt, LinesAt, PlacedField, PlacedLine};
pub use std::alloc::AllocError as NoMemory;
pub use writing::{put, put_number, whole_or_nothing};
