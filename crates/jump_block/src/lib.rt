//! Jumps over bits of a map: a source of jumps that looks at 512 cells at a time.
//!
//! A straight jump is a scan along a row or a column. It halts before the first cell that is blocked or at
//! which a side opens, and the first stop follows from there: the goal where it is met before, else the mark.
//! A diagonal jump looks at the cells around each cell that it comes to, and scans in both components.
//! Harabor and Grastien, ICAPS 2014. There corners may not be cut; here any rule may hold.
#![tactic(auto)]

mod block;
mod cells;
mod diagonal;
mod eight;
mod marks;
mod near;
mod scan;
mod source;
mod straight;
mod word;

pub use source::BlockJumps;
