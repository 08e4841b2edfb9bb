//! Bits of a map: which cells are free, by rows and by columns, 512 in a block.
//!
//! A line is a row of the map or a column, and bit `p` of row `l` is set where the cell of column `p` is
//! free, both counted from 1: a border of blocked bits lies round the map, so that a scan ends there and has
//! no case for it. `BitGrid` keeps both, since a scan along a column is then one along a line; and the
//! directions that the corner rule allows, by the bits around a cell. Bits for scans of many cells at a time:
//! Harabor and Grastien, ICAPS 2014.
#![tactic(auto)]

mod grid;
mod lines;
mod pack;
mod turn;

pub use grid::BitGrid;
pub use lines::{Columns, Lines, Rows, ThreeLanes, ThreeWords};
pub use std::alloc::AllocError as NoMemory;
