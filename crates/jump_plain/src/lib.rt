//! Jumps cell by cell: a source of jumps over any grid, with no memory and no tables.
//!
//! A jump goes on in its direction, one cell at a time, and stops at the first cell that is the goal or
//! has a forced neighbour; a diagonal one looks out along both its components at each cell, by a straight
//! jump each, and stops where one of these finds a stop. Harabor and Grastien, AAAI 2011; where no corner
//! is cut, SoCS 2012. Here a straight jump keeps which cells beside it are free from one cell to the
//! next, so that it reads each cell once, and the goal is looked for by its column and row alone.
#![tactic(auto)]

pub mod beside;
pub mod jump;
mod scan;
mod source;

pub use source::PlainJumps;
