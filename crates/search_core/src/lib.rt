//! Least walks by jumps, over any source of jumps.
//!
//! A* after Hart, Nilsson and Raphael (1968) over the jump points of Harabor and Grastien (AAAI 2011;
//! where no corner is cut, SoCS 2012). A state is a cell and the direction in which it was come to, or,
//! where a cell has one state, the cell, with how it was first come to at its least cost. A state that
//! was taken offers, in each allowed direction, the state of the first stop. Among equal sums of cost
//! and octile estimate the state of the lesser number goes first, and of equal offers to one state the
//! earlier one stands. That a least walk is found with one state for each cell, too, rests on a law of
//! `pruning` (`one_state_suffices`). Both ends have to be free. The points of an answer are the cells
//! at which the search stopped on the way; those on one line are not joined.
#![tactic(auto)]

mod jumping;
pub mod laws;
mod searching;

pub use best_first::{Found, Layout, NoMemory, Taken};
pub use searching::{search, search_in};
