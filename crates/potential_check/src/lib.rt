//! A checker of certificates that can be trusted by itself.
//!
//! A certificate claims the least cost of the walks between two cells, or that there is none, and
//! brings what it takes to see that. `check` believes nothing else: it stands on the grid, on points
//! and on costs, and no search.
//!
//! For a least cost it is a walk of this cost, and a potential: a value for each cell that is nothing
//! at the start, the cost at the goal, and raised by no legal move by more than the move costs. So
//! along any walk from start to goal the value rises by the whole cost, and by at most what the walk
//! costs. That there is no walk is seen from a set of cells that has the start, has not the goal, and
//! that no legal move leaves.
//!
//! Potentials are the dual of shortest paths in linear programming: Ford and Fulkerson, Flows in
//! Networks, 1962; Schrijver, Combinatorial Optimization, 2003, chapter 8.
#![tactic(auto)]

mod between;
mod certificate;
mod checking;
mod fault;
mod forms;
mod heights;
pub mod laws;
mod reading;
mod rising;
mod verdict;

pub use between::walk_between;
pub use certificate::{Certificate, Claim};
pub use checking::check;
pub use fault::CertFault;
pub use reading::read_certificate;
pub use std::alloc::AllocError as NoMemory;
pub use verdict::{Proof, Reject};
