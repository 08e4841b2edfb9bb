//! Least walks by plain A*, without pruning.
#![tactic(auto)]

pub mod laws;
mod lists;
mod moves;
mod offers;
mod search;
mod to_all;
mod workspace;

pub use best_first::{Found, Taken};
pub use lists::Listed;
pub use offers::offer_to;
pub use search::{least, least_in};
pub use std::alloc::AllocError as NoMemory;
pub use to_all::least_to_all;
pub use workspace::Workspace;
