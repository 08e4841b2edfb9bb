//! What a search answers.

use path_points::{Items, Walk};

/// The numbers of the states that a search took, in their order. A state has nine times its cell's
/// number and the number of the direction in which it was come to, or 8 where it has none: that is
/// the start, and each state of a search with one state for a cell.
pub type Taken = Items<u32>;

/// What a search found.
#[derive(Debug, Drop)]
pub struct Found {
    /// A least walk, or `None` where no walk exists.
    pub walk: Option<Walk>,
    /// The states that the search took.
    pub taken: Taken,
}
