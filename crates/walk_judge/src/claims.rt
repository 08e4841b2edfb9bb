//! What another tool claims of a query.

use path_points::Points;

/// What a line of the walks claims.
#[derive(Debug, Drop)]
pub enum Claimed {
    /// A walk, by its points from the start to the goal: each next one lies on one of the eight lines
    /// from the one before it, if the walk is legal.
    Walk(Points),
    /// That no walk exists.
    None,
}
