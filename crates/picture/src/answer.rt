//! What is drawn of the answer to a query.

use grid_moves::Cell;
use root2_cost::Cost;

/// A walk: the points that stand for it, from its start to its goal, and its cost.
#[derive(Clone, Copy)]
pub struct DrawnWalk<'a> {
    pub points: &'a [Cell],
    pub cost: Cost,
}
