//! What a check comes to.

use grid_moves::Cell;
use root2_cost::Cost;

/// What an accepted certificate proves.
#[derive(Clone, Copy, Debug, PartialEq, Eq)]
pub enum Proof {
    /// Walks from start to goal cost this much at least, and one costs just this.
    Least(Cost),
    /// No walk leads from start to goal.
    NoWalk,
}

/// The first clause that a certificate fails.
#[derive(Clone, Copy, Debug, PartialEq, Eq)]
pub enum Reject {
    /// The stated size is the grid's.
    Size,
    /// Both ends are free cells.
    Ends,
    /// The points unfold to a walk from start to goal of the stated cost and of at most 2^24 steps. The
    /// number is 0 where the first point is not the start; else that of the first later point, counted
    /// from 0, to which no legal run of at least one step leads from the point before, or that brings
    /// the steps above 2^24; else the number of points, where the last one is not the goal or the cost
    /// is another.
    Walk(u32),
    /// The start's value is (0, 0); the start is listed, where no walk is claimed.
    Start,
    /// The goal's value is the stated cost; the goal is not listed, where no walk is claimed.
    Goal,
    /// No legal move raises the value by more than its cost. This is the first one that does, by the
    /// number of the cell that it leaves and then by direction.
    Move(Cell, Cell),
    /// No legal move leads from a listed cell to one that is not. This is the first one that does,
    /// likewise.
    Open(Cell, Cell),
}
