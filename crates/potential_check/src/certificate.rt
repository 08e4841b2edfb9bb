//! Certificates.

ghost use Rattle.std.specs.Prelude.{IsTrue};
ghost use Rattle.potential_check.specs.Certificate.{is_certificate};

use grid_moves::Cell;
use path_points::{Cells, Costs, Points};
use root2_cost::Cost;

/// What a certificate claims of the walks from its start to its goal.
#[derive(Drop)]
pub enum Claim {
    /// The least cost; points that stand for a walk of this cost; and cells with their values. Any
    /// other cell has the cost less its octile estimate to the goal as its value.
    Least {
        cost: Cost,
        points: Points,
        values: Costs,
    },
    /// That there is none: the cells that are listed can't be left.
    NoWalk {
        cells: Cells,
    },
}

/// A claim about the walks between two cells, and what it takes to see that it is true.
///
/// The sides are 1 to 4096, and each coordinate is below 10,000, each part of a cost below 10^9. There
/// are 1 point or more, and fewer than 2^30. Listed cells lie inside the sides, and their numbers, row
/// by row from the upper left, ascend strictly.
#[derive(Drop)]
pub struct Certificate {
    pub width: u16,
    pub height: u16,
    pub start: Cell,
    pub goal: Cell,
    pub claim: Claim,
    pub ghost whole: { IsTrue (is_certificate width height start goal claim) },
}
