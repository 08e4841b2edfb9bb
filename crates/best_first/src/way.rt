//! The way that a search found, back along the parents.

ghost use Rattle.std.specs.Prelude.{◌≡◌, ◌<◌, [], IfOk};
ghost use Rattle.best_first.specs.Trace.{HasBack, IsWayTo};

use crate::{NoMemory, Space};
use grid_moves::{Cell, estimate};
use path_points::{Points, Walk};
use root2_cost::Cost;
use std::alloc::Global;

// So many points a way mostly has at most, and there is room for them from the start on.
const MANY_POINTS: usize = 64;

// No points, and room for some.
fn no_points(alloc: Global) -> Result<Points, NoMemory>
    ensures { IfOk result (λ points. points ≡ []) }
{
    Ok(Points::of(Vec::with_capacity(alloc, MANY_POINTS)?))
}

impl Space {
    /// The way from the start to the state of a node, along the parents: the cells of its states, and
    /// the pair of its cost, counted on the way.
    pub fn way_to(&self, alloc: Global, goal: Cell, at: u32) -> Result<Walk, NoMemory>
        requires { HasBack goal self.now.table.nodes at }
        ensures { IfOk result (λ w. IsWayTo goal self.now.table.nodes at w.points w.cost) }
    {
        let mut points = no_points(alloc)?;
        let mut cost = Cost { a: 0, b: 0 };
        let mut id = at;
        'back: while id != 0 {
            let node = self.node(id);
            let cell = node.place.cell();
            let before = self.node(node.parent).place.cell();
            points.push(cell)?;
            cost = cost.add(estimate(before, cell));
            id = node.parent;
        }
        points.push(self.node(id).place.cell())?;
        points.reverse();
        Ok(Walk { points, cost })
    }
}
