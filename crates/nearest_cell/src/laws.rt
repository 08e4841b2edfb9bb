//! Laws of nearest cells, as contracts of calls.

ghost use Rattle.nearest_cell.specs.Laws.{NearestIsGoal, NearestIsOne, NearestOfIsNearest};

/// There is one nearest cell at most.
pub fn nearest_is_one()
    ensures { NearestIsOne }
{}

/// Where a walk leads from the start to the goal, the nearest cell is the goal.
pub fn nearest_is_goal()
    ensures { NearestIsGoal }
{}

/// From a free start, where a test says exactly where walks lead,
/// it is the cell that `nearest_of` gives by that test.
pub fn nearest_of_is_nearest()
    ensures { NearestOfIsNearest }
{}
