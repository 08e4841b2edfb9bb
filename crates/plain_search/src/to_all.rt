//! The least costs from one cell to all cells of a map, by one pass in waves.

ghost use Rattle.std.specs.Prelude.{◌≡◌, true, IfOk};
ghost use Rattle.grid_moves.specs.Grid.{is_free};
ghost use Rattle.plain_search.specs.Costs.{AreCostsToAll};

use crate::NoMemory;
use cost_waves::CostWaves;
use grid_moves::{Cell, Terrain};
use root2_cost::Cost;
use std::alloc::Global;

/// The least costs of walks from one free cell to all cells of the map: an entry for each cell, in the
/// order of their numbers, row by row from the upper left. It is `None` exactly where no walk leads, as
/// for each blocked cell.
///
/// This is one pass of `cost_waves`, whose memory is made anew, and memory for an entry of each cell.
pub fn least_to_all<T: Terrain>(
    alloc: Global,
    t: &T,
    from: Cell,
) -> Result<Vec<Option<Cost>>, NoMemory>
    requires from { is_free (T.grid t.now) from ≡ true }
    ensures costs { IfOk result (λ costs. AreCostsToAll (T.grid t.now) from costs.items) }
{
    let mut waves = CostWaves::new(alloc, t.width(), t.height())?;
    waves.pass(t, from)?;
    waves.all_costs(alloc)
}
