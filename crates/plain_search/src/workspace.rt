//! The memory of plain searches.

ghost use Rattle.std.specs.Prelude.{◌≡◌, ◌*◌, IfOk};
ghost use Rattle.plain_search.specs.Room.{HasRoom};

use crate::NoMemory;
use best_first::{Layout, Space};
use grid_moves::Terrain;
use std::alloc::Global;
use std::marker::Model;

/// The memory of a search, with a place for each cell of a map. It is used again as often as wanted.
///
/// Contracts see a workspace as the number of its places.
#[derive(Drop)]
pub struct Workspace {
    pub(crate) space: Space,
}

impl Model for Workspace {
    ghost use Rattle.std.specs.Prelude.{ℕ, ◌≡◌};
    ghost use Rattle.best_first.specs.declared.state.Layout.TheVariants.{ByCell};

    ghost Value = { ℕ };

    ghost view = { λ w. w.space.places };

    ghost invariant = { λ w. w.space.layout ≡ ByCell };
}

impl Workspace {
    /// The memory for searches on a grid of this size: an entry for each of its cells is filled.
    pub fn of_grid<T: Terrain>(alloc: Global, t: &T) -> Result<Workspace, NoMemory>
        ensures { IfOk result (HasRoom (T.grid t.now)) }
    {
        let cells = t.height() as usize * t.width() as usize;
        Ok(Workspace {
            space: Space::new(alloc, Layout::ByCell, cells)?,
        })
    }
}
