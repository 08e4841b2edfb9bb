//! The free cells of a map.

ghost use Rattle.std.specs.Prelude.{◌≡◌, ◌+◌, ◌*◌, ◌<◌, IfOk, OnOk};
ghost use Rattle.problem_maker.specs.Free as spec;

use crate::NoMemory;
use grid_moves::{Cell, Layers, Terrain};
use std::alloc::Global;

/// The cells of a map that are land or water, in the order of their numbers.
///
/// Memory is taken once, four bytes for each cell of the map.
pub(crate) fn free_cells(alloc: Global, layers: &Layers) -> Result<Vec<Cell>, NoMemory>
    ensures { IfOk result (λ cells. cells.items ≡ spec.free_cells layers.now) }
{
    let land = layers.land();
    let mut cells = Vec::with_capacity(alloc, land.height() as usize * land.width() as usize)?;
    for y in 0..land.height() {
        add_row(layers, y, &mut cells)?;
    }
    Ok(cells)
}

// Appends the free cells of a row.
fn add_row(layers: &Layers, y: u16, cells: &mut Vec<Cell>) -> Result<(), NoMemory>
    requires before { cells.old.items ≡ spec.free_below layers.now (y * layers.now.land.width) }
    ensures { OnOk result (cells.new.items ≡ spec.free_below layers.now ((y + 1) * layers.now.land.width)) }
{
    for x in 0..layers.land().width() {
        let c = Cell { x, y };
        if layers.is_free_ground(c) {
            cells.push(c)?;
        }
    }
    Ok(())
}
