//! What an engine keeps for its searches.

ghost use Rattle.std.specs.Prelude.{◌≡◌, if◌then◌else◌, IfOk};
ghost use Rattle.bit_grid.specs.Bits.{AreBitsOf};
ghost use Rattle.plus_tables.specs.Tables.{AreTablesOf};
ghost use Rattle.search_core.specs.Jumping.{HasPlaces};
ghost use Rattle.edit_replay.specs.Kept.{Serves, engine_of};

use crate::{Engine, NoMemory};
use best_first::{Layout, Space};
use bit_grid::BitGrid;
use grid_moves::{Grid, Layers, Terrain};
use plain_search::Workspace;
use plus_tables::Tables;
use std::alloc::Global;

/// One for the land of a map, and one for its water.
#[derive(Drop)]
pub(crate) struct Both<T> {
    pub land: T,
    pub water: T,
}

impl<T> Both<T> {
    /// The one for water, or that for land.
    pub(crate) fn of(&self, is_water: bool) -> &T
        ensures { result.now ≡ if is_water then self.now.water else self.now.land }
    {
        if is_water { &self.water } else { &self.land }
    }
}

/// How an engine that jumps finds the jumps on the grids of a map.
#[derive(Drop)]
pub(crate) enum Finder {
    /// The grids alone are read.
    Cells,
    /// By the grids' cells as bits.
    Bits(Both<BitGrid>),
    /// By the grids' table entries.
    Tables(Both<Tables>),
}

/// What an engine keeps for its searches. The memory serves both grids of a map: it depends on the sides
/// alone.
#[derive(Drop)]
pub(crate) enum Kept {
    /// A state for each cell.
    Plain(Workspace),
    /// The memory of searches by jumps tells which states a cell has.
    Jumps { finder: Finder, space: Space },
}

/// The memory of an engine that jumps, with these states, for maps of the grid's sides.
pub(crate) fn space_of(alloc: Global, layout: Layout, grid: &Grid) -> Result<Space, NoMemory>
    ensures layout { IfOk result (λ space. space.layout ≡ layout) }
    ensures places { IfOk result (HasPlaces grid.now) }
{
    let cells = grid.height() as usize * grid.width() as usize;
    Space::new(alloc, layout, cells)
}

// The bits of both grids, which have one rule.
fn bits_of(alloc: Global, layers: &Layers) -> Result<Both<BitGrid>, NoMemory>
    ensures { IfOk result
        (λ bits. AreBitsOf bits.land layers.now.land × AreBitsOf bits.water layers.now.water) }
{
    let (land, water) = layers.both();
    let land = BitGrid::of_grid(alloc, land)?;
    let water = BitGrid::of_grid_beside(alloc, water, &land)?;
    Ok(Both { land, water })
}

// The tables of both grids.
fn tables_of(alloc: Global, layers: &Layers) -> Result<Both<Tables>, NoMemory>
    ensures { IfOk result (λ tables. AreTablesOf tables.land layers.now.land
        × AreTablesOf tables.water layers.now.water) }
{
    let land = Tables::build(alloc, layers.land())?;
    let water = Tables::build(alloc, layers.water())?;
    Ok(Both { land, water })
}

impl Kept {
    /// What this engine keeps for searches on the grids of a map.
    pub(crate) fn new(alloc: Global, engine: Engine, layers: &Layers) -> Result<Kept, NoMemory>
        ensures engine { IfOk result (λ kept. engine_of kept ≡ engine) }
        ensures serves { IfOk result (Serves layers.now) }
    {
        let (finder, layout) = match engine {
            Engine::Plain => return Ok(Kept::Plain(Workspace::of_grid(alloc, layers.land())?)),
            Engine::Jps(layout) => (Finder::Cells, layout),
            Engine::Block(layout) => (Finder::Bits(bits_of(alloc, layers)?), layout),
            Engine::Plus(layout) => (Finder::Tables(tables_of(alloc, layers)?), layout),
        };
        let space = space_of(alloc, layout, layers.land())?;
        Ok(Kept::Jumps { finder, space })
    }
}
