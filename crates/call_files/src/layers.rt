//! The two grids of a map, made as the settings ask.

ghost use Rattle.std.specs.Prelude.{◌≡◌, IfOk};
ghost use Rattle.grid_moves.specs.Layers as spec;
ghost use Rattle.plus_tables.specs.Tables.{AreTablesOf};
ghost use Rattle.table_file.specs.Faults.{Tells, table_fault_of};

use crate::NoMemory;
use crate::files::OfMap;
use crate::kind::Extent;
use grid_moves::{Corner, Layers};
use map_text::MapText;
use plus_tables::Tables;
use std::alloc::Global;
use table_file::{TableFault, load};
use word_list::Settings;

/// The grids of a map, which get this corner rule.
pub fn layers_of(alloc: Global, map: &MapText, corner: Corner) -> Result<Layers, NoMemory>
    ensures { IfOk result (λ ls. ls ≡ spec.layers_of corner map.now.width map.now.height map.now.cells) }
{
    Layers::of_cells(alloc, map.width, map.height, map.cells.as_slice(), corner)
}

/// The tables of both grids, where the text is their encoding, or else how it differs.
pub fn load_tables(
    alloc: Global,
    layers: &Layers,
    text: &[u8],
) -> Result<(Tables, Tables), TableFault>
    ensures land { IfOk result (λ tables. AreTablesOf tables.0 layers.now.land) }
    ensures water { IfOk result (λ tables. AreTablesOf tables.1 layers.now.water) }
    ensures exact { Tells result (table_fault_of layers.now.land layers.now.water text.now) }
{
    let (land, water) = layers.both();
    load(alloc, text, land, water)
}

impl OfMap for Layers {
    ghost use Rattle.call_files.specs.Reading.{AreLayersOf};
    ghost use Rattle.call_files.specs.declared.kind.Extent.TheVariants.{Any};

    ghost extent_of = { λ _. Any };

    ghost is_of_map = { AreLayersOf };

    fn extent(_settings: Settings) -> Extent {
        Extent::Any
    }

    fn of_map(alloc: Global, map: MapText, settings: Settings) -> Result<Layers, NoMemory> {
        layers_of(alloc, &map, settings.rule)
    }
}

/// The land grid and the water grid of a map of at most 2^14 cells.
#[derive(Drop)]
pub struct SmallLayers {
    /// The two grids.
    pub layers: Layers,
}

impl OfMap for SmallLayers {
    ghost use Rattle.call_files.specs.Reading.{AreSmallLayersOf};
    ghost use Rattle.call_files.specs.declared.kind.Extent.TheVariants.{Small};

    ghost extent_of = { λ _. Small };

    ghost is_of_map = { AreSmallLayersOf };

    fn extent(_settings: Settings) -> Extent {
        Extent::Small
    }

    fn of_map(alloc: Global, map: MapText, settings: Settings) -> Result<SmallLayers, NoMemory> {
        let layers = Layers::of_map(alloc, map, settings)?;
        Ok(SmallLayers { layers })
    }
}
