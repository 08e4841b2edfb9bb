//! Table files, which are read behind the map that they belong to.

ghost use Rattle.std.specs.Prelude.{◌≡◌};
ghost use Rattle.io_edge.specs.Causes.{NoneFell};
ghost use Rattle.map_text.specs.Faults.{plain};
ghost use Rattle.call_files.specs.Reading.{AreMapTables, IsBehind, Reads};
ghost use Rattle.call_files.specs.declared.kind.TextKind.TheVariants as kinds;

use crate::faults::tables_line;
use crate::files::{Text, read_file};
use crate::kind::TextKind;
use crate::layers::{layers_of, load_tables};
use grid_moves::{Layers, Terrain};
use io_edge::Files;
use line_work::Stop;
use map_text::MapText;
use plus_tables::Tables;
use std::alloc::Global;
use word_list::Settings;

/// The tables of a map's land grid and of its water grid.
#[derive(Drop)]
pub struct MapTables {
    /// Those of the land grid.
    pub land: Tables,
    /// Those of the water grid.
    pub water: Tables,
}

impl Text for MapTables {
    ghost use Rattle.call_files.specs.Reading.{AreBehindMap, AreTablesOn};
    ghost use Rattle.call_files.specs.declared.kind.TextKind.TheVariants as kinds;

    /// The map's two grids.
    type Context = Layers;

    ghost kind_of_text = { λ ls. kinds.Tables ls.land.corner };

    ghost is_behind = { AreBehindMap };

    ghost spells = { λ ls _. AreTablesOn ls };

    fn kind(context: &Layers) -> TextKind {
        TextKind::Tables(context.land().corner())
    }

    fn of_text(alloc: Global, text: Vec<u8>, context: &Layers) -> Result<MapTables, Stop> {
        match load_tables(alloc, context, text.as_slice()) {
            Ok((land, water)) => Ok(MapTables { land, water }),
            Err(fault) => Err(Stop::Text(tables_line(alloc, fault)?)),
        }
    }
}

/// The tables of a map that the file of this name holds. The map's grids are given back.
pub fn read_tables<F: Files>(
    alloc: Global,
    files: &mut F,
    name: &str,
    map: &MapText,
    settings: Settings,
) -> Result<MapTables, Stop>
    ensures read { Reads (IsBehind (plain map.now)) (λ _. AreMapTables settings.rule (plain map.now))
        (kinds.Tables settings.rule) ((F.disk files.old).holds name.now)
        ((F.disk files.old).faults name.now) ((F.disk files.new).faults name.now) result }
    ensures unchanged { (F.disk files.new).holds ≡ (F.disk files.old).holds }
    ensures later { NoneFell (F.disk files.old).faults (F.disk files.new).faults }
{
    let layers = layers_of(alloc, map, settings.rule)?;
    read_file(alloc, files, name, &layers)
}
