//! The labels of a map's two layers.

ghost use Rattle.std.specs.Prelude.{◌≡◌, IfOk};
ghost use Rattle.joined_cells.specs.Both as spec;
ghost use Rattle.joined_cells.specs.Both.{TellsBoth};

use crate::{JoinedCells, NoMemory};
use grid_moves::{Cell, Layers};
use std::alloc::Global;
use std::marker::Model;

/// Which cells of a map are joined by walks, on its land or on its water.
///
/// It keeps eight bytes for each cell. Contracts see the labels of both layers.
#[derive(Drop)]
pub struct JoinedLayers {
    land: JoinedCells,
    water: JoinedCells,
}

impl Model for JoinedLayers {
    ghost use Rattle.joined_cells.specs.Both.{BothLabels};

    ghost Value = { BothLabels };

    ghost view = { λ p. record { land = p.land; water = p.water } };
}

impl JoinedLayers {
    /// Which cells of a map are joined, by one pass over each of its grids.
    pub fn of(alloc: Global, layers: &Layers) -> Result<JoinedLayers, NoMemory>
        ensures tells { IfOk result (TellsBoth layers.now) }
    {
        let (land, water) = layers.both();
        let land = JoinedCells::of(alloc, land)?;
        let water = JoinedCells::of(alloc, water)?;
        Ok(JoinedLayers { land, water })
    }

    /// Whether both cells are free on one layer and a walk leads from one to the other. No memory is taken.
    pub fn joined(&self, s: Cell, t: Cell) -> bool
        ensures { result ≡ spec.are_joined_in self.now s t }
    {
        self.land.joined(s, t) || self.water.joined(s, t)
    }
}
