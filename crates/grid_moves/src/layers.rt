//! The two grids of a map, and which of them a query searches.

ghost use Rattle.std.specs.Prelude.{◌≡◌, IfOk, MatchOption, true, false};
ghost use Rattle.grid_moves.specs.Grid.{AreCells};
ghost use Rattle.grid_moves.specs.Layers as spec;
ghost use Rattle.grid_moves.specs.Reply as replies;

use crate::{Cell, Corner, Grid, Ground, NoMemory, Terrain};
use std::alloc::Global;
use std::marker::Model;

/// The land grid and the water grid of a map.
#[derive(Drop)]
pub struct Layers {
    land: Grid,
    water: Grid,
}

impl Model for Layers {
    ghost use Rattle.grid_moves.specs.Layers as spec;

    ghost Value = { spec.Layers };

    ghost view = { λ ls. record { land = ls.land; water = ls.water } };

    ghost invariant = { λ ls. spec.AreLayers (record { land = ls.land; water = ls.water }) };
}

impl Layers {
    ghost use Rattle.std.specs.Prelude.{◌≡◌, IfOk, MatchOption, false};

    /// The grids of a map with these sides under a corner rule. `cells` has one byte for each cell, row by
    /// row.
    pub fn of_cells(
        alloc: Global,
        width: u16,
        height: u16,
        cells: &[u8],
        corner: Corner,
    ) -> Result<Layers, NoMemory>
        requires { AreCells width height cells.now }
        ensures made { IfOk result (λ ls. ls ≡ spec.layers_of corner width height cells.now) }
        ensures layers { IfOk result spec.AreLayers }
    {
        let land = Grid::of_layer(alloc, width, height, cells, corner, Ground::Land)?;
        let water = Grid::of_layer(alloc, width, height, cells, corner, Ground::Water)?;
        Ok(Layers { land, water })
    }

    /// The land grid and the water grid: they have the same sides and corner rule, and no cell is free in
    /// both.
    pub fn both(&self) -> (&Grid, &Grid)
        ensures land { result.0.now ≡ self.now.land }
        ensures water { result.1.now ≡ self.now.water }
        ensures layers { spec.AreLayers self.now }
    {
        (&self.land, &self.water)
    }

    /// The land grid.
    pub fn land(&self) -> &Grid
        ensures { result.now ≡ self.now.land }
    {
        &self.land
    }

    /// The water grid.
    pub fn water(&self) -> &Grid
        ensures { result.now ≡ self.now.water }
    {
        &self.water
    }

    /// The cell of this column and row, both counted from 0, where it lies on the map.
    pub fn cell_at(&self, x: u32, y: u32) -> Option<Cell>
        ensures { MatchOption result (spec.is_on_map self.now (record { x = x; y = y }) ≡ false)
            (λ c. (c ≡ record { x = x; y = y }) × (spec.is_on_map self.now c ≡ true)) }
    {
        if x < u32::from(self.land.width()) && y < u32::from(self.land.height()) {
            Some(Cell {
                x: x as u16,
                y: y as u16,
            })
        } else {
            None
        }
    }

    /// The ground of a cell; outside the map it is blocked.
    pub fn ground_at(&self, c: Cell) -> Ground
        ensures { result ≡ spec.ground_at self.now c }
    {
        if self.water.free(c) {
            Ground::Water
        } else if self.land.free(c) {
            Ground::Land
        } else {
            Ground::Blocked
        }
    }

    /// Whether the cell is land or water.
    pub fn is_free_ground(&self, c: Cell) -> bool
        ensures { result ≡ spec.is_free_ground self.now c }
    {
        self.land.free(c) || self.water.free(c)
    }

    /// Whether both cells are land or water.
    pub fn are_free_ends(&self, from: Cell, to: Cell) -> bool
        ensures { result ≡ replies.are_free_ends self.now from to }
    {
        self.is_free_ground(from) && self.is_free_ground(to)
    }

    /// Whether both cells are free on the grid of a query that starts in the first one.
    pub fn in_one_layer(&self, from: Cell, to: Cell) -> bool
        ensures { result ≡ spec.in_one_layer self.now from to }
    {
        let grid = self.query_grid(from);
        grid.free(from) && grid.free(to)
    }

    /// The grid of a query that starts in this cell: the water grid for a water cell, else the land
    /// grid.
    pub fn query_grid(&self, from: Cell) -> &Grid
        ensures { result.now ≡ spec.query_grid self.now from }
    {
        if self.water.free(from) {
            &self.water
        } else {
            &self.land
        }
    }

    /// Makes a cell of the map blocked, land or water, in both grids. All other cells stay.
    pub fn set(&mut self, c: Cell, to: Ground)
        requires { spec.is_on_map self.old c ≡ true }
        ensures { self.new ≡ spec.layers_with self.old c to }
    {
        self.land.set(c, to == Ground::Land);
        self.water.set(c, to == Ground::Water);
    }
}
