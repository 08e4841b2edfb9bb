//! The repair of tables after one cell changed.

use crate::repair::{sweep_diagonals, sweep_straight};
use crate::span::beside;
use grid_moves::{Cell, Dir, Grid, Terrain};
use plus_tables::Tables;
use std::marker::Model;
use std::sync::ledger::Ledger;
use steps::Steps;

const STRAIGHT: [Dir; 4] = [Dir::N, Dir::E, Dir::S, Dir::W];

const DIAGONAL: [Dir; 4] = [Dir::NE, Dir::SE, Dir::SW, Dir::NW];

/// Mends the tables of maps of one size. The order of the sweeps makes work lists needless, so neither it nor
/// a repair takes memory.
#[derive(Drop)]
pub struct Repairer {
    width: u16,
    height: u16,
}

impl Model for Repairer {
    ghost use Rattle.table_repair.specs.Repaired.{MapSides};

    ghost Value = { MapSides };

    ghost view = { λ r. record {
      width = r.width;
      height = r.height;
    } };
}

impl Repairer {
    ghost use Rattle.std.specs.Prelude.{◌≡◌, ◌+◌, ◌*◌, ◌≤◌, true};
    ghost use Rattle.grid_moves.specs.Grid.{is_inside};
    ghost use Rattle.plus_tables.specs.Tables.{AreTablesOf};
    ghost use Rattle.table_repair.specs.Counted.{places_differing};
    ghost use Rattle.table_repair.specs.Repaired.{AreTablesBut};

    /// For maps of so many columns and rows.
    pub fn new(width: u16, height: u16) -> Repairer
        ensures width { result.width ≡ width }
        ensures height { result.height ≡ height }
    {
        Repairer { width, height }
    }

    /// Makes the tables those of the grid, in which the cell `c` may have changed since they were right, and
    /// no other; says how many entries changed. A step is one refresh of an entry.
    pub fn repair<L: Ledger>(
        &self,
        tables: &mut Tables,
        grid: &Grid,
        c: Cell,
        steps: &mut Steps<L>,
    ) -> u64
        requires width { self.now.width ≡ grid.now.width }
        requires height { self.now.height ≡ grid.now.height }
        requires inside { is_inside grid.now c ≡ true }
        requires but { AreTablesBut tables.old grid.now c }
        ensures tables { AreTablesOf tables.new grid.now }
        ensures changed { result ≡ places_differing tables.old.entries tables.new.entries }
        ensures steps { steps.new
            ≤ steps.old + 18 * (grid.now.width + grid.now.height) + result }
        ensures later { steps.old ≤ steps.new }
    {
        let (width, table_width) = (grid.width(), tables.width());
        prove_eq!(width, self.width);
        prove_eq!(table_width, self.width);
        let rows = beside(c.y, self.height);
        let columns = beside(c.x, self.width);
        // Diagonal entries rest on straight ones; those lie no further back than as many as changed.
        let straight = sweep_straight(tables, grid, rows, columns, &STRAIGHT, steps);
        let by = straight.min(4096) as u16;
        straight + sweep_diagonals(tables, grid, rows, columns, by, &DIAGONAL, steps)
    }
}
