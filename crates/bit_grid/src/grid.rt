//! The bits of a grid, by rows and by columns.

ghost use Rattle.std.specs.Prelude.{◌≡◌, IfOk, IsTrue};
ghost use Rattle.grid_moves.specs.Grid.{GridData, grid_with, is_inside};

use crate::NoMemory;
use crate::lines::{Columns, Lines, Rows};
use grid_moves::{Cell, Corner, Grid, Terrain};
use pruning::AllowedTable;
use std::alloc::Global;
use std::marker::Model;

/// Which cells of a grid are free, as bits of its rows and of its columns. They keep the grid's sides and its
/// corner rule, this one as a table of the allowed directions by the bits around a cell.
#[derive(Drop)]
pub struct BitGrid {
    width: u16,
    height: u16,
    allowed: AllowedTable,
    rows: Lines,
    columns: Lines,
}

impl Model for BitGrid {
    ghost use Rattle.bit_grid.specs.Bits.{BitData};

    ghost Value = { BitData };

    ghost use Rattle.bit_grid.specs.Bits.{HasRoom};

    ghost view = { λ b. record {
      width = b.width;
      height = b.height;
      corner = b.allowed;
      rows = b.rows;
      columns = b.columns;
    } };

    ghost invariant = { λ b. HasRoom (record {
      width = b.width;
      height = b.height;
      corner = b.allowed;
      rows = b.rows;
      columns = b.columns;
    }) };
}

impl BitGrid {
    ghost use Rattle.bit_grid.specs.Bits.{AreBitsOf, AreColumnsOf, AreRowsOf, IsOnMap};

    /// The bits of a grid: 9 blocks for each of 4098 rows and as many columns at most, 4.7 MB; and 9 KB of
    /// allowed directions.
    pub fn of_grid(alloc: Global, grid: &Grid) -> Result<BitGrid, NoMemory>
        ensures { IfOk result (λ bits. AreBitsOf bits grid.now) }
    {
        let allowed = AllowedTable::of_rule(alloc, grid.corner())?;
        BitGrid::with_table(alloc, grid, allowed)
    }

    /// The same, where other bits under the grid's rule are at hand: their allowed directions are copied and
    /// not worked out anew.
    pub fn of_grid_beside(alloc: Global, grid: &Grid, other: &BitGrid) -> Result<BitGrid, NoMemory>
        requires { other.now.corner ≡ grid.now.corner }
        ensures { IfOk result (λ bits. AreBitsOf bits grid.now) }
    {
        let allowed = other.allowed.copied(alloc)?;
        BitGrid::with_table(alloc, grid, allowed)
    }

    // The bits of a grid, whose rule the table has.
    fn with_table(alloc: Global, grid: &Grid, allowed: AllowedTable) -> Result<BitGrid, NoMemory>
        requires { allowed ≡ grid.now.corner }
        ensures { IfOk result (λ bits. AreBitsOf bits grid.now) }
    {
        let (width, height) = (grid.width(), grid.height());
        let rows = Lines::rows_of(alloc, grid)?;
        let columns = rows.turned(alloc, width, height)?;
        Ok(BitGrid {
            width,
            height,
            allowed,
            rows,
            columns,
        })
    }

    /// Makes a cell of the map free, or blocked, in its row and in its column; all other bits stay.
    pub fn set(&mut self, c: Cell, free: bool)
        requires inside { IsOnMap self.old c }
        ensures edited { (g : GridData) → AreBitsOf self.old g → IsTrue (is_inside g c)
            → AreBitsOf self.new (grid_with g c free) }
    {
        let (line, position) = (u32::from(c.y) + 1, u32::from(c.x) + 1);
        self.rows.set(line, position, free);
        self.columns.set(position, line, free);
    }

    /// The number of columns.
    #[inline(always)]
    pub fn width(&self) -> u16
        ensures { result ≡ self.now.width }
    {
        self.width
    }

    /// The number of rows.
    #[inline(always)]
    pub fn height(&self) -> u16
        ensures { result ≡ self.now.height }
    {
        self.height
    }

    /// The corner rule.
    #[inline(always)]
    pub fn corner(&self) -> Corner
        ensures { result ≡ self.now.corner }
    {
        self.allowed.corner()
    }

    /// The allowed directions by the bits around a cell, under the corner rule.
    #[inline(always)]
    pub fn allowed_table(&self) -> &AllowedTable
        ensures { result.now ≡ self.now.corner }
    {
        &self.allowed
    }

    /// The rows.
    #[inline(always)]
    pub fn rows(&self) -> Rows<'_>
        ensures are { (g : GridData) → AreBitsOf self.now g → AreRowsOf result.now g }
    {
        &self.rows
    }

    /// The columns.
    #[inline(always)]
    pub fn columns(&self) -> Columns<'_>
        ensures are { (g : GridData) → AreBitsOf self.now g → AreColumnsOf result.now g }
    {
        &self.columns
    }
}
