//! The boxes of all cells of a grid.

ghost use Rattle.std.specs.Prelude.{◌≡◌, ◌+◌, ◌*◌, ◌<◌, length, IfOk, OnOk};
ghost use Rattle.grid_moves.specs.Grid.{AreSides, IsGrid};
ghost use Rattle.goal_boxes.specs.Box.{AreBoxes};
ghost use Rattle.goal_boxes.specs.Stored.{box_at, boxes_at, HoldsBoxes, AreBefore};

use crate::around::{CellBoxes, boxes_by};
use crate::{Area, NoMemory};
use cost_waves::CostWaves;
use grid_moves::{Cell, Dir, Terrain, number_of};
use path_points::push_item;
use std::alloc::Global;
use std::marker::Model;

/// The boxes of a cell that is not free: none.
pub const NO_BOXES: CellBoxes = CellBoxes { areas: [None; 8] };

/// The boxes of all cells of a grid, 80 bytes for each cell. Contracts see its sides and the boxes of each
/// cell.
#[derive(Drop)]
pub struct Boxes {
    width: u16,
    height: u16,
    /// The boxes of each cell, by its number.
    cells: Vec<CellBoxes>,
}

impl Model for Boxes {
    ghost use Rattle.goal_boxes.specs.Stored.{BoxData, IsKept};

    ghost Value = { BoxData };

    ghost view = { λ b. record { width = b.width; height = b.height; cells = b.cells.items } };

    ghost invariant = { λ b. IsKept b.width b.height b.cells.items };
}

// The boxes of a cell, of which there are none if it is not free.
fn boxes_if_free<T: Terrain>(t: &T, c: Cell, waves: &mut CostWaves) -> Result<CellBoxes, NoMemory>
    requires width { waves.old.width ≡ (T.grid t.now).width }
    requires height { waves.old.height ≡ (T.grid t.now).height }
    ensures boxes { IfOk result (AreBoxes (T.grid t.now) c) }
    ensures width { waves.new.width ≡ waves.old.width }
    ensures height { waves.new.height ≡ waves.old.height }
{
    if t.free(c) {
        boxes_by(waves, t, c)
    } else {
        Ok(NO_BOXES)
    }
}

// Appends the boxes of the cells of a row.
fn add_row<T: Terrain>(
    t: &T,
    y: u16,
    waves: &mut CostWaves,
    cells: &mut Vec<CellBoxes>,
) -> Result<(), NoMemory>
    requires whole { IsGrid (T.grid t.now) }
    requires row { y < (T.grid t.now).height }
    requires width { waves.old.width ≡ (T.grid t.now).width }
    requires height { waves.old.height ≡ (T.grid t.now).height }
    requires before { AreBefore (T.grid t.now) cells.old.items (y * (T.grid t.now).width) }
    ensures before { OnOk result (AreBefore (T.grid t.now) cells.new.items ((y + 1) * (T.grid t.now).width)) }
    ensures width { waves.new.width ≡ waves.old.width }
    ensures height { waves.new.height ≡ waves.old.height }
{
    for x in 0..t.width() {
        let boxes = boxes_if_free(t, Cell { x, y }, waves)?;
        push_item(cells, boxes)?;
    }
    Ok(())
}

impl Boxes {
    /// The boxes of all cells of a grid, by one pass from each free one: the time grows with the square
    /// of the number of cells, so this is meant for grids of at most 2^14 cells.
    pub fn build<T: Terrain>(alloc: Global, t: &T) -> Result<Boxes, NoMemory>
        ensures { IfOk result (HoldsBoxes (T.grid t.now)) }
    {
        let (width, height) = (t.width(), t.height());
        let mut waves = CostWaves::new(alloc, width, height)?;
        let mut cells = Vec::new(alloc);
        for y in 0..height {
            add_row(t, y, &mut waves, &mut cells)?;
        }
        Ok(Boxes::of_cells(width, height, cells))
    }

    /// The boxes of all cells of a map of these sides, by cell number.
    pub fn of_cells(width: u16, height: u16, cells: Vec<CellBoxes>) -> Boxes
        requires sides { AreSides width height }
        requires whole { length cells.items ≡ height * width }
        ensures width { result.width ≡ width }
        ensures height { result.height ≡ height }
        ensures cells { result.cells ≡ cells.items }
    {
        Boxes {
            width,
            height,
            cells,
        }
    }

    /// The number of columns.
    pub fn width(&self) -> u16
        ensures { result ≡ self.now.width }
    {
        self.width
    }

    /// The number of rows.
    pub fn height(&self) -> u16
        ensures { result ≡ self.now.height }
    {
        self.height
    }

    /// The boxes of a cell.
    #[inline(always)]
    pub fn of_cell(&self, c: Cell) -> CellBoxes
        requires column { c.x < self.now.width }
        requires row { c.y < self.now.height }
        ensures { result ≡ boxes_at self.now c }
    {
        self.cells[number_of(self.width, c) as usize]
    }

    /// The box of a cell in a direction, `None` where there is none.
    #[inline(always)]
    pub fn area(&self, c: Cell, d: Dir) -> Option<Area>
        requires column { c.x < self.now.width }
        requires row { c.y < self.now.height }
        ensures { result ≡ box_at self.now c d }
    {
        self.of_cell(c).toward(d)
    }
}
