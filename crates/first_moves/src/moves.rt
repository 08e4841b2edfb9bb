//! The first moves between all cells of a map.

ghost use Rattle.std.specs.Prelude.{◌≡◌, ◌+◌, ◌*◌, ◌<◌, ◌≤◌, length, slice_get, Some, IfOk};
ghost use Rattle.grid_moves.specs.declared.Cell.{Cell};
ghost use Rattle.grid_moves.specs.Grid.{AreSides, GridData};
ghost use Rattle.first_moves.specs.First.{IsFirstMove};
ghost use Rattle.first_moves.specs.Follow.{IsNext};
ghost use Rattle.first_moves.specs.Row.{AreMoves, row_at};
ghost use Rattle.first_moves.specs.Kept.{AreRows};

use crate::NoMemory;
use crate::row::Row;
use cost_waves::CostWaves;
use grid_moves::{Cell, Dir, Terrain, cell_ahead, number_of};
use path_points::push_item;
use std::alloc::Global;
use std::marker::Model;
use std::sync::ledger::Ledger;
use steps::Steps;

// The rows of all cells of the map.
fn all_rows<T: Terrain>(alloc: Global, t: &T) -> Result<Vec<Row>, NoMemory>
    requires few { (T.grid t.now).height * (T.grid t.now).width ≤ 16384 }
    ensures whole { IfOk result (λ rows. length rows.items ≡ (T.grid t.now).height * (T.grid t.now).width) }
    ensures rows { IfOk result (λ rows. AreRows (T.grid t.now) rows.items) }
{
    let (width, height) = (t.width(), t.height());
    let mut waves = CostWaves::new(alloc, width, height)?;
    let mut scratch = Vec::new(alloc);
    let mut rows = Vec::new(alloc);
    for y in 0..height {
        for x in 0..width {
            let row = Row::at(alloc, &mut scratch, &mut waves, t, Cell { x, y })?;
            push_item(&mut rows, row)?;
        }
    }
    Ok(rows)
}

/// The first moves between all cells of a map of at most 2^14 cells: a row of runs for each cell.
///
/// Contracts see the sides and the rows.
#[derive(Drop)]
pub struct Moves {
    width: u16,
    height: u16,
    rows: Vec<Row>,
}

impl Model for Moves {
    ghost use Rattle.first_moves.specs.Row.{MovesData};
    ghost use Rattle.first_moves.specs.Kept.{IsKept};

    ghost Value = { MovesData };

    ghost view = { λ m. record { width = m.width; height = m.height; rows = m.rows.items } };

    ghost invariant = { λ m. IsKept m.width m.height m.rows.items };
}

impl Moves {
    /// The first moves between all cells of a map of at most 2^14 cells, by one pass for each free cell.
    ///
    /// A row takes four bytes for each of its runs. For want of memory nothing is kept.
    pub fn build<T: Terrain>(alloc: Global, t: &T) -> Result<Moves, NoMemory>
        requires few { (T.grid t.now).height * (T.grid t.now).width ≤ 16384 }
        ensures { IfOk result (λ moves. AreMoves (T.grid t.now) moves) }
    {
        let rows = all_rows(alloc, t)?;
        Ok(Moves::of_rows(t.width(), t.height(), rows))
    }

    /// The first moves between all cells of a map of these sides, by the row of each cell in the order of
    /// numbers.
    pub fn of_rows(width: u16, height: u16, rows: Vec<Row>) -> Moves
        requires sides { AreSides width height }
        requires whole { length rows.items ≡ height * width }
        ensures width { result.width ≡ width }
        ensures height { result.height ≡ height }
        ensures rows { result.rows ≡ rows.items }
    {
        Moves {
            width,
            height,
            rows,
        }
    }

    /// The number of columns.
    pub fn width(&self) -> u16
        ensures { result ≡ self.now.width }
    {
        self.width
    }

    /// The number of rows of the map.
    pub fn height(&self) -> u16
        ensures { result ≡ self.now.height }
    {
        self.height
    }

    /// The row of a cell: the first moves from there.
    pub fn row(&self, s: Cell) -> &Row
        requires column { s.x < self.now.width }
        requires row { s.y < self.now.height }
        ensures { result.now ≡ row_at self.now s }
    {
        &self.rows[number_of(self.width, s) as usize]
    }

    /// The number of runs in the row of a cell.
    pub fn runs(&self, s: Cell) -> u32
        requires column { s.x < self.now.width }
        requires row { s.y < self.now.height }
        ensures { result ≡ length (row_at self.now s) }
    {
        self.row(s).runs()
    }

    /// The number of the first cell of run i of a cell's row, counted from 0, and the first move to each of
    /// its cells.
    pub fn run_at(&self, s: Cell, i: u32) -> (u32, Option<Dir>)
        requires column { s.x < self.now.width }
        requires row { s.y < self.now.height }
        requires run { i < length (row_at self.now s) }
        ensures { slice_get (row_at self.now s) i ≡ Some (record { start = result.0; first = result.1 }) }
    {
        self.row(s).run_at(i)
    }

    /// The first move from one cell of the map to another, `None` where there is none. It counts one step.
    pub fn first<L: Ledger>(&self, s: Cell, t: Cell, steps: &mut Steps<L>) -> Option<Dir>
        requires column { s.x < self.now.width }
        requires row { s.y < self.now.height }
        requires goal_column { t.x < self.now.width }
        requires goal_row { t.y < self.now.height }
        ensures first { (g : GridData) → AreMoves g self.now → IsFirstMove g s t result }
        ensures steps { steps.new ≡ steps.old + 1 }
    {
        self.first_near(s, t, &mut None, steps)
    }

    // The same for one cell after another, by the part of the runs that is known since the first one.
    #[inline(always)]
    fn first_near<L: Ledger>(
        &self,
        s: Cell,
        t: Cell,
        part: &mut Option<u32>,
        steps: &mut Steps<L>,
    ) -> Option<Dir>
        requires column { s.x < self.now.width }
        requires row { s.y < self.now.height }
        requires goal_column { t.x < self.now.width }
        requires goal_row { t.y < self.now.height }
        ensures first { (g : GridData) → AreMoves g self.now → IsFirstMove g s t result }
        ensures narrow { s.x < 4096 }
        ensures low { s.y < 4096 }
        ensures steps { steps.new ≡ steps.old + 1 }
    {
        steps.tick();
        self.row(s).first_near(number_of(self.width, t), part)
    }

    /// The cell to which the first move leads, asked for one cell of a walk after another: `part` is none at
    /// first, and then it tells where in a row the goal's run is to be looked for.
    pub(crate) fn next_near<L: Ledger>(
        &self,
        s: Cell,
        t: Cell,
        part: &mut Option<u32>,
        steps: &mut Steps<L>,
    ) -> Option<Cell>
        requires column { s.x < self.now.width }
        requires row { s.y < self.now.height }
        requires goal_column { t.x < self.now.width }
        requires goal_row { t.y < self.now.height }
        ensures next { (g : GridData) → AreMoves g self.now → IsNext g s t result }
        ensures steps { steps.new ≡ steps.old + 1 }
    {
        match self.first_near(s, t, part, steps) {
            Some(d) => cell_ahead(d, s),
            None => None,
        }
    }
}
