//! The eight boxes of one cell, from one pass from it.

ghost use Rattle.std.specs.Prelude.{◌≡◌, ◌+◌, ◌<◌, true, MatchOption, OnOk, OnErr, IfOk};
ghost use Rattle.grid_moves.specs.declared.Cell.{Cell};
ghost use Rattle.grid_moves.specs.Grid.{GridData, is_free};
ghost use Rattle.cost_waves.specs.Stored.{Tells, IsBlank, begins_with};
ghost use Rattle.goal_boxes.specs.Box.{IsAreaOf, AreBoxes, box_in};
ghost use Rattle.goal_boxes.specs.Wide.{Met, NoneReached, IsFirstReached, IsLastReached};

use crate::area::widened;
use crate::{Area, NoMemory};
use cost_waves::CostWaves;
use grid_moves::{Cell, Dir, Terrain, dir_number};
use std::alloc::Global;

/// The boxes of a cell, by the numbers of directions; `None` where no least walk begins with a move in one.
#[derive(Clone, Copy, Debug, PartialEq, Eq)]
pub struct CellBoxes {
    pub areas: [Option<Area>; 8],
}

impl CellBoxes {
    /// The box in this direction.
    #[inline(always)]
    pub fn toward(self, d: Dir) -> Option<Area>
        ensures { result ≡ box_in self d }
    {
        self.areas[dir_number(d) as usize]
    }
}

// Whether the cell belongs in the box of the direction: some least walk to it begins so.
#[inline(always)]
fn belongs(waves: &CostWaves, c: Cell, d: Dir) -> bool
    requires column { c.x < waves.now.width }
    requires row { c.y < waves.now.height }
    ensures { result ≡ begins_with waves.now c d }
{
    waves.begins(c, d)
}

// The first column of a row that belongs in the box.
#[inline(always)]
fn first_reached(waves: &CostWaves, d: Dir, y: u16) -> Option<u16>
    requires row { y < waves.now.height }
    ensures { MatchOption result (NoneReached waves.now d y 0 waves.now.width)
        (IsFirstReached waves.now d y) }
{
    for x in 0..waves.width() {
        if belongs(waves, Cell { x, y }, d) {
            return Some(x);
        }
    }
    None
}

// The last column of the row that does, given the first one.
#[inline(always)]
fn last_reached(waves: &CostWaves, d: Dir, y: u16, first: u16) -> u16
    requires row { y < waves.now.height }
    requires first { IsFirstReached waves.now d y first }
    ensures { IsLastReached waves.now d y first result }
{
    let mut last = waves.width() - 1;
    while last != first && !belongs(waves, Cell { x: last, y }, d) {
        last -= 1;
    }
    last
}

// Goes on over one row: all its cells that belong in the box lie between two of them.
#[inline(always)]
fn over_row(waves: &CostWaves, d: Dir, y: u16, before: Option<Area>) -> Option<Area>
    requires row { y < waves.now.height }
    ensures { IsAreaOf (Met waves.now d y 0) before → IsAreaOf (Met waves.now d (y + 1) 0) result }
{
    match first_reached(waves, d, y) {
        None => before,
        Some(first) => {
            let last = last_reached(waves, d, y, first);
            widened(widened(before, Cell { x: first, y }), Cell { x: last, y })
        }
    }
}

// The least rectangle that holds each cell for which the direction is stored.
fn box_toward(waves: &CostWaves, d: Dir) -> Option<Area>
    ensures { IsAreaOf (Met waves.now d waves.now.height 0) result }
{
    let mut found = None;
    for y in 0..waves.height() {
        found = over_row(waves, d, y, found);
    }
    found
}

/// The boxes of the cell from which the last pass over a map of these sides went, by what that pass stored.
pub fn boxes_of_waves(waves: &CostWaves) -> CellBoxes
    ensures { (g : GridData) (u : Cell) → waves.now.width ≡ g.width → waves.now.height ≡ g.height
        → Tells g u waves.now → AreBoxes g u result }
{
    CellBoxes {
        areas: [
            box_toward(waves, Dir::N),
            box_toward(waves, Dir::NE),
            box_toward(waves, Dir::E),
            box_toward(waves, Dir::SE),
            box_toward(waves, Dir::S),
            box_toward(waves, Dir::SW),
            box_toward(waves, Dir::W),
            box_toward(waves, Dir::NW),
        ],
    }
}

/// The boxes of a free cell, by memory that is lent: it has to be made for maps of these sides, and is used
/// again as often as wanted. Afterwards it tells the pass from the cell, and for want of memory nothing.
pub fn boxes_by<T: Terrain>(waves: &mut CostWaves, t: &T, u: Cell) -> Result<CellBoxes, NoMemory>
    requires free { is_free (T.grid t.now) u ≡ true }
    requires width { waves.old.width ≡ (T.grid t.now).width }
    requires height { waves.old.height ≡ (T.grid t.now).height }
    ensures boxes { IfOk result (AreBoxes (T.grid t.now) u) }
    ensures tells { OnOk result (Tells (T.grid t.now) u waves.new) }
    ensures forgotten { OnErr result (IsBlank waves.new) }
    ensures width { waves.new.width ≡ waves.old.width }
    ensures height { waves.new.height ≡ waves.old.height }
{
    waves.pass(t, u)?;
    Ok(boxes_of_waves(waves))
}

/// The boxes of a free cell: in each direction the least rectangle that holds every cell to which some least
/// walk begins so, and `None` where there is no such cell.
pub fn boxes_of<T: Terrain>(alloc: Global, t: &T, u: Cell) -> Result<CellBoxes, NoMemory>
    requires { is_free (T.grid t.now) u ≡ true }
    ensures { IfOk result (AreBoxes (T.grid t.now) u) }
{
    let mut waves = CostWaves::new(alloc, t.width(), t.height())?;
    boxes_by(&mut waves, t, u)
}
