//! Where the boxes of a taken cell come from: they are kept, or a pass from the cell finds them.

ghost use Rattle.std.specs.Prelude.{◌≡◌, ◌+◌, ◌≤◌, None, true, IfOk};
ghost use Rattle.goal_boxes.specs.Box.{BoxTeller, AreBoxes};
ghost use Rattle.goal_boxes.specs.Stored.{HoldsBoxes};
ghost use Rattle.grid_moves.specs.Grid.{GridData, is_free};

use crate::around::{CellBoxes, boxes_by};
use crate::{Boxes, NoMemory};
use cost_waves::CostWaves;
use grid_moves::{Cell, Terrain};
use std::marker::Brand;
use std::sync::ledger::Ledger;
use steps::Steps;

/// The boxes of a grid as contracts speak of them, for proofs alone: as a free cell has one box or none in
/// each direction, who keeps or finds it does not matter.
pub(crate) trait Meant {
    ghost boxes: { BoxTeller };
}

impl Meant for Brand {
    ghost boxes = { λ _ _. None };
}

/// What gives the boxes of one cell after another.
pub(crate) trait BoxSource {
    /// The grids for which it stands.
    ghost StandsFor: { Self → GridData → Type 0 };

    /// The boxes of a free cell. It counts a step where it makes a pass.
    fn boxes_of<T: Terrain, L: Ledger>(
        &mut self,
        t: &T,
        c: Cell,
        passes: &mut Steps<L>,
    ) -> Result<CellBoxes, NoMemory>
        requires stands { StandsFor self.old (T.grid t.now) }
        requires free { is_free (T.grid t.now) c ≡ true }
        ensures boxes { IfOk result (AreBoxes (T.grid t.now) c) }
        ensures stands { StandsFor self.new (T.grid t.now) }
        ensures passes { passes.new ≤ passes.old + 1 };
}

/// Boxes that are kept for all cells. No pass is made.
#[derive(Drop)]
pub(crate) struct Kept<'a> {
    pub(crate) boxes: &'a Boxes,
}

impl<'a> BoxSource for Kept<'a> {
    ghost StandsFor = { λ s g. HoldsBoxes g s.boxes.now };

    fn boxes_of<T: Terrain, L: Ledger>(
        &mut self,
        _t: &T,
        c: Cell,
        _passes: &mut Steps<L>,
    ) -> Result<CellBoxes, NoMemory> {
        Ok(self.boxes.of_cell(c))
    }
}

/// Memory for passes over maps of a grid's sides: one pass for each cell that is asked.
impl BoxSource for CostWaves {
    ghost StandsFor = { λ w g. (w.width ≡ g.width) × (w.height ≡ g.height) };

    fn boxes_of<T: Terrain, L: Ledger>(
        &mut self,
        t: &T,
        c: Cell,
        passes: &mut Steps<L>,
    ) -> Result<CellBoxes, NoMemory> {
        passes.tick();
        boxes_by(self, t, c)
    }
}
