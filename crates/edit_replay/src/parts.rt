//! What a session has, and its searches and edits.

ghost use Rattle.std.specs.Prelude.{◌≡◌, ◌+◌, ◌≤◌, ℕ, true, IfOk};
ghost use Rattle.grid_moves.specs.Grid.{IsGrid, grid_with, is_inside};
ghost use Rattle.grid_moves.specs.Reply.{IsRight};
ghost use Rattle.grid_moves.specs.Layers.{in_one_layer, is_on_map, layers_with, query_grid};
ghost use Rattle.plus_tables.specs.Tables.{AreTablesOf};
ghost use Rattle.edit_replay.specs.Counting.{RoseByStates, RoseWithin, fewest_of, most_of};
ghost use Rattle.edit_replay.specs.Edited.{edit_at};
ghost use Rattle.edit_replay.specs.Editing.{HasEdited};
ghost use Rattle.edit_replay.specs.Kept.{AreKept, engine_of, stands_for};
ghost use Rattle.edit_replay.specs.Mended.{IsEditCounted, MendsWithin};
ghost use Rattle.edit_replay.specs.ReplyOf.{reply_of};
ghost use Rattle.edit_replay.specs.Replies.{IsRightOn, IsRunOn, IsRunReply, IsShort, answer_of};

use crate::kept::{Finder, Kept};
use crate::search::{jump, search_plainly};
use crate::{EditReply, Engine, NoMemory, Reply};
use grid_moves::{Cell, Ends, Grid, Ground, Layers, Terrain};
use plus_tables::Tables;
use std::alloc::Global;
use std::sync::ledger::Ledger;
use steps::Steps;
use table_repair::Repairer;

/// The current grids of a map, and what the engine keeps for searches on them.
#[derive(Drop)]
pub(crate) struct Parts {
    pub layers: Layers,
    pub kept: Kept,
}

// Makes tables those of the grid, which were right when this cell was free, or was not (`was`). Where it is
// as it was, nothing is done.
fn mend<L: Ledger>(tables: &mut Tables, grid: &Grid, c: Cell, was: bool, steps: &mut Steps<L>)
    requires whole { IsGrid grid.now }
    requires inside { is_inside grid.now c ≡ true }
    requires before { AreTablesOf tables.old (grid_with grid.now c was) }
    ensures tables { AreTablesOf tables.new grid.now }
    ensures counted { (n : ℕ) × MendsWithin (grid_with grid.now c was) grid.now n
        × (steps.new ≤ steps.old + n) }
    ensures later { steps.old ≤ steps.new }
{
    if grid.free(c) == was {
        return;
    }
    let repairer = Repairer::new(tables.width(), tables.height());
    repairer.repair(tables, grid, c, steps);
}

impl Parts {
    /// Makes a cell of the map blocked, land or water.
    pub(crate) fn set<L: Ledger>(&mut self, c: Cell, to: Ground, steps: &mut Steps<L>)
        requires kept { AreKept self.old }
        requires inside { is_on_map self.old.layers c ≡ true }
        ensures layers { self.new.layers ≡ layers_with self.old.layers c to }
        ensures kept { AreKept self.new }
        ensures engine { engine_of self.new.kept ≡ engine_of self.old.kept }
        ensures counted { IsEditCounted (engine_of self.old.kept) self.old.layers self.new.layers
            steps.old steps.new }
        ensures later { steps.old ≤ steps.new }
    {
        let (was_land, was_water) = (self.layers.land().free(c), self.layers.water().free(c));
        self.layers.set(c, to);
        let (land, water) = self.layers.both();
        match &mut self.kept {
            Kept::Jumps {
                finder: Finder::Tables(tables),
                ..
            } => {
                mend(&mut tables.land, land, c, was_land, steps);
                mend(&mut tables.water, water, c, was_water, steps);
            }
            Kept::Jumps {
                finder: Finder::Bits(bits),
                ..
            } => {
                bits.land.set(c, to == Ground::Land);
                bits.water.set(c, to == Ground::Water);
            }
            _ => {}
        }
    }

    /// Makes the cell of this column and row blocked, land or water,
    /// where it lies on the map and is not so already.
    pub(crate) fn edit<L: Ledger>(
        &mut self,
        x: u32,
        y: u32,
        to: Ground,
        steps: &mut Steps<L>,
    ) -> EditReply
        requires { AreKept self.old }
        ensures edited { HasEdited (stands_for self.old) (edit_at x y to) result (stands_for self.new)
            steps.old steps.new }
        ensures kept { AreKept self.new }
        ensures later { steps.old ≤ steps.new }
    {
        let Some(c) = self.layers.cell_at(x, y) else {
            return EditReply::Outside;
        };
        if to == self.layers.ground_at(c) {
            return EditReply::Same;
        }
        self.set(c, to, steps);
        EditReply::Done
    }

    /// The reply to a query between two free cells of one layer, by the engine's run on its grid.
    pub(crate) fn search<L: Ledger>(
        &mut self,
        alloc: Global,
        ends: Ends,
        steps: &mut Steps<L>,
    ) -> Result<Reply, NoMemory>
        requires kept { AreKept self.old }
        requires one { in_one_layer self.old.layers ends.from ends.to ≡ true }
        ensures right { IfOk result
            (IsRightOn (query_grid self.old.layers ends.from) ends.from ends.to) }
        ensures run { IfOk result (IsRunOn (engine_of self.old.kept)
            (query_grid self.old.layers ends.from) ends.from ends.to) }
        ensures most { IfOk result (RoseWithin (most_of (engine_of self.old.kept)) steps.old steps.new) }
        ensures fewest { IfOk result
            (RoseByStates (fewest_of (engine_of self.old.kept)) steps.old steps.new) }
        ensures uncounted { engine_of self.old.kept ≡ Engine.Plain → steps.new ≡ steps.old }
        ensures layers { self.new.layers ≡ self.old.layers }
        ensures engine { engine_of self.new.kept ≡ engine_of self.old.kept }
        ensures kept { AreKept self.new }
    {
        let Ends { from, to } = ends;
        let is_water = self.layers.water().free(from);
        let grid = self.layers.query_grid(from);
        match &mut self.kept {
            Kept::Plain(space) => search_plainly(alloc, grid, from, to, space),
            Kept::Jumps { finder, space } => jump(
                alloc, grid, is_water, finder, from, to, space, steps,
            ),
        }
    }

    /// The reply to a query from one cell to another.
    pub(crate) fn query<L: Ledger>(
        &mut self,
        alloc: Global,
        sx: u32,
        sy: u32,
        gx: u32,
        gy: u32,
        steps: &mut Steps<L>,
    ) -> Result<Reply, NoMemory>
        requires { AreKept self.old }
        ensures right { IfOk result (λ reply.
            IsRight self.old.layers (record { x = sx; y = sy }) (record { x = gx; y = gy })
            (answer_of reply)) }
        ensures run { IfOk result
            (IsRunReply (stands_for self.old) (record { x = sx; y = sy }) (record { x = gx; y = gy })) }
        ensures function { IfOk result (λ reply. reply ≡ reply_of (engine_of self.old.kept) self.old.layers
            (record { x = sx; y = sy }) (record { x = gx; y = gy })) }
        ensures short { IfOk result (λ reply. IsShort (answer_of reply)) }
        ensures unchanged { stands_for self.new ≡ stands_for self.old }
        ensures kept { AreKept self.new }
        ensures most { IfOk result (RoseWithin (most_of (engine_of self.old.kept)) steps.old steps.new) }
        ensures fewest { IfOk result
            (RoseByStates (fewest_of (engine_of self.old.kept)) steps.old steps.new) }
        ensures uncounted { engine_of self.old.kept ≡ Engine.Plain → steps.new ≡ steps.old }
    {
        match self.layers.ends(sx, sy, gx, gy) {
            Ok(ends) => self.search(alloc, ends, steps),
            Err(why) => Ok(Reply::unsearched(alloc, why)),
        }
    }
}
