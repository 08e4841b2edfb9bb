//! The session.

ghost use Rattle.std.specs.Prelude.{◌≡◌, ◌≢◌, ◌<◌, ◌≤◌, true, false, IfOk, MatchOption};
ghost use Rattle.grid_moves.specs.Grid.{layer_of};
ghost use Rattle.grid_moves.specs.Layers as spec;
ghost use Rattle.grid_moves.specs.Reply.{IsRight};
ghost use Rattle.plus_tables.specs.Tables.{AreTablesOf};
ghost use Rattle.edit_replay.specs.Counting.{RoseByStates, RoseWithin, fewest_of, most_of};
ghost use Rattle.edit_replay.specs.Edited.{edit_at, edit_reply};
ghost use Rattle.edit_replay.specs.Mended.{IsEditCounted};
ghost use Rattle.edit_replay.specs.Replies.{answer_of, AddsEdit, EditsSo, IsRunReply, IsShort};
ghost use Rattle.edit_replay.specs.ReplyOf.{reply_of};

use crate::kept::{Both, Finder, Kept, space_of};
use crate::parts::Parts;
use crate::{EditReply, Engine, Layout, NoMemory, Reply};
use grid_moves::{Cell, Corner, Ground, Layers, Terrain};
use map_text::MapText;
use plus_tables::Tables;
use std::alloc::Global;
use std::marker::Model;
use std::sync::ledger::Ledger;
use steps::Steps;

/// A map's current layers, land and water, and what the engine keeps for searches on both.
#[derive(Drop)]
pub struct Session {
    // Behind a box, so that a session is small for those who hand it on.
    parts: Box<Parts>,
}

impl Model for Session {
    ghost use Rattle.edit_replay.specs.Kept.{AreKept, stands_for};
    ghost use Rattle.edit_replay.specs.Session.{SessionData};

    ghost Value = { SessionData };

    ghost view = { λ s. stands_for s.parts.value };

    ghost invariant = { λ s. AreKept s.parts.value };
}

impl Session {
    /// A session on a map's layers, which get this corner rule.
    pub fn new(
        alloc: Global,
        map: &MapText,
        engine: Engine,
        corner: Corner,
    ) -> Result<Session, NoMemory>
        ensures { IfOk result (λ s. s ≡ record {
          engine = engine;
          layers = spec.layers_of corner map.now.width map.now.height map.now.cells;
        }) }
    {
        let cells = map.cells.as_slice();
        let layers = Layers::of_cells(alloc, map.width, map.height, cells, corner)?;
        let kept = Kept::new(alloc, engine, &layers)?;
        let parts = Box::new(alloc, Parts { layers, kept })?;
        Ok(Session { parts })
    }

    /// A session of the engine `plus`, with these states, on a map's layers, which get this corner rule, with
    /// tables that are there already: those of its land grid and of its water grid. None are built, and edits
    /// mend these.
    pub fn with_tables(
        alloc: Global,
        map: &MapText,
        corner: Corner,
        layout: Layout,
        land: Tables,
        water: Tables,
    ) -> Result<Session, NoMemory>
        requires land { AreTablesOf land
            (layer_of Ground.Land corner map.now.width map.now.height map.now.cells) }
        requires water { AreTablesOf water
            (layer_of Ground.Water corner map.now.width map.now.height map.now.cells) }
        ensures { IfOk result (λ s. s ≡ record {
          engine = Engine.Plus layout;
          layers = spec.layers_of corner map.now.width map.now.height map.now.cells;
        }) }
    {
        let cells = map.cells.as_slice();
        let layers = Layers::of_cells(alloc, map.width, map.height, cells, corner)?;
        let space = space_of(alloc, layout, layers.land())?;
        let tables = Both { land, water };
        let finder = Finder::Tables(tables);
        let kept = Kept::Jumps { finder, space };
        let parts = Box::new(alloc, Parts { layers, kept })?;
        Ok(Session { parts })
    }

    /// The map's grids as the edits left them.
    pub fn layers(&self) -> &Layers
        ensures is { result.now ≡ self.now.layers }
        ensures layers { spec.AreLayers self.now.layers }
    {
        // (by its clause they are those of one map)
        let _both = self.parts.layers.both();
        &self.parts.layers
    }

    /// The map's width, in cells.
    pub fn width(&self) -> u16
        ensures width { result ≡ self.now.layers.land.width }
        ensures some { 0 < result }
    {
        self.parts.layers.land().width()
    }

    /// The map's height, in cells.
    pub fn height(&self) -> u16
        ensures { result ≡ self.now.layers.land.height }
    {
        self.parts.layers.land().height()
    }

    /// The cell of this column and row, both counted from 0, where it lies on the map.
    pub fn cell_at(&self, x: u32, y: u32) -> Option<Cell>
        ensures { MatchOption result (spec.is_on_map self.now.layers (record { x = x; y = y }) ≡ false)
            (λ c. (c ≡ record { x = x; y = y }) × (spec.is_on_map self.now.layers c ≡ true)) }
    {
        self.parts.layers.cell_at(x, y)
    }

    /// Makes a cell blocked, land or water.
    ///
    /// `Outside` comes exactly where the cell lies outside, `Same` exactly where it is already as
    /// asked; both change nothing. `Done` changes that cell alone, in both layers where it must. So
    /// the session stands for the map after all edits in turn, where the last edit of a cell
    /// decides. No memory is taken.
    ///
    /// The engines `plain` and `jps` keep nothing that an edit has to mend, and `block` changes bits; they
    /// count no steps. With `plus` a step is one refresh of a table entry: on each layer that changes at most
    /// 18 for each row and each column of the map, and one for each entry that changes. Nothing is counted on
    /// a layer that stays as it was, so nothing at all where the reply isn't `Done`.
    pub fn edit<L: Ledger>(&mut self, x: u32, y: u32, to: Ground, steps: &mut Steps<L>) -> EditReply
        ensures reply { result ≡ edit_reply self.old.layers (edit_at x y to) }
        ensures edited { AddsEdit self.old.layers (edit_at x y to) self.new.layers }
        ensures cell { EditsSo self.old.layers (record { x = x; y = y }) to self.new.layers result }
        ensures engine { self.new.engine ≡ self.old.engine }
        ensures counted { IsEditCounted self.old.engine self.old.layers self.new.layers steps.old steps.new }
        ensures unchanged { result ≢ EditReply.Done → steps.new ≡ steps.old }
        ensures later { steps.old ≤ steps.new }
    {
        self.parts.edit(x, y, to, steps)
    }

    /// Answers a query from one cell to another. It has no condition: the ends may lie outside.
    ///
    /// A query that starts in water runs among water cells, any other among land cells. Ends in
    /// different layers have no walk; then nothing is searched. A walk has fewer than 2^24 steps,
    /// since it comes to no cell twice. The reply is a function of the engine, the layers and the ends.
    /// Where memory is wanting, the session stands for the same layers as before, and may be asked and
    /// edited again.
    ///
    /// `steps` counts what the engine counts: by the most and the fewest that are known of it, for each
    /// state that was taken. `plain` counts none, and `jps` none where it answers.
    pub fn query<L: Ledger>(
        &mut self,
        alloc: Global,
        sx: u32,
        sy: u32,
        gx: u32,
        gy: u32,
        steps: &mut Steps<L>,
    ) -> Result<Reply, NoMemory>
        ensures right { IfOk result (λ reply.
            IsRight self.old.layers (record { x = sx; y = sy }) (record { x = gx; y = gy })
            (answer_of reply)) }
        ensures run { IfOk result
            (IsRunReply self.old (record { x = sx; y = sy }) (record { x = gx; y = gy })) }
        ensures function { IfOk result (λ reply. reply
            ≡ reply_of self.old.engine self.old.layers (record { x = sx; y = sy })
            (record { x = gx; y = gy })) }
        ensures short { IfOk result (λ reply. IsShort (answer_of reply)) }
        ensures unchanged { self.new ≡ self.old }
        ensures most { IfOk result (RoseWithin (most_of self.old.engine) steps.old steps.new) }
        ensures fewest { IfOk result (RoseByStates (fewest_of self.old.engine) steps.old steps.new) }
        ensures uncounted { self.old.engine ≡ Engine.Plain → steps.new ≡ steps.old }
    {
        self.parts.query(alloc, sx, sy, gx, gy, steps)
    }
}
