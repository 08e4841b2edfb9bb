//! A session that knows which cells are joined.

ghost use Rattle.std.specs.Prelude.{◌≡◌, ◌↔◌, IfOk, IsTrue, codes, true};
ghost use Rattle.grid_moves.specs.Grid.{is_free, is_inside};
ghost use Rattle.grid_moves.specs.Layers as spec;
ghost use Rattle.joined_cells.specs.Joined.{IsJoined};
ghost use Rattle.nearest_cell.specs.Nearest.{IsNearest};
ghost use Rattle.components.specs.Kept.{Tells};
ghost use Rattle.edit_replay.specs.Edited.{edit_at, edit_reply};
ghost use Rattle.edit_replay.specs.Replies.{AddsEdit};
ghost use Rattle.edit_replay.specs.ReplyOf.{reply_of};
ghost use Rattle.reply_lines.specs.Replies.{query_line};
ghost use Rattle.line_server.specs.Answers.{cell_at, near_line};

use crate::NoMemory;
use components::Components;
use edit_replay::{EditReply, Session};
use grid_moves::{Cell, Grid, Ground, Layers, Terrain};
use nearest_cell::nearest;
use reply_lines::put_reply;
use std::alloc::Global;
use std::marker::Model;
use std::sync::ledger::Ledger;
use steps::Steps;
use word_list::Show;

/// A session, and for each of its grids the labels of joined cells.
#[derive(Drop)]
pub(crate) struct JoinedSession {
    session: Session,
    land: Components,
    water: Components,
}

impl Model for JoinedSession {
    ghost use Rattle.edit_replay.specs.Session.{SessionData};
    ghost use Rattle.line_server.specs.Joined.{KnowsJoined};

    ghost Value = { SessionData };

    ghost view = { λ s. s.session };

    ghost invariant = { λ s. KnowsJoined s.session s.land s.water };
}

// Makes labels fresh that are stale.
fn freshen(labels: &mut Components, grid: &Grid)
    requires { Tells grid.now labels.old }
    ensures tells { Tells grid.now labels.new }
    ensures fresh { labels.new.fresh ≡ true }
{
    if !labels.is_fresh() {
        labels.refresh(grid);
    }
}

// Whether a walk leads from one cell to the other.
fn joined_on(labels: &mut Components, grid: &Grid, s: Cell, t: Cell) -> bool
    requires { Tells grid.now labels.old }
    ensures tells { Tells grid.now labels.new }
    ensures joined { IsTrue result ↔ IsJoined grid.now s t }
{
    freshen(labels, grid);
    labels.joined(s, t)
}

// The nearest cell to a goal of the map to which a walk leads.
fn nearest_on(labels: &mut Components, grid: &Grid, s: Cell, goal: Cell) -> Cell
    requires tells { Tells grid.now labels.old }
    requires free { is_free grid.now s ≡ true }
    requires goal { is_inside grid.now goal ≡ true }
    ensures tells { Tells grid.now labels.new }
    ensures nearest { IsNearest grid.now s goal result }
{
    freshen(labels, grid);
    nearest(labels, s, goal)
}

impl JoinedSession {
    /// All memory that is kept for the labels is taken here.
    pub(crate) fn new(alloc: Global, session: Session) -> Result<JoinedSession, NoMemory>
        ensures { IfOk result (λ s. s ≡ session) }
    {
        let (land, water) = session.layers().both();
        let land = Components::of(alloc, land)?;
        let water = Components::of(alloc, water)?;
        Ok(JoinedSession {
            session,
            land,
            water,
        })
    }

    /// The map's grids as the edits left them.
    pub(crate) fn layers(&self) -> &Layers
        ensures { result.now ≡ self.now.layers }
    {
        self.session.layers()
    }

    /// Makes a cell blocked, land or water. No memory is taken.
    pub(crate) fn edit<L: Ledger>(
        &mut self,
        x: u32,
        y: u32,
        to: Ground,
        steps: &mut Steps<L>,
    ) -> EditReply
        ensures reply { result ≡ edit_reply self.old.layers (edit_at x y to) }
        ensures edited { AddsEdit self.old.layers (edit_at x y to) self.new.layers }
        ensures engine { self.new.engine ≡ self.old.engine }
    {
        let Some(c) = self.session.layers().cell_at(x, y) else {
            return self.session.edit(x, y, to, steps);
        };
        match self.session.edit(x, y, to, steps) {
            EditReply::Done => {
                self.land.set(c, to == Ground::Land);
                self.water.set(c, to == Ground::Water);
                EditReply::Done
            }
            EditReply::Same => EditReply::Same,
            EditReply::Outside => EditReply::Outside,
        }
    }

    // Whether a walk leads from one cell to the other, by at most one pass.
    fn are_joined(&mut self, s: Cell, t: Cell) -> bool
        ensures joined { IsTrue result ↔ IsJoined (spec.query_grid self.old.layers s) s t }
        ensures unchanged { self.new ≡ self.old }
    {
        let (land, water) = self.session.layers().both();
        if water.free(s) {
            joined_on(&mut self.water, water, s, t)
        } else {
            joined_on(&mut self.land, land, s, t)
        }
    }

    // The nearest cell to a goal of the map to which a walk leads, by at most one pass.
    fn nearest_to(&mut self, s: Cell, goal: Cell) -> Cell
        requires free { spec.is_free_ground self.old.layers s ≡ true }
        requires goal { spec.is_on_map self.old.layers goal ≡ true }
        ensures nearest { IsNearest (spec.query_grid self.old.layers s) s goal result }
        ensures unchanged { self.new ≡ self.old }
    {
        let (land, water) = self.session.layers().both();
        if water.free(s) {
            nearest_on(&mut self.water, water, s, goal)
        } else {
            nearest_on(&mut self.land, land, s, goal)
        }
    }

    // Whether the reply's line is known to be `none`: the ends are free in one layer, and labels part them.
    fn is_none(&mut self, show: Show, sx: u32, sy: u32, gx: u32, gy: u32) -> bool
        ensures none { result ≡ true → codes "none\n"
            ≡ query_line (reply_of self.old.engine) show self.old.layers (cell_at sx sy) (cell_at gx gy) }
        ensures unchanged { self.new ≡ self.old }
    {
        if show == Show::Trace {
            return false;
        }
        let layers = self.session.layers();
        let Some(s) = layers.cell_at(sx, sy) else {
            return false;
        };
        let Some(t) = layers.cell_at(gx, gy) else {
            return false;
        };
        if !layers.in_one_layer(s, t) {
            return false;
        }
        !self.are_joined(s, t)
    }

    /// The line of the reply to a query.
    pub(crate) fn query_text<L: Ledger>(
        &mut self,
        alloc: Global,
        show: Show,
        sx: u32,
        sy: u32,
        gx: u32,
        gy: u32,
        steps: &mut Steps<L>,
    ) -> Result<Vec<u8>, NoMemory>
        ensures line { IfOk result (λ text. text.items
            ≡ query_line (reply_of self.old.engine) show self.old.layers (cell_at sx sy) (cell_at gx gy)) }
        ensures unchanged { self.new ≡ self.old }
    {
        if self.is_none(show, sx, sy, gx, gy) {
            let none = Vec::from_slice(alloc, b"none\n")?;
            return Ok(none);
        }
        let reply = self.session.query(alloc, sx, sy, gx, gy, steps)?;
        let mut text = Vec::new(alloc);
        put_reply(alloc, &mut text, &reply, self.session.width(), show)?;
        Ok(text)
    }

    /// The line of the query to the nearest cell to which a walk leads, or why there is none.
    pub(crate) fn near_text<L: Ledger>(
        &mut self,
        alloc: Global,
        show: Show,
        sx: u32,
        sy: u32,
        gx: u32,
        gy: u32,
        steps: &mut Steps<L>,
    ) -> Result<Vec<u8>, NoMemory>
        ensures line { IfOk result (λ text. text.items
            ≡ near_line (reply_of self.old.engine) show self.old.layers (cell_at sx sy) (cell_at gx gy)) }
        ensures unchanged { self.new ≡ self.old }
    {
        let layers = self.session.layers();
        let Some(s) = layers.cell_at(sx, sy) else {
            let outside = Vec::from_slice(alloc, b"outside\n")?;
            return Ok(outside);
        };
        let Some(goal) = layers.cell_at(gx, gy) else {
            let outside = Vec::from_slice(alloc, b"outside\n")?;
            return Ok(outside);
        };
        if !layers.is_free_ground(s) {
            let blocked = Vec::from_slice(alloc, b"blocked\n")?;
            return Ok(blocked);
        }
        let c = self.nearest_to(s, goal);
        let text = self.query_text(alloc, show, sx, sy, u32::from(c.x), u32::from(c.y), steps)?;
        Ok(text)
    }
}
