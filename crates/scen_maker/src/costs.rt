//! The least costs of queries on a map.

ghost use Rattle.std.specs.Prelude.{◌≡◌, ◌&&◌, nat_eq, true, IfOk};
ghost use Rattle.grid_moves.specs.Layers.{AreLayers, is_on_map, query_grid};
ghost use Rattle.grid_moves.specs.Reply.{are_free_ends};
ghost use Rattle.scen_maker.specs.Settling as spec;

use crate::NoMemory;
use call_files::{Extent, OfMap};
use edit_replay::{Engine, Layout, Reply, Session};
use grid_moves::{Cell, Ends, Grid, Layers, Unsearched};
use map_text::MapText;
use root2_cost::Cost;
use scen_text::Entry;
use std::alloc::Global;
use std::marker::Model;
use std::sync::ledger::Ledger;
use steps::Steps;
use word_list::Settings;

/// Who finds the least costs of queries on a map: a session, which searches by blocks of bits, whoever asks:
/// a least cost is one pair. Contracts see the map's two grids.
#[derive(Drop)]
pub struct LeastCosts {
    session: Session,
}

impl Model for LeastCosts {
    ghost use Rattle.grid_moves.specs.Layers as spec;

    ghost Value = { spec.Layers };

    ghost view = { λ c. c.session.layers };
}

impl OfMap for LeastCosts {
    ghost use Rattle.call_files.specs.Reading.{AreLayersOf};
    ghost use Rattle.call_files.specs.declared.kind.Extent.TheVariants.{Any};

    ghost extent_of = { λ _. Any };

    ghost is_of_map = { AreLayersOf };

    fn extent(_settings: Settings) -> Extent {
        Extent::Any
    }

    fn of_map(alloc: Global, map: MapText, settings: Settings) -> Result<LeastCosts, NoMemory> {
        let session = Session::new(alloc, &map, Engine::Block(Layout::ByCell), settings.rule)?;
        Ok(LeastCosts { session })
    }
}

/// What a map makes of the query of a scenario's entry.
#[derive(Clone, Copy, Debug, PartialEq, Eq)]
pub enum Settled {
    /// The entry is meant for a map of other sides.
    Scale,
    /// An end lies outside the map.
    Outside,
    /// An end is neither land nor water.
    Blocked,
    /// Both ends are free: what a least walk between them costs, nothing where none leads from one to the
    /// other.
    Searched {
        from: Cell,
        to: Cell,
        least: Option<Cost>,
    },
}

impl Settled {
    /// What a least walk costs, where one was found.
    pub fn least(self) -> Option<Cost>
        ensures { result ≡ spec.least_in self }
    {
        match self {
            Settled::Searched { least, .. } => least,
            Settled::Scale | Settled::Outside | Settled::Blocked => None,
        }
    }
}

/// Whether the entry is meant for a map of these sides.
pub fn has_sides(width: u16, height: u16, entry: Entry) -> bool
    ensures { result ≡ (nat_eq entry.w width && nat_eq entry.h height) }
{
    entry.w == u32::from(width) && entry.h == u32::from(height)
}

// What the reply tells of the least cost.
fn cost_in(reply: &Reply) -> Option<Cost>
    ensures { result ≡ spec.cost_in reply.now }
{
    match reply {
        Reply::Walk { cost, .. } => Some(*cost),
        Reply::None { .. } | Reply::Outside | Reply::Blocked => None,
    }
}

impl LeastCosts {
    /// The map's two grids.
    pub fn layers(&self) -> &Layers
        ensures is { result.now ≡ self.now }
        ensures layers { AreLayers self.now }
    {
        self.session.layers()
    }

    /// The grid of a query that starts in this cell.
    pub fn query_grid(&self, from: Cell) -> &Grid
        ensures { result.now ≡ query_grid self.now from }
    {
        self.layers().query_grid(from)
    }

    /// What a least walk from one free cell of the map to another costs, nothing where none leads there.
    pub fn between<L: Ledger>(
        &mut self,
        alloc: Global,
        from: Cell,
        to: Cell,
        steps: &mut Steps<L>,
    ) -> Result<Option<Cost>, NoMemory>
        requires inside { (is_on_map self.old from && is_on_map self.old to) ≡ true }
        requires free { are_free_ends self.old from to ≡ true }
        ensures least { IfOk result (λ least. least ≡ spec.least_between self.old from to) }
        ensures unchanged { self.new ≡ self.old }
    {
        let (sx, sy) = (u32::from(from.x), u32::from(from.y));
        let (gx, gy) = (u32::from(to.x), u32::from(to.y));
        let reply = self.session.query(alloc, sx, sy, gx, gy, steps)?;
        Ok(cost_in(&reply))
    }

    /// What the map makes of the entry's query.
    pub fn settle<L: Ledger>(
        &mut self,
        alloc: Global,
        entry: Entry,
        steps: &mut Steps<L>,
    ) -> Result<Settled, NoMemory>
        ensures settled { IfOk result (λ settled. settled ≡ spec.settled_of self.old entry) }
        ensures unchanged { self.new ≡ self.old }
    {
        if !has_sides(self.session.width(), self.session.height(), entry) {
            return Ok(Settled::Scale);
        }
        let layers = self.layers();
        let ends = match layers.ends(entry.sx, entry.sy, entry.gx, entry.gy) {
            Ok(ends) => ends,
            Err(Unsearched::Outside) => return Ok(Settled::Outside),
            Err(Unsearched::Blocked) => return Ok(Settled::Blocked),
            Err(Unsearched::Apart(Ends { from, to })) => {
                return Ok(Settled::Searched {
                    from,
                    to,
                    least: None,
                });
            }
        };
        let Ends { from, to } = ends;
        let least = self.between(alloc, from, to, steps)?;
        Ok(Settled::Searched { from, to, least })
    }
}
