//! Those who answer queries on a map that stays as it is.
//!
//! A session answers by its engine. On a small map what is kept of all its cells answers too: goal boxes, by
//! a search that goes by them, or first moves, by following them.

ghost use Rattle.std.specs.Prelude.{◌≡◌, ◌≤◌, ◌<◌, IfOk, OnOk, true};
ghost use Rattle.edit_replay.specs.Counting.{RoseByStates, RoseWithin};
ghost use Rattle.edit_replay.specs.Replies.{IsShort, answer_of};
ghost use Rattle.first_moves.specs.Row.{AreMoves};
ghost use Rattle.goal_boxes.specs.Stored.{HoldsBoxes};
ghost use Rattle.grid_moves.specs.Layers.{in_one_layer, query_grid};
ghost use Rattle.jps_run.specs.Answerers.{IsBasisOn, IsFit, CanAnswer, who_from, who_of};
ghost use Rattle.call_files.specs.Reading.{AreSmall};
ghost use Rattle.jps_run.specs.Who.{IsFoundReply, by_small, fewest_by, most_by, reply_to};

use crate::NoMemory;
use crate::replies::session_on;
use crate::replies::small::{follow_moves, search_boxed};
use call_files::{Extent, OfMap};
use cell_lines::AskedEnds;
use edit_replay::{Reply, Session};
use first_moves::Moves;
use goal_boxes::Boxes;
use grid_moves::{Cell, Layers, Terrain};
use map_text::MapText;
use std::alloc::Global;
use std::sync::ledger::Ledger;
use steps::Steps;
use word_list::{Pick, Settings, SmallEngine};

/// What is made of a map for the picked engine at once: a session, or the grids of a small map.
#[derive(Drop)]
pub enum Basis {
    Session(Session),
    /// For an engine of small maps.
    Small { layers: Layers, engine: SmallEngine },
}

impl OfMap for Basis {
    ghost use Rattle.jps_run.specs.Answerers.{IsBasisOn};
    ghost use Rattle.call_files.specs.Kinds.{extent_for};

    ghost extent_of = { λ set. extent_for set.pick };

    ghost is_of_map = { IsBasisOn };

    fn extent(settings: Settings) -> Extent {
        Extent::of(settings.pick)
    }

    #[tactic(auto, using(crate::proofs::Loading::session_answers))]
    fn of_map(alloc: Global, map: MapText, settings: Settings) -> Result<Basis, NoMemory> {
        match settings.pick {
            Pick::Session(_) => Ok(Basis::Session(session_on(alloc, &map, settings)?)),
            Pick::Small(engine) => Ok(Basis::Small {
                layers: Layers::of_map(alloc, map, settings)?,
                engine,
            }),
        }
    }
}

/// The boxes of all cells of a small map, on both of its grids.
#[derive(Drop)]
pub struct BoxLibrary {
    layers: Layers,
    land: Boxes,
    water: Boxes,
}

/// The first moves between all cells of a small map, on both of its grids.
#[derive(Drop)]
pub struct MoveLibrary {
    layers: Layers,
    land: Moves,
    water: Moves,
}

/// Whoever answers queries.
#[derive(Drop)]
pub enum Answerer {
    Session(Session),
    Boxes(BoxLibrary),
    Moves(MoveLibrary),
}

impl BoxLibrary {
    // The reply to a query.
    fn query(&self, alloc: Global, ends: AskedEnds) -> Result<Reply, NoMemory>
        requires ready { CanAnswer (Answerer.Boxes self.now) }
        ensures reply { IfOk result (λ reply. reply ≡ reply_to (who_of (Answerer.Boxes self.now))
            (record { x = ends.sx; y = ends.sy }) (record { x = ends.gx; y = ends.gy })) }
    {
        match self.layers.ends(ends.sx, ends.sy, ends.gx, ends.gy) {
            Ok(both) => self.search(alloc, both.from, both.to),
            Err(why) => Ok(Reply::unsearched(alloc, why)),
        }
    }

    // The reply between two free cells of one grid.
    fn search(&self, alloc: Global, from: Cell, to: Cell) -> Result<Reply, NoMemory>
        requires land { HoldsBoxes self.now.layers.land self.now.land }
        requires water { HoldsBoxes self.now.layers.water self.now.water }
        requires one { in_one_layer self.now.layers from to ≡ true }
        ensures found { IfOk result
            (IsFoundReply (by_small SmallEngine.Boxes) (query_grid self.now.layers from) from to) }
    {
        if self.layers.water().free(from) {
            search_boxed(alloc, self.layers.water(), &self.water, from, to)
        } else {
            search_boxed(alloc, self.layers.land(), &self.land, from, to)
        }
    }
}

impl MoveLibrary {
    // The reply to a query.
    fn query<L: Ledger>(
        &self,
        alloc: Global,
        ends: AskedEnds,
        steps: &mut Steps<L>,
    ) -> Result<Reply, NoMemory>
        requires ready { CanAnswer (Answerer.Moves self.now) }
        ensures reply { IfOk result (λ reply. reply ≡ reply_to (who_of (Answerer.Moves self.now))
            (record { x = ends.sx; y = ends.sy }) (record { x = ends.gx; y = ends.gy })) }
        ensures later { OnOk result (steps.old ≤ steps.new) }
    {
        match self.layers.ends(ends.sx, ends.sy, ends.gx, ends.gy) {
            Ok(both) => self.follow(alloc, both.from, both.to, steps),
            Err(why) => Ok(Reply::unsearched(alloc, why)),
        }
    }

    // The reply between two free cells of one grid.
    fn follow<L: Ledger>(
        &self,
        alloc: Global,
        from: Cell,
        to: Cell,
        steps: &mut Steps<L>,
    ) -> Result<Reply, NoMemory>
        requires small { AreSmall self.now.layers }
        requires land { AreMoves self.now.layers.land self.now.land }
        requires water { AreMoves self.now.layers.water self.now.water }
        requires one { in_one_layer self.now.layers from to ≡ true }
        ensures found { IfOk result
            (IsFoundReply (by_small SmallEngine.Moves) (query_grid self.now.layers from) from to) }
        ensures later { OnOk result (steps.old ≤ steps.new) }
    {
        if self.layers.water().free(from) {
            follow_moves(alloc, self.layers.water(), &self.water, from, to, steps)
        } else {
            follow_moves(alloc, self.layers.land(), &self.land, from, to, steps)
        }
    }
}

impl Answerer {
    /// Who answers by what was made of a map: of a small map all boxes, or all first moves, are made now.
    pub fn new(alloc: Global, basis: Basis) -> Result<Answerer, NoMemory>
        requires fit { IsFit basis }
        ensures who { IfOk result (λ a. who_of a ≡ who_from basis) }
        ensures ready { IfOk result CanAnswer }
    {
        match basis {
            Basis::Session(session) => Ok(Answerer::Session(session)),
            Basis::Small {
                layers,
                engine: SmallEngine::Boxes,
            } => {
                let land = Boxes::build(alloc, layers.land())?;
                let water = Boxes::build(alloc, layers.water())?;
                Ok(Answerer::Boxes(BoxLibrary {
                    layers,
                    land,
                    water,
                }))
            }
            Basis::Small {
                layers,
                engine: SmallEngine::Moves,
            } => {
                let land = Moves::build(alloc, layers.land())?;
                let water = Moves::build(alloc, layers.water())?;
                Ok(Answerer::Moves(MoveLibrary {
                    layers,
                    land,
                    water,
                }))
            }
        }
    }

    /// The map's width, in cells.
    pub fn width(&self) -> u16
        ensures { result ≡ (who_of self.now).layers.land.width }
    {
        match self {
            Answerer::Session(session) => session.width(),
            Answerer::Boxes(library) => library.layers.land().width(),
            Answerer::Moves(library) => library.layers.land().width(),
        }
    }

    /// The map's height, in cells.
    pub fn height(&self) -> u16
        ensures { result ≡ (who_of self.now).layers.land.height }
    {
        match self {
            Answerer::Session(session) => session.height(),
            Answerer::Boxes(library) => library.layers.land().height(),
            Answerer::Moves(library) => library.layers.land().height(),
        }
    }

    /// Answers a query. A session counts what its engine counts, first moves a step for each move of
    /// the walk, and one where a first move is looked for in vain.
    pub fn query<L: Ledger>(
        &mut self,
        alloc: Global,
        ends: AskedEnds,
        steps: &mut Steps<L>,
    ) -> Result<Reply, NoMemory>
        requires ready { CanAnswer self.old }
        ensures reply { IfOk result (λ reply. reply ≡ reply_to (who_of self.old)
            (record { x = ends.sx; y = ends.sy }) (record { x = ends.gx; y = ends.gy })) }
        ensures short { IfOk result (λ reply. IsShort (answer_of reply)) }
        ensures unchanged { self.new ≡ self.old }
        ensures fewest { IfOk result (RoseByStates (fewest_by (who_of self.old).by) steps.old steps.new) }
        ensures most { IfOk result (RoseWithin (most_by (who_of self.old).by) steps.old steps.new) }
    {
        match self {
            Answerer::Session(session) => {
                session.query(alloc, ends.sx, ends.sy, ends.gx, ends.gy, steps)
            }
            Answerer::Boxes(library) => library.query(alloc, ends),
            Answerer::Moves(library) => library.query(alloc, ends, steps),
        }
    }
}
