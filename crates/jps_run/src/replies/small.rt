//! Replies on small maps: by the search that goes by goal boxes, and by following first moves.

ghost use Rattle.std.specs.Prelude.{◌≡◌, ◌≤◌, ◌*◌, ◌<◌, true, IfOk, OnOk};
ghost use Rattle.first_moves.specs.Row.{AreMoves};
ghost use Rattle.goal_boxes.specs.Stored.{HoldsBoxes};
ghost use Rattle.grid_moves.specs.Grid.{is_free};
ghost use Rattle.jps_run.specs.Who.{IsFoundReply, by_small, replies_by};

use crate::NoMemory;
use cell_lines::AskedEnds;
use edit_replay::Reply;
use first_moves::{Moves, follow_by_pass};
use goal_boxes::{Boxes, boxed_query, boxed_search};
use grid_moves::{Cell, Grid, Layers};
use plain_search::Taken;
use std::alloc::Global;
use std::marker::Brand;
use std::sync::ledger::{Blank, Ledger};
use steps::Steps;
use word_list::SmallEngine;

/// The reply of the boxed run between free cells of a grid, by its boxes.
#[tactic(auto, using(crate::proofs::Replying::found_boxed))]
pub fn search_boxed(
    alloc: Global,
    grid: &Grid,
    boxes: &Boxes,
    from: Cell,
    to: Cell,
) -> Result<Reply, NoMemory>
    requires boxes { HoldsBoxes grid.now boxes.now }
    requires from { is_free grid.now from ≡ true }
    requires to { is_free grid.now to ≡ true }
    ensures found { IfOk result (IsFoundReply (by_small SmallEngine.Boxes) grid.now from to) }
{
    let found = boxed_search(alloc, grid, boxes, from, to)?;
    Ok(Reply::found(found.walk, found.taken))
}

/// The reply of the walk of first moves between free cells of a small grid, by its first moves.
#[tactic(auto, using(crate::proofs::Replying::found_led))]
pub fn follow_moves<L: Ledger>(
    alloc: Global,
    grid: &Grid,
    moves: &Moves,
    from: Cell,
    to: Cell,
    steps: &mut Steps<L>,
) -> Result<Reply, NoMemory>
    requires moves { AreMoves grid.now moves.now }
    requires few { grid.now.height * grid.now.width ≤ 16384 }
    requires from { is_free grid.now from ≡ true }
    requires to { is_free grid.now to ≡ true }
    ensures found { IfOk result (IsFoundReply (by_small SmallEngine.Moves) grid.now from to) }
    ensures later { OnOk result (steps.old ≤ steps.new) }
{
    let taken = Taken::new(alloc);
    let walk = moves.follow(alloc, grid, from, to, steps)?;
    Ok(Reply::found(walk, taken))
}

// The reply between free cells of a grid of which nothing is kept: by the boxed run, with a pass for each
// taken cell at most, or by the walk of first moves, with one pass, from the goal.
#[tactic(auto, using(crate::proofs::Replying::found_boxed, crate::proofs::Replying::found_led))]
fn reply_alone<L: Ledger>(
    alloc: Global,
    grid: &Grid,
    engine: SmallEngine,
    from: Cell,
    to: Cell,
    blank: Blank,
) -> Result<Reply, NoMemory>
    requires name { blank.name ≡ L.name }
    requires parts { blank.parts ≡ L.parts }
    requires some { 0 < L.parts }
    requires from { is_free grid.now from ≡ true }
    requires to { is_free grid.now to ≡ true }
    ensures found { IfOk result (IsFoundReply (by_small engine) grid.now from to) }
{
    let mut steps = Steps::<L>::new(blank);
    match engine {
        SmallEngine::Boxes => {
            let found = boxed_query(alloc, grid, from, to, &mut steps)?;
            Ok(Reply::found(found.walk, found.taken))
        }
        SmallEngine::Moves => {
            let walk = follow_by_pass(alloc, grid, from, to, &mut steps)?;
            Ok(Reply::found(walk, Taken::new(alloc)))
        }
    }
}

/// The reply to one query by an engine for small maps. No more boxes or first moves are found than it asks
/// for.
pub fn small_reply(
    alloc: Global,
    layers: &Layers,
    engine: SmallEngine,
    ends: AskedEnds,
) -> Result<Reply, NoMemory>
    ensures { IfOk result (λ reply. reply ≡ replies_by (by_small engine) layers.now
        (record { x = ends.sx; y = ends.sy }) (record { x = ends.gx; y = ends.gy })) }
{
    match layers.ends(ends.sx, ends.sy, ends.gx, ends.gy) {
        Ok(both) => reply_alone::<Brand>(
            alloc,
            layers.query_grid(both.from),
            engine,
            both.from,
            both.to,
            Blank::new(1),
        ),
        Err(why) => Ok(Reply::unsearched(alloc, why)),
    }
}
