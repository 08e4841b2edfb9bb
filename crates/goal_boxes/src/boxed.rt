//! The boxed search: A* over the moves whose boxes hold the goal.
//!
//! The machine under it is `best_first`; the rule is the plain engine's, with fewer links. No move of a least
//! walk to the goal is left out: the rest of the walk from each of its cells is a least walk that begins with
//! its next move, so the box of that move holds the goal.
//!
//! The boxes of a taken cell are kept ones, or found by a pass from the cell when it is taken.

ghost use Rattle.std.specs.Prelude.{◌≡◌, ◌+◌, ◌<◌, ◌≤◌, [], true, false, length, IfOk, OnOk, IfSome, IfNone};
ghost use Rattle.std.specs.Prelude.{slice_get, Some};
ghost use Rattle.grid_moves.specs.Grid.{IsGrid, is_free};
ghost use Rattle.grid_moves.specs.Move.{is_same};
ghost use Rattle.best_first.specs.State.{state_number, start_at};
ghost use Rattle.best_first.specs.Trace.{node_cell};
ghost use Rattle.plain_search.specs.Room.{HasRoom, IsReady};
ghost use Rattle.path_points.specs.Least.{IsLeastOrNone};
ghost use Rattle.goal_boxes.specs.Answer.{IsRunBy, IsBoxedRun, IsBoxedRunOn};
ghost use Rattle.goal_boxes.specs.Box.{TellsBoxes};
ghost use Rattle.goal_boxes.specs.Offers.{Agree};
ghost use Rattle.goal_boxes.specs.Progress.{HasTaken, GoesOn};
ghost use Rattle.goal_boxes.specs.Stored.{HoldsBoxes};

use crate::around::CellBoxes;
use crate::offers::offer_all;
use crate::source::{BoxSource, Kept, Meant};
use crate::{Boxes, NoMemory, Taken};
use best_first::{Found, Layout, Space, State};
use cost_waves::CostWaves;
use grid_moves::{Cell, Ends, Terrain};
use path_points::{Walk, turns};
use std::alloc::Global;
use std::marker::Brand;
use std::sync::ledger::{Blank, Ledger};
use steps::Steps;

// The printed number of the state at a cell.
fn state_at<T: Terrain>(t: &T, c: Cell) -> u32
    requires { is_free (T.grid t.now) c ≡ true }
    ensures { result ≡ state_number (T.grid t.now).width (start_at c) }
{
    State::start(c).number(t.width())
}

// Takes the start.
fn begin<K: Meant, T: Terrain, L: Ledger>(
    t: &T,
    ends: Ends,
    space: &mut Space,
    taken: &mut Taken,
    steps: &mut Steps<L>,
) -> Result<(), NoMemory>
    requires from { is_free (T.grid t.now) ends.from ≡ true }
    requires to { is_free (T.grid t.now) ends.to ≡ true }
    requires layout { space.old.layout ≡ Layout.ByCell }
    requires room { HasRoom (T.grid t.now) space.old.places }
    requires none { taken.old ≡ [] }
    ensures taken { OnOk result
        (HasTaken (T.grid t.now) K.boxes ends.from ends.to 0 space.new.table taken.new) }
    ensures one { OnOk result (length taken.new ≡ 1) }
    ensures ready { OnOk result (IsReady (T.grid t.now) space.new) }
    ensures whole { IsGrid (T.grid t.now) }
{
    space.begin(t.width(), ends.from, ends.to, steps)?;
    taken.push(state_at(t, ends.from))
}

// Makes the offers of the last taken state, given the boxes of its cell, and takes the next, if a state
// waits.
fn advance<K: Meant, T: Terrain, L: Ledger>(
    t: &T,
    boxes: CellBoxes,
    ends: Ends,
    space: &mut Space,
    at: u32,
    taken: &mut Taken,
    steps: &mut Steps<L>,
) -> Result<Option<u32>, NoMemory>
    requires boxes { (n : _) → slice_get space.old.table.nodes at ≡ Some n
        → Agree boxes K.boxes (node_cell n) }
    requires from { is_free (T.grid t.now) ends.from ≡ true }
    requires to { is_free (T.grid t.now) ends.to ≡ true }
    requires whole { IsGrid (T.grid t.now) }
    requires ready { IsReady (T.grid t.now) space.old }
    requires taken { HasTaken (T.grid t.now) K.boxes ends.from ends.to at space.old.table taken.old }
    requires open_ended { (n : _) → slice_get space.old.table.nodes at ≡ Some n
        → is_same (node_cell n) ends.to ≡ false }
    ensures goes_on { IfOk result
        (GoesOn (T.grid t.now) K.boxes ends.from ends.to space.new.table taken.new) }
    ensures one_more { IfOk result (λ next. IfSome next (λ id. length taken.new ≡ length taken.old + 1)) }
    ensures no_more { IfOk result (λ next. IfNone next (taken.new ≡ taken.old)) }
    ensures ready { IsReady (T.grid t.now) space.new }
{
    space.reserve()?;
    offer_all::<K, T, L>(t, boxes, ends.to, at, space, steps);
    match space.take_next(steps) {
        None => Ok(None),
        Some(next) => {
            taken.push(state_at(t, space.node(next).place.cell()))?;
            Ok(Some(next))
        }
    }
}

// The answer where the goal was taken last.
fn found<K: Meant, T: Terrain>(
    alloc: Global,
    t: &T,
    ends: Ends,
    space: &Space,
    at: u32,
    taken: Taken,
) -> Result<Found, NoMemory>
    requires boxes { TellsBoxes (T.grid t.now) K.boxes }
    requires whole { IsGrid (T.grid t.now) }
    requires from { is_free (T.grid t.now) ends.from ≡ true }
    requires to { is_free (T.grid t.now) ends.to ≡ true }
    requires taken { HasTaken (T.grid t.now) K.boxes ends.from ends.to at space.now.table taken }
    requires goal { (n : _) → slice_get space.now.table.nodes at ≡ Some n → node_cell n ≡ ends.to }
    ensures run { IfOk result (IsRunBy (T.grid t.now) K.boxes ends.from ends.to) }
    ensures least { IfOk result (λ r. IsLeastOrNone (T.grid t.now) ends.from ends.to r.walk) }
    ensures taken { IfOk result (λ r. r.taken ≡ taken) }
{
    let way = space.way_to(alloc, ends.to, at)?;
    let points = turns(alloc, way.points.as_slice())?;
    let walk = Walk {
        points,
        cost: way.cost,
    };
    Ok(Found {
        walk: Some(walk),
        taken,
    })
}

// The search's run. The boxes of each taken cell but the goal are asked once, when its moves are offered.
fn run<K: Meant, B: BoxSource, T: Terrain, L: Ledger, M: Ledger>(
    alloc: Global,
    t: &T,
    source: &mut B,
    ends: Ends,
    space: &mut Space,
    steps: &mut Steps<L>,
    passes: &mut Steps<M>,
) -> Result<Found, NoMemory>
    requires boxes { TellsBoxes (T.grid t.now) K.boxes }
    requires stands { B.StandsFor source.old (T.grid t.now) }
    requires from { is_free (T.grid t.now) ends.from ≡ true }
    requires to { is_free (T.grid t.now) ends.to ≡ true }
    requires layout { space.old.layout ≡ Layout.ByCell }
    requires room { HasRoom (T.grid t.now) space.old.places }
    ensures run { IfOk result (IsRunBy (T.grid t.now) K.boxes ends.from ends.to) }
    ensures least { IfOk result (λ r. IsLeastOrNone (T.grid t.now) ends.from ends.to r.walk) }
    ensures passes { IfOk result (λ r. passes.new ≤ passes.old + length r.taken) }
{
    let mut taken = Taken::new(alloc);
    begin::<K, T, L>(t, ends, space, &mut taken, steps)?;
    let mut at: u32 = 0;
    'taking: while space.node(at).place.cell() != ends.to {
        let boxes = source.boxes_of(t, space.node(at).place.cell(), passes)?;
        match advance::<K, T, L>(t, boxes, ends, space, at, &mut taken, steps)? {
            Some(next) => at = next,
            None => {
                return Ok(Found { walk: None, taken });
            }
        }
    }
    found::<K, T>(alloc, t, ends, space, at, taken)
}

// The same in memory of its own, with a counter of its own for the steps of the open list.
fn run_alone<K: Meant, B: BoxSource, T: Terrain, L: Ledger, M: Ledger>(
    alloc: Global,
    t: &T,
    source: &mut B,
    ends: Ends,
    passes: &mut Steps<M>,
    blank: Blank,
) -> Result<Found, NoMemory>
    requires name { blank.name ≡ L.name }
    requires parts { blank.parts ≡ L.parts }
    requires some { 0 < L.parts }
    requires boxes { TellsBoxes (T.grid t.now) K.boxes }
    requires stands { B.StandsFor source.old (T.grid t.now) }
    requires from { is_free (T.grid t.now) ends.from ≡ true }
    requires to { is_free (T.grid t.now) ends.to ≡ true }
    ensures run { IfOk result (IsRunBy (T.grid t.now) K.boxes ends.from ends.to) }
    ensures least { IfOk result (λ r. IsLeastOrNone (T.grid t.now) ends.from ends.to r.walk) }
    ensures passes { IfOk result (λ r. passes.new ≤ passes.old + length r.taken) }
{
    let cells = t.height() as usize * t.width() as usize;
    let mut space = Space::new(alloc, Layout::ByCell, cells)?;
    let mut steps = Steps::<L>::new(blank);
    run::<K, B, T, L, M>(alloc, t, source, ends, &mut space, &mut steps, passes)
}

// The run by boxes that are kept, with a counter of its own for passes, of which there is none.
fn run_kept<K: Meant, T: Terrain, M: Ledger>(
    alloc: Global,
    t: &T,
    b: &Boxes,
    ends: Ends,
    blank: Blank,
) -> Result<Found, NoMemory>
    requires name { blank.name ≡ M.name }
    requires parts { blank.parts ≡ M.parts }
    requires some { 0 < M.parts }
    requires boxes { TellsBoxes (T.grid t.now) K.boxes }
    requires kept { HoldsBoxes (T.grid t.now) b.now }
    requires from { is_free (T.grid t.now) ends.from ≡ true }
    requires to { is_free (T.grid t.now) ends.to ≡ true }
    ensures run { IfOk result (IsRunBy (T.grid t.now) K.boxes ends.from ends.to) }
    ensures least { IfOk result (λ r. IsLeastOrNone (T.grid t.now) ends.from ends.to r.walk) }
{
    let mut passes = Steps::<M>::new(blank);
    let mut source = Kept { boxes: b };
    run_alone::<K, Kept, T, Brand, M>(alloc, t, &mut source, ends, &mut passes, Blank::new(1))
}

/// The boxed run from one free cell to another: the states that it takes, in order, and a least walk, `None`
/// exactly where no walk exists. Its points are its ends and its turns. A taken state offers the legal moves
/// whose boxes hold the goal. Among equal sums of cost and octile distance the state of the lesser cell
/// number goes first, and of equal offers to a cell the earlier one stands.
///
/// The memory is that of a plain search: an entry for each cell is filled.
pub fn boxed_search<T: Terrain>(
    alloc: Global,
    t: &T,
    b: &Boxes,
    from: Cell,
    to: Cell,
) -> Result<Found, NoMemory>
    requires boxes { HoldsBoxes (T.grid t.now) b.now }
    requires from { is_free (T.grid t.now) from ≡ true }
    requires to { is_free (T.grid t.now) to ≡ true }
    ensures run { IfOk result (IsBoxedRun (T.grid t.now) b.now from to) }
    ensures on_grid { IfOk result (IsBoxedRunOn (T.grid t.now) from to) }
    ensures least { IfOk result (λ r. IsLeastOrNone (T.grid t.now) from to r.walk) }
{
    let ends = Ends { from, to };
    run_kept::<Brand, T, Brand>(alloc, t, b, ends, Blank::new(1))
}

/// The boxed run from one free cell to another without any boxes at hand: those of a cell are found by one
/// pass from it when its moves are offered, which is counted as a step: at most one for each taken state.
///
/// For one query this is cheaper than `Boxes::build`, which makes a pass from each free cell. The memory is
/// that of a plain search and of one pass: an entry for each cell is filled.
pub fn boxed_query<T: Terrain, L: Ledger>(
    alloc: Global,
    t: &T,
    from: Cell,
    to: Cell,
    passes: &mut Steps<L>,
) -> Result<Found, NoMemory>
    requires from { is_free (T.grid t.now) from ≡ true }
    requires to { is_free (T.grid t.now) to ≡ true }
    ensures run { IfOk result (IsBoxedRunOn (T.grid t.now) from to) }
    ensures least { IfOk result (λ r. IsLeastOrNone (T.grid t.now) from to r.walk) }
    ensures passes { IfOk result (λ r. passes.new ≤ passes.old + length r.taken) }
{
    let mut waves = CostWaves::new(alloc, t.width(), t.height())?;
    let ends = Ends { from, to };
    run_alone::<Brand, CostWaves, T, Brand, L>(alloc, t, &mut waves, ends, passes, Blank::new(1))
}
