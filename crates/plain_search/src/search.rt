//! The search: A* with one state for each cell and every legal move.
//!
//! A state is taken by the least sum of its cost and the octile distance to the goal; among equal sums
//! the one of the lesser cell number goes first, and of equal offers to a cell the earlier one stands.
//! The search ends where the goal is taken, or where no state waits. Both ends have to be free. Moves that
//! the parent has offered at no greater cost are left out (module `moves`), which changes nothing in the
//! run.
//!
//! A* after Hart, Nilsson and Raphael (1968); the order of ties is this project's. The machine under it is
//! `best_first`.

ghost use Rattle.std.specs.Prelude.{◌≡◌, ◌+◌, ◌<◌, [], true, false, length, IfOk, OnOk, IfSome, slice_get};
ghost use Rattle.std.specs.Prelude.{Some};
ghost use Rattle.grid_moves.specs.Grid.{IsGrid, is_free};
ghost use Rattle.grid_moves.specs.Move.{is_same};
ghost use Rattle.grid_moves.specs.Ruled.{rule_of_number};
ghost use Rattle.path_points.specs.Least.{IsLeastOrNone};
ghost use Rattle.plain_search.specs.Answer.{IsExhausted, IsPlainRun};
ghost use Rattle.best_first.specs.State.{state_number, start_at};
ghost use Rattle.best_first.specs.Trace.{node_cell};
ghost use Rattle.plain_search.specs.Lists.{AreLists, plain_of};
ghost use Rattle.plain_search.specs.Progress.{HasTaken, GoesOn, HasEnded};
ghost use Rattle.plain_search.specs.Room.{HasRoom, IsReady};

use crate::lists::{Listed, with_list};
use crate::offers::offer_all;
use crate::to_all::least_to_all;
use crate::{NoMemory, Taken, Workspace};
use best_first::{Found, Layout, Space, State};
use grid_moves::{Cell, Corner, Ends, Ruled, Terrain};
use path_points::{Walk, turns};
use std::alloc::Global;
use std::marker::Brand;
use std::sync::ledger::{Blank, Ledger};
use steps::Steps;

// The printed number of the state at a cell.
fn state_at<T: Terrain>(t: &T, c: Cell) -> u32
    requires { is_free (T.grid t.now) c ≡ true }
    ensures { result ≡ state_number (T.grid t.now).width (start_at c) }
{
    State::start(c).number(t.width())
}

// Takes the start.
fn begin<T: Terrain, L: Ledger>(
    t: &T,
    ends: Ends,
    space: &mut Space,
    taken: &mut Taken,
    steps: &mut Steps<L>,
) -> Result<(), NoMemory>
    requires from { is_free (T.grid t.now) ends.from ≡ true }
    requires to { is_free (T.grid t.now) ends.to ≡ true }
    requires layout { space.old.layout ≡ Layout.ByCell }
    requires room { HasRoom (T.grid t.now) space.old.places }
    requires none { taken.old ≡ [] }
    ensures taken { OnOk result (HasTaken (T.grid t.now) ends.from ends.to 0 space.new.table taken.new) }
    ensures ready { OnOk result (IsReady (T.grid t.now) space.new) }
    ensures layout { space.new.layout ≡ space.old.layout }
    ensures places { space.new.places ≡ space.old.places }
    ensures whole { IsGrid (T.grid t.now) }
{
    space.begin(t.width(), ends.from, ends.to, steps)?;
    taken.push(state_at(t, ends.from))
}

// Makes the offers of the last taken state, and takes the next, if a state waits.
fn advance<T: Terrain, L: Ledger>(
    t: &T,
    ends: Ends,
    space: &mut Space,
    at: u32,
    taken: &mut Taken,
    steps: &mut Steps<L>,
) -> Result<Option<u32>, NoMemory>
    requires free { is_free (T.grid t.now) ends.from ≡ true }
    requires to { is_free (T.grid t.now) ends.to ≡ true }
    requires whole { IsGrid (T.grid t.now) }
    requires ready { IsReady (T.grid t.now) space.old }
    requires taken { HasTaken (T.grid t.now) ends.from ends.to at space.old.table taken.old }
    requires open_ended { (n : _) → slice_get space.old.table.nodes at ≡ Some n
        → is_same (node_cell n) ends.to ≡ false }
    ensures goes_on { IfOk result (GoesOn (T.grid t.now) ends.from ends.to space.new.table taken.new) }
    ensures one_more { IfOk result (λ next. IfSome next (λ id. length taken.new ≡ length taken.old + 1)) }
    ensures ready { IsReady (T.grid t.now) space.new }
{
    space.reserve()?;
    offer_all(t, ends.to, at, space, steps);
    match space.take_next(steps) {
        None => Ok(None),
        Some(next) => {
            taken.push(state_at(t, space.node(next).place.cell()))?;
            Ok(Some(next))
        }
    }
}

// The answer where the goal was taken last.
fn found<T: Terrain>(
    alloc: Global,
    t: &T,
    ends: Ends,
    space: &Space,
    at: u32,
    taken: Taken,
) -> Result<Found, NoMemory>
    requires whole { IsGrid (T.grid t.now) }
    requires from { is_free (T.grid t.now) ends.from ≡ true }
    requires to { is_free (T.grid t.now) ends.to ≡ true }
    requires taken { HasTaken (T.grid t.now) ends.from ends.to at space.now.table taken }
    requires goal { (n : _) → slice_get space.now.table.nodes at ≡ Some n → node_cell n ≡ ends.to }
    ensures run { IfOk result (IsPlainRun (T.grid t.now) ends.from ends.to) }
    ensures least { IfOk result (λ found. IsLeastOrNone (T.grid t.now) ends.from ends.to found.walk) }
{
    let way = space.way_to(alloc, ends.to, at)?;
    let points = turns(alloc, way.points.as_slice())?;
    let walk = Walk {
        points,
        cost: way.cost,
    };
    Ok(Found {
        walk: Some(walk),
        taken,
    })
}

// The answer where the goal was not taken.
fn exhausted<T: Terrain>(_t: &T, ends: Ends, taken: Taken) -> Found
    requires taken { IsExhausted (T.grid _t.now) ends.from ends.to taken }
    ensures run { IsPlainRun (T.grid _t.now) ends.from ends.to result }
    ensures least { IsLeastOrNone (T.grid _t.now) ends.from ends.to result.walk }
{
    Found { walk: None, taken }
}

// Takes states until the goal is taken, and gives the number of its node, or until none waits.
fn take_all<T: Terrain, L: Ledger>(
    t: &T,
    ends: Ends,
    space: &mut Space,
    taken: &mut Taken,
    steps: &mut Steps<L>,
) -> Result<Option<u32>, NoMemory>
    requires from { is_free (T.grid t.now) ends.from ≡ true }
    requires to { is_free (T.grid t.now) ends.to ≡ true }
    requires layout { space.old.layout ≡ Layout.ByCell }
    requires room { HasRoom (T.grid t.now) space.old.places }
    requires none { taken.old ≡ [] }
    ensures ended { IfOk result (HasEnded (T.grid t.now) ends.from ends.to space.new.table taken.new) }
    ensures whole { OnOk result (IsGrid (T.grid t.now)) }
    ensures layout { space.new.layout ≡ space.old.layout }
    ensures places { space.new.places ≡ space.old.places }
{
    begin(t, ends, space, taken, steps)?;
    let mut at: u32 = 0;
    'taking: while space.node(at).place.cell() != ends.to {
        match advance(t, ends, space, at, taken, steps)? {
            Some(next) => at = next,
            None => return Ok(None),
        }
    }
    Ok(Some(at))
}

// The same under a rule that the compiler knows.
fn take_all_by<const RULE: usize, T: Terrain, L: Ledger>(
    t: &T,
    ends: Ends,
    space: &mut Space,
    taken: &mut Taken,
    steps: &mut Steps<L>,
) -> Result<Option<u32>, NoMemory>
    requires rule { (T.grid t.now).corner ≡ rule_of_number RULE }
    requires from { is_free (T.grid t.now) ends.from ≡ true }
    requires to { is_free (T.grid t.now) ends.to ≡ true }
    requires layout { space.old.layout ≡ Layout.ByCell }
    requires room { HasRoom (T.grid t.now) space.old.places }
    requires none { taken.old ≡ [] }
    ensures ended { IfOk result (HasEnded (T.grid t.now) ends.from ends.to space.new.table taken.new) }
    ensures whole { OnOk result (IsGrid (T.grid t.now)) }
    ensures layout { space.new.layout ≡ space.old.layout }
    ensures places { space.new.places ≡ space.old.places }
{
    let t = &Ruled::<RULE, T> { terrain: t };
    take_all(t, ends, space, taken, steps)
}

/// Takes states until the goal is taken, and gives the number of its node, or until none waits. The
/// steps of the open list are counted by a counter of its own.
pub(crate) fn take_counted<T: Terrain, L: Ledger>(
    t: &T,
    ends: Ends,
    space: &mut Space,
    taken: &mut Taken,
    blank: Blank,
) -> Result<Option<u32>, NoMemory>
    requires name { blank.name ≡ L.name }
    requires parts { blank.parts ≡ L.parts }
    requires some { 0 < L.parts }
    requires from { is_free (T.grid t.now) ends.from ≡ true }
    requires to { is_free (T.grid t.now) ends.to ≡ true }
    requires layout { space.old.layout ≡ Layout.ByCell }
    requires room { HasRoom (T.grid t.now) space.old.places }
    requires none { taken.old ≡ [] }
    ensures ended { IfOk result (HasEnded (T.grid t.now) ends.from ends.to space.new.table taken.new) }
    ensures whole { OnOk result (IsGrid (T.grid t.now)) }
    ensures layout { space.new.layout ≡ space.old.layout }
    ensures places { space.new.places ≡ space.old.places }
{
    let steps = &mut Steps::<L>::new(blank);
    match t.corner() {
        Corner::Never => take_all_by::<0, T, L>(t, ends, space, taken, steps),
        Corner::One => take_all_by::<1, T, L>(t, ends, space, taken, steps),
        Corner::Both => take_all_by::<2, T, L>(t, ends, space, taken, steps),
    }
}

/// The plain engine's run from one free cell to another, over memory that is lent: its answer is a
/// least walk, or that none exists.
///
/// `space` has to be made for a map with as many cells; it is used again as often as wanted.
pub fn least_in<T: Terrain>(
    alloc: Global,
    t: &T,
    from: Cell,
    to: Cell,
    space: &mut Workspace,
) -> Result<Found, NoMemory>
    requires from { is_free (T.grid t.now) from ≡ true }
    requires to { is_free (T.grid t.now) to ≡ true }
    requires room { HasRoom (T.grid t.now) space.old }
    ensures run { IfOk result (IsPlainRun (T.grid t.now) from to) }
    ensures least { IfOk result (λ found. IsLeastOrNone (T.grid t.now) from to found.walk) }
    ensures room { HasRoom (T.grid t.now) space.new }
{
    let ends = Ends { from, to };
    let mut taken = Taken::new(alloc);
    let space = &mut space.space;
    match take_counted::<T, Brand>(t, ends, space, &mut taken, Blank::new(1))? {
        Some(at) => found(alloc, t, ends, space, at, taken),
        None => Ok(exhausted(t, ends, taken)),
    }
}

/// The plain engine's run from one free cell to another, with the lists by which its answer can be
/// checked without a search: its answer is a least walk, or that none exists.
///
/// The lists are made by a pass over all cells; `least_in` makes none.
pub fn least<T: Terrain>(alloc: Global, t: &T, from: Cell, to: Cell) -> Result<Listed, NoMemory>
    requires from { is_free (T.grid t.now) from ≡ true }
    requires to { is_free (T.grid t.now) to ≡ true }
    ensures run { IfOk result (λ found. IsPlainRun (T.grid t.now) from to (plain_of found)) }
    ensures least { IfOk result (λ found. IsLeastOrNone (T.grid t.now) from to (plain_of found).walk) }
    ensures lists { IfOk result (AreLists (T.grid t.now) from to) }
{
    let mut space = Workspace::of_grid(alloc, t)?;
    let found = least_in(alloc, t, from, to, &mut space)?;
    drop(space);
    let costs = least_to_all(alloc, t, from)?;
    with_list(alloc, t, Ends { from, to }, found, costs.as_slice())
}
