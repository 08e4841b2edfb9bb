//! The search: A* over the states that jumps lead to.
//!
//! A state is taken by the least sum of its cost and the octile distance to the goal; among equal sums
//! the one of the lesser number goes first, and of equal offers to a state the earlier one stands. The
//! search ends where the goal is taken, or where no state waits. Both ends have to be free on a grid
//! for which the source of jumps stands. The steps of the open list are counted by a counter of their
//! own (`own`), so that `steps` counts those of the source alone.
//!
//! A* after Hart, Nilsson and Raphael (1968) over the jump points of Harabor and Grastien (AAAI 2011);
//! the order of ties is this project's. The machine under it is `best_first`.

ghost use Rattle.std.specs.Prelude.{◌≡◌, ◌+◌, ◌*◌, ◌<◌, [], false, length, IfOk, IfSome, IfNone, IsSome};
ghost use Rattle.std.specs.Prelude.{OnOk, slice_get, Some};
ghost use Rattle.grid_moves.specs.Grid.{GridData};
ghost use Rattle.grid_moves.specs.Move.{is_same};
ghost use Rattle.best_first.specs.State.{state_number, state_of_place};
ghost use Rattle.best_first.specs.Trace.{node_cell};
ghost use Rattle.path_points.specs.Least.{IsLeastOrNone};
ghost use Rattle.search_core.specs.Answer.{IsJumpRun};
ghost use Rattle.search_core.specs.Counting.{IsCounted, IsWithinTaken, RoseByTaken};
ghost use Rattle.search_core.specs.Jumping.{HasReached, GoesOnFrom};
ghost use Rattle.search_core.specs.Room.{HasPlaces};
ghost use Rattle.search_core.specs.Serving.{OnSome, OnEach};

use crate::jumping::{Query, last_at, offer_jumps};
use crate::{NoMemory, Taken};
use best_first::{Found, Layout, Node, Space, State};
use grid_moves::Cell;
use pruning::{JumpSource, come_to};
use std::alloc::Global;
use std::marker::Brand;
use std::sync::ledger::{Blank, Ledger};
use steps::Steps;

// Takes the start.
fn begin<J: JumpSource, M: Ledger>(
    j: &J,
    query: Query,
    space: &mut Space,
    taken: &mut Taken,
    own: &mut Steps<M>,
) -> Result<(), NoMemory>
    requires some { OnSome (J.StandsFor j.now) query.from query.to }
    requires layout { space.old.layout ≡ query.layout }
    requires places { OnEach (J.StandsFor j.now) query.from query.to (λ g. HasPlaces g space.old) }
    requires none { taken.old ≡ [] }
    ensures reached { OnOk result (OnEach (J.StandsFor j.now) query.from query.to
        (λ g. HasReached query.layout g query.from query.to 0 space.new taken.new)) }
    ensures layout { space.new.layout ≡ space.old.layout }
    ensures places { space.new.places ≡ space.old.places }
    ensures one { OnOk result (length taken.new ≡ 1) }
{
    let width = j.width();
    space.begin(width, query.from, query.to, own)?;
    taken.push(State::start(query.from).number(width))
}

// The printed number of a node's state.
fn number_at<J: JumpSource>(j: &J, node: Node) -> u32
    requires { (g : GridData) × J.StandsFor j.now g
        × ((node_cell node).x < g.width) × ((node_cell node).y < g.height) }
    ensures { (g : GridData) → J.StandsFor j.now g
        → result ≡ state_number g.width (state_of_place node.place) }
{
    let state = State {
        cell: node.place.cell(),
        arrival: node.place.arrival(),
    };
    state.number(j.width())
}

// Makes the offers of the last taken state, and takes the next, if a state waits.
fn advance<J: JumpSource, L: Ledger, M: Ledger>(
    j: &J,
    query: Query,
    space: &mut Space,
    at: u32,
    taken: &mut Taken,
    steps: &mut Steps<L>,
    own: &mut Steps<M>,
) -> Result<Option<u32>, NoMemory>
    requires some { OnSome (J.StandsFor j.now) query.from query.to }
    requires reached { OnEach (J.StandsFor j.now) query.from query.to
        (λ g. HasReached query.layout g query.from query.to at space.old taken.old) }
    requires open_ended { (n : _) → slice_get space.old.table.nodes at ≡ Some n
        → is_same (node_cell n) query.to ≡ false }
    ensures goes_on { IfOk result (λ next. OnEach (J.StandsFor j.now) query.from query.to
        (λ g. GoesOnFrom query.layout g query.from query.to space.new taken.new next)) }
    ensures one_more { IfOk result (λ next. IfSome next (λ id. length taken.new ≡ length taken.old + 1)) }
    ensures same { IfOk result (λ next. IfNone next (taken.new ≡ taken.old)) }
    ensures layout { space.new.layout ≡ space.old.layout }
    ensures places { space.new.places ≡ space.old.places }
    ensures counted { IfOk result
        (λ _. IsCounted (J.most j.now) (J.fewest j.now).allowed 1 steps.old steps.new) }
{
    space.reserve()?;
    let last = last_at(space, query.to, at);
    let dirs = j.allowed_word(last.state.cell, come_to(last.state.arrival), steps);
    offer_jumps(j, query, last, dirs, space, steps, own);
    match space.take_next(own) {
        None => Ok(None),
        Some(next) => {
            let node = space.node(next);
            taken.push(number_at(j, node))?;
            Ok(Some(next))
        }
    }
}

// The answer where the goal was taken last.
fn found<J: JumpSource>(
    alloc: Global,
    j: &J,
    query: Query,
    space: &Space,
    at: u32,
    taken: Taken,
) -> Result<Found, NoMemory>
    requires some { OnSome (J.StandsFor j.now) query.from query.to }
    requires reached { OnEach (J.StandsFor j.now) query.from query.to
        (λ g. HasReached query.layout g query.from query.to at space.now taken) }
    requires goal { (n : _) → slice_get space.now.table.nodes at ≡ Some n → node_cell n ≡ query.to }
    ensures run { IfOk result (λ f. OnEach (J.StandsFor j.now) query.from query.to
        (λ g. IsJumpRun query.layout g query.from query.to f)) }
    ensures found { IfOk result (λ f. IsSome f.walk) }
    ensures taken { IfOk result (λ f. f.taken ≡ taken) }
{
    let way = space.way_to(alloc, query.to, at)?;
    Ok(Found {
        walk: Some(way),
        taken,
    })
}

// So many states a short search takes at most, and there is room for their numbers from the start on: a list
// that grows from nothing is moved a few times.
const MANY_STATES: usize = 256;

// No states, and room for some.
fn none_taken(alloc: Global) -> Result<Taken, NoMemory>
    ensures { IfOk result (λ taken. taken ≡ []) }
{
    Ok(Taken::of(Vec::with_capacity(alloc, MANY_STATES)?))
}

// The search's run.
fn run<J: JumpSource, L: Ledger, M: Ledger>(
    alloc: Global,
    j: &J,
    query: Query,
    space: &mut Space,
    steps: &mut Steps<L>,
    own: &mut Steps<M>,
) -> Result<Found, NoMemory>
    requires some { OnSome (J.StandsFor j.now) query.from query.to }
    requires layout { space.old.layout ≡ query.layout }
    requires places { OnEach (J.StandsFor j.now) query.from query.to (λ g. HasPlaces g space.old) }
    ensures run { IfOk result (λ f. OnEach (J.StandsFor j.now) query.from query.to
        (λ g. IsJumpRun query.layout g query.from query.to f)) }
    ensures most { IfOk result (λ f. IsWithinTaken (J.most j.now) f steps.old steps.new) }
    ensures fewest { IfOk result (λ f. RoseByTaken (J.fewest j.now).allowed f steps.old steps.new) }
    ensures layout { space.new.layout ≡ space.old.layout }
    ensures places { space.new.places ≡ space.old.places }
{
    let mut taken = none_taken(alloc)?;
    begin(j, query, space, &mut taken, own)?;
    let mut at: u32 = 0;
    'taking: while space.node(at).place.cell() != query.to {
        match advance(j, query, space, at, &mut taken, steps, own)? {
            Some(next) => at = next,
            None => {
                return Ok(Found { walk: None, taken });
            }
        }
    }
    found(alloc, j, query, space, at, taken)
}

// A search whose steps of the open list are counted by a counter of its own.
fn run_counted<J: JumpSource, L: Ledger, M: Ledger>(
    alloc: Global,
    j: &J,
    query: Query,
    space: &mut Space,
    steps: &mut Steps<L>,
    blank: Blank,
) -> Result<Found, NoMemory>
    requires name { blank.name ≡ M.name }
    requires parts { blank.parts ≡ M.parts }
    requires positive { 0 < M.parts }
    requires some { OnSome (J.StandsFor j.now) query.from query.to }
    requires layout { space.old.layout ≡ query.layout }
    requires places { OnEach (J.StandsFor j.now) query.from query.to (λ g. HasPlaces g space.old) }
    ensures run { IfOk result (λ f. OnEach (J.StandsFor j.now) query.from query.to
        (λ g. IsJumpRun query.layout g query.from query.to f)) }
    ensures least { IfOk result (λ f. OnEach (J.StandsFor j.now) query.from query.to
        (λ g. IsLeastOrNone g query.from query.to f.walk)) }
    ensures most { IfOk result (λ f. IsWithinTaken (J.most j.now) f steps.old steps.new) }
    ensures fewest { IfOk result (λ f. RoseByTaken (J.fewest j.now).allowed f steps.old steps.new) }
    ensures layout { space.new.layout ≡ space.old.layout }
    ensures places { space.new.places ≡ space.old.places }
{
    let mut own = Steps::<M>::new(blank);
    run(alloc, j, query, space, steps, &mut own)
}

/// The jump engines' run from one free cell to another, over memory that is lent: its answer is a
/// least walk, or that none exists.
///
/// This holds on each grid for which `j` stands and in which both cells are free; there has to be one.
/// `space` has to be made for a map with as many cells at least; it is used again as often as wanted. Whether
/// a cell has a state for each arrival, or one that keeps its first arrival of least cost, `space` tells.
/// `steps` counts what the source counts, by its bounds for each state that was taken.
pub fn search_in<J: JumpSource, L: Ledger>(
    alloc: Global,
    j: &J,
    from: Cell,
    to: Cell,
    space: &mut Space,
    steps: &mut Steps<L>,
) -> Result<Found, NoMemory>
    requires some { OnSome (J.StandsFor j.now) from to }
    requires places { OnEach (J.StandsFor j.now) from to (λ g. HasPlaces g space.old) }
    ensures run { IfOk result (λ f. OnEach (J.StandsFor j.now) from to
        (λ g. IsJumpRun space.old.layout g from to f)) }
    ensures least { IfOk result
        (λ f. OnEach (J.StandsFor j.now) from to (λ g. IsLeastOrNone g from to f.walk)) }
    ensures most { IfOk result (λ f. IsWithinTaken (J.most j.now) f steps.old steps.new) }
    ensures fewest { IfOk result (λ f. RoseByTaken (J.fewest j.now).allowed f steps.old steps.new) }
    ensures layout { space.new.layout ≡ space.old.layout }
    ensures places { OnEach (J.StandsFor j.now) from to (λ g. HasPlaces g space.new) }
{
    let layout = space.layout();
    let query = Query { from, to, layout };
    run_counted::<J, L, Brand>(alloc, j, query, space, steps, Blank::new(1))
}

// The memory for searches on a map of this size.
fn space_for<J: JumpSource>(alloc: Global, j: &J, layout: Layout) -> Result<Space, NoMemory>
    requires { (g : GridData) × J.StandsFor j.now g }
    ensures layout { IfOk result (λ space. space.layout ≡ layout) }
    ensures places { IfOk result (λ space. (g : GridData) → J.StandsFor j.now g → HasPlaces g space) }
{
    let cells = j.height() as usize * j.width() as usize;
    Space::new(alloc, layout, cells)
}

/// The jump engines' run from one free cell to another, with these states: its answer is a least walk, or
/// that none exists.
///
/// This holds on each grid for which `j` stands and in which both cells are free; there has to be one.
/// `steps` counts what the source counts, by its bounds for each state that was taken.
pub fn search<J: JumpSource, L: Ledger>(
    alloc: Global,
    j: &J,
    layout: Layout,
    from: Cell,
    to: Cell,
    steps: &mut Steps<L>,
) -> Result<Found, NoMemory>
    requires { OnSome (J.StandsFor j.now) from to }
    ensures run { IfOk result (λ f. OnEach (J.StandsFor j.now) from to (λ g. IsJumpRun layout g from to f)) }
    ensures least { IfOk result
        (λ f. OnEach (J.StandsFor j.now) from to (λ g. IsLeastOrNone g from to f.walk)) }
    ensures most { IfOk result (λ f. IsWithinTaken (J.most j.now) f steps.old steps.new) }
    ensures fewest { IfOk result (λ f. RoseByTaken (J.fewest j.now).allowed f steps.old steps.new) }
{
    let mut space = space_for(alloc, j, layout)?;
    search_in(alloc, j, from, to, &mut space, steps)
}
