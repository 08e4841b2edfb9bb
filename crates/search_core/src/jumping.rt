//! Going on from a taken state: one offer for each jump.

ghost use Rattle.std.specs.Prelude.{◌≡◌, ◌+◌, ◌-◌, ◌*◌, ◌<◌, ◌≤◌, ◌^◌, true, Some, length, slice_get};
ghost use Rattle.std.specs.List.{AllByRecursion};
ghost use Rattle.root2_cost.specs.Rank.{rank_of};
ghost use Rattle.grid_moves.specs.Move.{column_after, row_after};
ghost use Rattle.grid_moves.specs.Points.{estimate};
ghost use Rattle.pruning.specs.Allowed.{come_to, is_allowed};
ghost use Rattle.pruning.specs.Chain as chain;
ghost use Rattle.pruning.specs.Source.{IsWithin};
ghost use Rattle.best_first.specs.Space.{KeepsShape, layout_by};
ghost use Rattle.best_first.specs.Trace.{node_cell};
ghost use Rattle.search_core.specs.Jumping as spec;
ghost use Rattle.search_core.specs.Serving.{OnSome, OnEach};

use best_first::{Layout, Offer, Space, State};
use grid_moves::{Cell, Dir, dir_number};
use pruning::{JumpSource, Packed, is_diagonal};
use root2_cost::Cost;
use std::sync::ledger::Ledger;
use steps::Steps;

/// What a search is asked: the ends of its walk, and which states a cell has.
#[derive(Clone, Copy)]
pub struct Query {
    pub from: Cell,
    pub to: Cell,
    pub layout: Layout,
}

/// The state that was taken last: the number of its node, the rank of its cost, and the state.
#[derive(Clone, Copy)]
pub struct Last {
    pub at: u32,
    pub rank: u64,
    pub state: State,
}

// What k moves in d cost.
fn run_cost(d: Dir, k: u16) -> Cost
    ensures { result ≡ chain.run_cost d k }
{
    if is_diagonal(d) {
        Cost {
            a: 0,
            b: u32::from(k),
        }
    } else {
        Cost {
            a: u32::from(k),
            b: 0,
        }
    }
}

// One more than the columns by which a move in each direction leads to the east, and one more than the rows
// by which it leads to the south. They are read from tables, so that there is no branch on the direction,
// which the processor would seldom foresee.
const COLUMNS_AND_ONE: [u32; 8] = [1, 2, 2, 2, 1, 0, 0, 0];

const ROWS_AND_ONE: [u32; 8] = [0, 0, 1, 2, 2, 2, 1, 0];

// One more than the columns by which a move in d leads to the east: the column after it, from column 1.
#[inline(always)]
fn columns_and_one(d: Dir) -> u32
    ensures { result ≡ column_after d 1 1 }
{
    COLUMNS_AND_ONE[dir_number(d) as usize]
}

// One more than the rows by which a move in d leads to the south: the row after it, from row 1.
#[inline(always)]
fn rows_and_one(d: Dir) -> u32
    ensures { result ≡ row_after d 1 1 }
{
    ROWS_AND_ONE[dir_number(d) as usize]
}

// The column after k moves.
#[inline(always)]
fn column_after(d: Dir, k: u16, x: u16) -> u16
    requires { x + k < 65536 }
    ensures { result ≡ column_after d k x }
{
    let k = u32::from(k);
    (u32::from(x) + k * columns_and_one(d)).saturating_sub(k) as u16
}

// The row after k moves.
#[inline(always)]
fn row_after(d: Dir, k: u16, y: u16) -> u16
    requires { y + k < 65536 }
    ensures { result ≡ row_after d k y }
{
    let k = u32::from(k);
    (u32::from(y) + k * rows_and_one(d)).saturating_sub(k) as u16
}

// The offer of the state that k moves in d lead to.
fn offer_after(last: Last, d: Dir, k: u16) -> Offer
    requires column { last.state.cell.x + k < 65536 }
    requires row { last.state.cell.y + k < 65536 }
    requires rank { last.rank + rank_of (chain.run_cost d k) < 2 ^ 63 }
    ensures { result ≡ spec.offer_after last d k }
{
    let cell = Cell {
        x: column_after(d, k, last.state.cell.x),
        y: row_after(d, k, last.state.cell.y),
    };
    Offer {
        rank: last.rank + run_cost(d, k).rank(),
        parent: last.at,
        to: State {
            cell,
            arrival: Some(d),
        },
    }
}

// What is known of the state whose node has this number.
pub(crate) fn last_at(space: &Space, goal: Cell, at: u32) -> Last
    requires known { at < length space.now.table.nodes }
    requires ranked { (n : _) → slice_get space.now.table.nodes at ≡ Some n
        → rank_of (estimate (node_cell n) goal) ≤ n.key }
    ensures { (n : _) → slice_get space.now.table.nodes at ≡ Some n → result ≡ spec.last_at goal at n }
{
    let node = space.node(at);
    let cell = node.place.cell();
    Last {
        at,
        rank: node.cost_rank(goal),
        state: State {
            cell,
            arrival: node.place.arrival(),
        },
    }
}

// Offers the jump in an allowed direction, if it has a stop.
fn offer_jump<const BY_CELL: bool, J: JumpSource, L: Ledger, M: Ledger>(
    j: &J,
    query: Query,
    last: Last,
    d: Dir,
    space: &mut Space,
    steps: &mut Steps<L>,
    own: &mut Steps<M>,
)
    requires some { OnSome (J.StandsFor j.now) query.from query.to }
    requires offering { OnEach (J.StandsFor j.now) query.from query.to
        (λ g. spec.IsOffering (layout_by BY_CELL) g query.from query.to last space.old) }
    requires allowed { OnEach (J.StandsFor j.now) query.from query.to
        (λ g. is_allowed g last.state.cell (come_to last.state.arrival) d ≡ true) }
    requires room { 1 ≤ space.old.spare }
    ensures jumped { OnEach (J.StandsFor j.now) query.from query.to
        (λ g. space.new.table ≡ spec.jumped_in (layout_by BY_CELL) g query.to last d space.old.table) }
    ensures shape { KeepsShape space.old space.new }
    ensures spare { space.old.spare ≤ space.new.spare + 1 }
    ensures most { IsWithin (J.most j.now) (λ known. known.stop) steps.old steps.new }
    ensures fewest { steps.old ≤ steps.new }
{
    if let Some(k) = j.stop(last.state.cell, d, query.to, steps) {
        space.offer::<BY_CELL, M>(query.to, offer_after(last, d, k), own);
    }
}

// Offers the jumps in these directions, given as a constant which states a cell has.
fn offer_all<const BY_CELL: bool, J: JumpSource, L: Ledger, M: Ledger>(
    j: &J,
    query: Query,
    last: Last,
    dirs: Packed,
    space: &mut Space,
    steps: &mut Steps<L>,
    own: &mut Steps<M>,
)
    requires some { OnSome (J.StandsFor j.now) query.from query.to }
    requires offering { OnEach (J.StandsFor j.now) query.from query.to
        (λ g. spec.IsOffering (layout_by BY_CELL) g query.from query.to last space.old) }
    requires allowed { OnEach (J.StandsFor j.now) query.from query.to (λ g. AllByRecursion
        (λ d. is_allowed g last.state.cell (come_to last.state.arrival) d ≡ true) dirs) }
    requires room { length dirs ≤ space.old.spare }
    ensures jumped { OnEach (J.StandsFor j.now) query.from query.to
        (λ g. space.new.table ≡ spec.jumped (layout_by BY_CELL) g query.to last dirs space.old.table) }
    ensures shape { KeepsShape space.old space.new }
    ensures most { IsWithin (J.most j.now) (λ known. length dirs * known.stop) steps.old steps.new }
    ensures fewest { steps.old ≤ steps.new }
{
    let mut left = dirs;
    'jumps: while let Some(s) = left.split() {
        offer_jump::<BY_CELL, J, L, M>(j, query, last, s.first, space, steps, own);
        left = s.others;
    }
}

// Offers the jumps in these directions. Each rule of states has code of its own, and all else of a search is
// there once, so that it is put in where it is asked.
pub(crate) fn offer_jumps<J: JumpSource, L: Ledger, M: Ledger>(
    j: &J,
    query: Query,
    last: Last,
    dirs: Packed,
    space: &mut Space,
    steps: &mut Steps<L>,
    own: &mut Steps<M>,
)
    requires some { OnSome (J.StandsFor j.now) query.from query.to }
    requires offering { OnEach (J.StandsFor j.now) query.from query.to
        (λ g. spec.IsOffering query.layout g query.from query.to last space.old) }
    requires allowed { OnEach (J.StandsFor j.now) query.from query.to (λ g. AllByRecursion
        (λ d. is_allowed g last.state.cell (come_to last.state.arrival) d ≡ true) dirs) }
    requires room { length dirs ≤ space.old.spare }
    ensures jumped { OnEach (J.StandsFor j.now) query.from query.to
        (λ g. space.new.table ≡ spec.jumped query.layout g query.to last dirs space.old.table) }
    ensures shape { KeepsShape space.old space.new }
    ensures most { IsWithin (J.most j.now) (λ known. length dirs * known.stop) steps.old steps.new }
    ensures fewest { steps.old ≤ steps.new }
{
    match query.layout {
        Layout::ByCell => offer_all::<true, J, L, M>(j, query, last, dirs, space, steps, own),
        Layout::ByArrival => offer_all::<false, J, L, M>(j, query, last, dirs, space, steps, own),
    }
}
