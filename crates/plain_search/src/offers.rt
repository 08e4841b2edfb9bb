//! The offers of a taken state.

ghost use Rattle.std.specs.Prelude.{◌≡◌, ◌+◌, ◌<◌, ◌≤◌, ◌^◌, true, length, slice_get, Some, if◌then◌else◌};
ghost use Rattle.best_first.specs.Space.{IsPlaced, KeepsShape};
ghost use Rattle.best_first.specs.State.{state_of_place};
ghost use Rattle.best_first.specs.Table.{node_for, offered, ClosedBelow};
ghost use Rattle.grid_moves.specs.Grid.{IsGrid};
ghost use Rattle.grid_moves.specs.Move.{all_dirs, dir_cost, dir_of_number};
ghost use Rattle.plain_search.specs.Offers.{offer_to, all_offered, MayOffer, MayExpand, HasExpanded};

use crate::moves::{Behind, less_offered};
use best_first::{Layout, Node, Offer, Space, State};
use grid_moves::{Around, Cell, Dir, Terrain, dir_of_number, moves_around};
use root2_cost::Cost;
use std::sync::ledger::Ledger;
use steps::Steps;

// The taken state that offers: its node's number and key, the rank of its cost, and the goal.
#[derive(Clone, Copy)]
struct Source {
    id: u32,
    key: u64,
    rank: u64,
    goal: Cell,
}

// What a move in a direction costs.
#[inline(always)]
fn cost_to(d: Dir) -> Cost
    ensures { result ≡ dir_cost d }
{
    match d {
        Dir::N | Dir::E | Dir::S | Dir::W => Cost { a: 1, b: 0 },
        Dir::NE | Dir::SE | Dir::SW | Dir::NW => Cost { a: 0, b: 1 },
    }
}

/// The offer of the move in direction `d` to the cell `to`, from the node of number `id`, whose cost has the
/// rank `rank`. Nothing checks that `to` is the cell ahead.
#[inline(always)]
pub fn offer_to(id: u32, rank: u64, to: Cell, d: Dir) -> Offer
    requires { rank < 2 ^ 62 }
    ensures value { result ≡ offer_to id rank to d }
    ensures fits { result.rank < 2 ^ 63 }
{
    Offer {
        rank: rank + cost_to(d).rank(),
        parent: id,
        to: State {
            cell: to,
            arrival: Some(d),
        },
    }
}

// Offers a move, if it is open.
#[inline(always)]
fn offer_over<L: Ledger>(
    space: &mut Space,
    from: Source,
    is_open: bool,
    to: Cell,
    d: Dir,
    steps: &mut Steps<L>,
)
    requires layout { space.old.layout ≡ Layout.ByCell }
    requires narrow { space.old.width ≤ 4096 }
    requires short { from.rank < 2 ^ 62 }
    requires may { is_open ≡ true → IsPlaced space.old.width space.old.places to
        × (from.key ≤ (node_for from.goal (offer_to from.id from.rank to d)).key) }
    requires closed { ClosedBelow from.key space.old.table }
    requires room { 1 ≤ space.old.spare }
    ensures table { space.new.table ≡ (if is_open
        then offered Layout.ByCell from.goal (offer_to from.id from.rank to d) space.old.table
        else space.old.table) }
    ensures shape { KeepsShape space.old space.new }
    ensures closed { ClosedBelow from.key space.new.table }
    ensures spare { space.old.spare ≤ space.new.spare + 1 }
{
    if is_open {
        space.offer_by_cell(from.goal, offer_to(from.id, from.rank, to, d), steps);
    }
}

// Offers the open moves from a cell, in increasing order of direction.
#[inline(always)]
fn offer_around<L: Ledger>(
    space: &mut Space,
    from: Source,
    c: Cell,
    a: Around,
    steps: &mut Steps<L>,
)
    requires layout { space.old.layout ≡ Layout.ByCell }
    requires narrow { space.old.width ≤ 4096 }
    requires short { from.rank < 2 ^ 62 }
    requires may { MayOffer from.goal from.id from.key from.rank a c space.old }
    requires closed { ClosedBelow from.key space.old.table }
    requires room { 8 ≤ space.old.spare }
    ensures table { space.new.table ≡ all_offered from.goal from.id from.rank a c all_dirs space.old.table }
    ensures shape { KeepsShape space.old space.new }
{
    let Cell { x, y } = c;
    let Around {
        left,
        right,
        up,
        down,
        ..
    } = a;
    offer_over(space, from, a.n, Cell { x, y: up }, Dir::N, steps);
    offer_over(space, from, a.ne, Cell { x: right, y: up }, Dir::NE, steps);
    offer_over(space, from, a.e, Cell { x: right, y }, Dir::E, steps);
    offer_over(
        space,
        from,
        a.se,
        Cell { x: right, y: down },
        Dir::SE,
        steps,
    );
    offer_over(space, from, a.s, Cell { x, y: down }, Dir::S, steps);
    offer_over(space, from, a.sw, Cell { x: left, y: down }, Dir::SW, steps);
    offer_over(space, from, a.w, Cell { x: left, y }, Dir::W, steps);
    offer_over(space, from, a.nw, Cell { x: left, y: up }, Dir::NW, steps);
}

// Makes the offers of a node, given how its state was come to: that is a constant, so the sides on which
// the parent lies are too.
fn offer_after<const BY: usize, T: Terrain, L: Ledger>(
    t: &T,
    goal: Cell,
    at: u32,
    node: Node,
    space: &mut Space,
    steps: &mut Steps<L>,
)
    requires whole { IsGrid (T.grid t.now) }
    requires node { slice_get space.old.table.nodes at ≡ Some node }
    requires layout { space.old.layout ≡ Layout.ByCell }
    requires narrow { space.old.width ≤ 4096 }
    requires room { 8 ≤ space.old.spare }
    requires may { MayExpand (T.grid t.now) goal at node space.old }
    requires arrival { dir_of_number BY ≡ (state_of_place node.place).arrival }
    ensures expanded { HasExpanded (T.grid t.now) goal at node space.old.table space.new.table }
    ensures shape { KeepsShape space.old space.new }
{
    let cell = node.place.cell();
    let around = moves_around(t, cell);
    let moves = less_offered(around, Behind::of(dir_of_number(BY)));
    let from = Source {
        id: at,
        key: node.key,
        rank: node.cost_rank(goal),
        goal,
    };
    offer_around(space, from, cell, moves, steps);
}

// Makes the offers of a node: each arrival has code of its own.
#[inline(always)]
fn offer_from<T: Terrain, L: Ledger>(
    t: &T,
    goal: Cell,
    at: u32,
    node: Node,
    space: &mut Space,
    steps: &mut Steps<L>,
)
    requires whole { IsGrid (T.grid t.now) }
    requires node { slice_get space.old.table.nodes at ≡ Some node }
    requires layout { space.old.layout ≡ Layout.ByCell }
    requires narrow { space.old.width ≤ 4096 }
    requires room { 8 ≤ space.old.spare }
    requires may { MayExpand (T.grid t.now) goal at node space.old }
    ensures expanded { HasExpanded (T.grid t.now) goal at node space.old.table space.new.table }
    ensures shape { KeepsShape space.old space.new }
{
    match node.place.arrival() {
        Some(Dir::N) => offer_after::<0, T, L>(t, goal, at, node, space, steps),
        Some(Dir::NE) => offer_after::<1, T, L>(t, goal, at, node, space, steps),
        Some(Dir::E) => offer_after::<2, T, L>(t, goal, at, node, space, steps),
        Some(Dir::SE) => offer_after::<3, T, L>(t, goal, at, node, space, steps),
        Some(Dir::S) => offer_after::<4, T, L>(t, goal, at, node, space, steps),
        Some(Dir::SW) => offer_after::<5, T, L>(t, goal, at, node, space, steps),
        Some(Dir::W) => offer_after::<6, T, L>(t, goal, at, node, space, steps),
        Some(Dir::NW) => offer_after::<7, T, L>(t, goal, at, node, space, steps),
        None => offer_after::<8, T, L>(t, goal, at, node, space, steps),
    }
}

/// Offers the legal moves from the node of that number, in increasing order of direction, but for
/// those that its parent has offered at no greater cost. There is room for them.
#[inline(never)]
pub(crate) fn offer_all<T: Terrain, L: Ledger>(
    t: &T,
    goal: Cell,
    at: u32,
    space: &mut Space,
    steps: &mut Steps<L>,
)
    requires whole { IsGrid (T.grid t.now) }
    requires known { at < length space.old.table.nodes }
    requires layout { space.old.layout ≡ Layout.ByCell }
    requires narrow { space.old.width ≤ 4096 }
    requires room { 8 ≤ space.old.spare }
    requires may { (n : _) → slice_get space.old.table.nodes at ≡ Some n
        → MayExpand (T.grid t.now) goal at n space.old }
    ensures expanded { (n : _) → slice_get space.old.table.nodes at ≡ Some n
        → HasExpanded (T.grid t.now) goal at n space.old.table space.new.table }
    ensures shape { KeepsShape space.old space.new }
{
    let node = space.node(at);
    offer_from(t, goal, at, node, space, steps);
}
