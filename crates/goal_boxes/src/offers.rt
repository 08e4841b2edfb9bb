//! The offers of a taken state: its legal moves whose boxes hold the goal.

ghost use Rattle.std.specs.Prelude.{◌≡◌, ◌+◌, ◌<◌, ◌≤◌, ◌^◌, length, slice_get, Some};
ghost use Rattle.best_first.specs.Space.{IsPlaced, KeepsShape};
ghost use Rattle.best_first.specs.Table.{node_for, ClosedBelow};
ghost use Rattle.best_first.specs.Trace.{node_cell};
ghost use Rattle.plain_search.specs.Offers.{offer_to};
ghost use Rattle.goal_boxes.specs.Box.{box_in};
ghost use Rattle.goal_boxes.specs.Offers.{Agree, toward, offered_over, all_offered, MayOffer, MayExpand};
ghost use Rattle.goal_boxes.specs.Offers.{HasExpanded};
ghost use Rattle.goal_boxes.specs.Rule.{is_toward};

use crate::around::CellBoxes;
use crate::source::Meant;
use best_first::{Layout, Space};
use grid_moves::{ALL_DIRS, Cell, Dir, Terrain, step};
use plain_search::offer_to;
use std::sync::ledger::Ledger;
use steps::Steps;

// The taken state that offers: its node's number and key, the rank of its cost, its cell, and the goal.
#[derive(Clone, Copy)]
struct Source {
    id: u32,
    key: u64,
    rank: u64,
    cell: Cell,
    goal: Cell,
}

// Whether the box in a direction holds the goal.
#[inline(always)]
fn is_toward(boxes: CellBoxes, d: Dir, goal: Cell) -> bool
    ensures { result ≡ is_toward goal (box_in boxes d) }
{
    match boxes.toward(d) {
        Some(area) => area.holds(goal),
        None => false,
    }
}

// Where the move in a direction leads, if it is legal and its box holds the goal.
#[inline(always)]
fn toward<K: Meant, T: Terrain>(
    t: &T,
    boxes: CellBoxes,
    c: Cell,
    d: Dir,
    goal: Cell,
) -> Option<Cell>
    requires { box_in boxes d ≡ K.boxes c d }
    ensures { result ≡ toward (T.grid t.now) K.boxes goal c d }
{
    if is_toward(boxes, d, goal) {
        step(t, c, d)
    } else {
        None
    }
}

// Offers a move, if there is one.
#[inline(always)]
fn offer_over<L: Ledger>(
    space: &mut Space,
    from: Source,
    to: Option<Cell>,
    d: Dir,
    steps: &mut Steps<L>,
)
    requires layout { space.old.layout ≡ Layout.ByCell }
    requires narrow { space.old.width ≤ 4096 }
    requires short { from.rank < 2 ^ 62 }
    requires may { (v : _) → to ≡ Some v → IsPlaced space.old.width space.old.places v
        × (from.key ≤ (node_for from.goal (offer_to from.id from.rank v d)).key) }
    requires closed { ClosedBelow from.key space.old.table }
    requires room { 1 ≤ space.old.spare }
    ensures table { space.new.table ≡ offered_over from.goal from.id from.rank d to space.old.table }
    ensures shape { KeepsShape space.old space.new }
    ensures closed { ClosedBelow from.key space.new.table }
    ensures spare { space.old.spare ≤ space.new.spare + 1 }
{
    if let Some(v) = to {
        space.offer_by_cell(from.goal, offer_to(from.id, from.rank, v, d), steps);
    }
}

// Makes the offers in these directions, in their order.
fn offer_in<K: Meant, T: Terrain, L: Ledger>(
    t: &T,
    boxes: CellBoxes,
    from: Source,
    dirs: &[Dir],
    space: &mut Space,
    steps: &mut Steps<L>,
)
    requires boxes { Agree boxes K.boxes from.cell }
    requires layout { space.old.layout ≡ Layout.ByCell }
    requires narrow { space.old.width ≤ 4096 }
    requires short { from.rank < 2 ^ 62 }
    requires may { MayOffer (T.grid t.now) K.boxes from.goal from.id from.key from.rank from.cell space.old }
    requires closed { ClosedBelow from.key space.old.table }
    requires room { length dirs.now ≤ space.old.spare }
    ensures table { space.new.table
        ≡ all_offered (T.grid t.now) K.boxes from.goal from.id from.rank from.cell dirs.now space.old.table }
    ensures shape { KeepsShape space.old space.new }
{
    for d in dirs {
        let to = toward::<K, T>(t, boxes, from.cell, *d, from.goal);
        offer_over(space, from, to, *d, steps);
    }
}

/// Offers the legal moves from the node of that number whose boxes hold the goal, in increasing order of
/// direction. There is room for them.
pub(crate) fn offer_all<K: Meant, T: Terrain, L: Ledger>(
    t: &T,
    boxes: CellBoxes,
    goal: Cell,
    at: u32,
    space: &mut Space,
    steps: &mut Steps<L>,
)
    requires boxes { (n : _) → slice_get space.old.table.nodes at ≡ Some n
        → Agree boxes K.boxes (node_cell n) }
    requires known { at < length space.old.table.nodes }
    requires layout { space.old.layout ≡ Layout.ByCell }
    requires narrow { space.old.width ≤ 4096 }
    requires room { 8 ≤ space.old.spare }
    requires may { (n : _) → slice_get space.old.table.nodes at ≡ Some n
        → MayExpand (T.grid t.now) K.boxes goal at n space.old }
    ensures expanded { (n : _) → slice_get space.old.table.nodes at ≡ Some n
        → HasExpanded (T.grid t.now) K.boxes goal at n space.old.table space.new.table }
    ensures shape { KeepsShape space.old space.new }
{
    let node = space.node(at);
    let from = Source {
        id: at,
        key: node.key,
        rank: node.cost_rank(goal),
        cell: node.place.cell(),
        goal,
    };
    offer_in::<K, T, L>(t, boxes, from, &ALL_DIRS, space, steps);
}
