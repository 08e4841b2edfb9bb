//! Moves of one heap among the lists of heaps that the links make.

ghost use Rattle.std.specs.Prelude.{◌≡◌, ◌≢◌, ◌<◌, ◌+◌, length, map, slice_get};
ghost use Rattle.open_list.specs.Entry.{next_of, prev_of, adopted, is_open};
ghost use Rattle.open_list.specs.Heaps.{HaveOpen, IsHeap, IsJoined, IsShifted, IsDetached, open_count};

use crate::Ranked;
use crate::entry::{
    Entry, NONE, child_of, next_of, prev_of, relink, set_child_and_next, set_next,
    set_next_and_prev, set_prev,
};
use std::sync::ledger::Ledger;
use steps::Steps;

// Makes the tree of `child` the first below `parent`, whose own tree then stands before `next`.
fn adopt<N>(entries: &mut [Entry<N>], parent: u32, child: u32, next: u32)
    requires parent_in { parent < length entries.old }
    requires child_in { child < length entries.old }
    ensures { entries.new ≡ adopted entries.old parent child next }
{
    let first = child_of(entries, parent);
    set_next_and_prev(entries, child, first, parent);
    set_prev(entries, first, child);
    set_child_and_next(entries, parent, child, next);
}

// Whether the node of `a` is before that of `b`. No other function of this crate asks for the order,
// and this one asks once and counts it: so the steps of a call are its comparisons.
fn is_before<N: Ranked, L: Ledger>(
    entries: &[Entry<N>],
    a: u32,
    b: u32,
    steps: &mut Steps<L>,
) -> bool
    requires a_in { a < length entries.now }
    requires b_in { b < length entries.now }
    ensures compared { (x : _) (y : _) → slice_get entries.now a ≡ Some x → slice_get entries.now b ≡ Some y
        → result ≡ N.before x.node y.node }
    ensures counted { steps.new ≡ steps.old + 1 }
{
    steps.tick();
    entries[a as usize].node.before(&entries[b as usize].node)
}

// Joins the first heap of the list from `b` with the first of the list from `a`, which keeps its
// place in that list.
pub(crate) fn join<N: Ranked + Copy, L: Ledger>(
    entries: &mut [Entry<N>],
    a: u32,
    b: u32,
    steps: &mut Steps<L>,
) -> u32
    requires lists { HaveOpen N.before entries.old b a }
    requires one_in { a < length entries.old }
    requires other_in { b < length entries.old }
    ensures joined { IsJoined N.before entries.old entries.new a b result }
    ensures steps { steps.new ≡ steps.old + 1 }
{
    let next = next_of(entries, a);
    let (winner, loser) = if is_before(entries, b, a, steps) {
        (b, a)
    } else {
        (a, b)
    };
    adopt(entries, winner, loser, next);
    winner
}

// Puts the first heap of the list from `todo` before the list from `done`, and gives the rest.
pub(crate) fn shift<N: Ranked + Copy>(entries: &mut [Entry<N>], todo: u32, done: u32) -> u32
    requires lists { HaveOpen N.before entries.old todo done }
    requires within { todo < length entries.old }
    ensures { IsShifted N.before entries.old entries.new todo done result }
{
    let rest = next_of(entries, todo);
    set_next(entries, todo, done);
    rest
}

// Takes the heap of `id` out of the list of children that it stands in, somewhere below `root`.
pub(crate) fn detach<N: Ranked + Copy>(entries: &mut [Entry<N>], root: u32, id: u32)
    requires heap { IsHeap N.before entries.old root }
    requires is_open { open_count (map is_open entries.old) id ≡ 1 }
    requires below { id ≢ root }
    requires within { id < length entries.old }
    ensures { IsDetached N.before entries.old entries.new root id }
{
    let next = next_of(entries, id);
    let prev = prev_of(entries, id);
    relink(entries, prev, id, next);
    set_prev(entries, next, prev);
    set_next(entries, id, NONE);
}
