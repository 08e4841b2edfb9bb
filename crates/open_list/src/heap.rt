//! The heap of all open nodes: nodes enter it, are lowered in it and leave it.

ghost use Rattle.std.specs.Prelude.{◌≡◌, ◌<◌, ◌≤◌, ◌+◌, length, map, slice_get, slice_set, false};
ghost use Rattle.std.specs.Option.{ForSome};
ghost use Rattle.open_list.specs.Entry.{is_open, nodes_of, KeepsNodes};
ghost use Rattle.open_list.specs.Heaps.{HaveOpen, IsHeap, AreBeside, open_count};

use crate::Ranked;
use crate::entry::{CLOSED, Entry, NONE, child_of, next_of, set_node, set_prev};
use crate::links::{detach, join, shift};
use std::sync::ledger::Ledger;
use steps::Steps;

// Joins the heaps of a list in pairs, and gives the list of the pairs, the last one first.
fn pair_up<N: Ranked + Copy, L: Ledger>(
    entries: &mut [Entry<N>],
    first: u32,
    steps: &mut Steps<L>,
) -> u32
    requires { HaveOpen N.before entries.old first NONE }
    ensures lists { HaveOpen N.before entries.new NONE result }
    ensures kept { KeepsNodes entries.old entries.new }
    ensures steps { steps.old ≤ steps.new }
{
    let mut todo = first;
    let mut done = NONE;
    while todo != NONE {
        let one = todo;
        todo = shift(entries, one, done);
        done = one;
        if todo != NONE {
            let other = todo;
            todo = next_of(entries, other);
            done = join(entries, done, other, steps);
        }
    }
    done
}

// Joins the heaps of a list into one, from the first to the last.
fn merge<N: Ranked + Copy, L: Ledger>(
    entries: &mut [Entry<N>],
    first: u32,
    steps: &mut Steps<L>,
) -> u32
    requires { HaveOpen N.before entries.old NONE first }
    ensures heap { IsHeap N.before entries.new result }
    ensures kept { KeepsNodes entries.old entries.new }
    ensures steps { steps.old ≤ steps.new }
{
    if first == NONE {
        return NONE;
    }
    let mut root = first;
    let mut todo = shift(entries, first, NONE);
    while todo != NONE {
        let other = todo;
        todo = next_of(entries, other);
        root = join(entries, root, other, steps);
    }
    root
}

// Puts the heap of `id` into that of `root`, and gives the root that comes out.
pub(crate) fn insert<N: Ranked + Copy, L: Ledger>(
    entries: &mut [Entry<N>],
    root: u32,
    id: u32,
    steps: &mut Steps<L>,
) -> u32
    requires beside { AreBeside N.before entries.old root id }
    requires within { id < length entries.old }
    ensures heap { IsHeap N.before entries.new result }
    ensures kept { KeepsNodes entries.old entries.new }
    ensures counted { steps.old ≤ steps.new }
    ensures at_most_one { steps.new ≤ steps.old + 1 }
{
    if root == NONE {
        return id;
    }
    join(entries, root, id, steps)
}

// Puts `node` in the place of the node of `id`, which is not before it, and gives the root.
pub(crate) fn lower<N: Ranked + Copy, L: Ledger>(
    entries: &mut [Entry<N>],
    root: u32,
    id: u32,
    node: N,
    steps: &mut Steps<L>,
) -> u32
    requires heap { IsHeap N.before entries.old root }
    requires is_open { open_count (map is_open entries.old) id ≡ 1 }
    requires within { id < length entries.old }
    requires lower { ForSome (slice_get (nodes_of entries.old) id) (λ n. N.before n node ≡ false) }
    ensures heap { IsHeap N.before entries.new result }
    ensures nodes { nodes_of entries.new ≡ slice_set (nodes_of entries.old) id node }
    ensures open_at { map is_open entries.new ≡ map is_open entries.old }
    ensures counted { steps.old ≤ steps.new }
    ensures at_most_one { steps.new ≤ steps.old + 1 }
{
    if id == root {
        set_node(entries, id, node);
        return root;
    }
    detach(entries, root, id);
    set_node(entries, id, node);
    insert(entries, root, id, steps)
}

// Closes the root, and gives the one that comes after it.
pub(crate) fn take_root<N: Ranked + Copy, L: Ledger>(
    entries: &mut [Entry<N>],
    root: u32,
    steps: &mut Steps<L>,
) -> u32
    requires heap { IsHeap N.before entries.old root }
    requires within { root < length entries.old }
    ensures heap { IsHeap N.before entries.new result }
    ensures nodes { nodes_of entries.new ≡ nodes_of entries.old }
    ensures open_at { map is_open entries.new ≡ slice_set (map is_open entries.old) root false }
    ensures counted { steps.old ≤ steps.new }
{
    let children = child_of(entries, root);
    set_prev(entries, root, CLOSED);
    let pairs = pair_up(entries, children, steps);
    merge(entries, pairs, steps)
}
