//! The pool: the nodes by their numbers, and the heap of those that are open.

ghost use Rattle.std.specs.Prelude.{◌≡◌, ◌↔◌, ◌+◌, ◌^◌, ◌<◌, ◌≤◌, [], ◌∷◌, ◌++◌, length, true, false, IsNone};
ghost use Rattle.std.specs.Prelude.{IfNone, IfSome, OnOk, OnErr, IsOk, Some, slice_get, slice_set};
ghost use Rattle.std.specs.Option.{ForSome};
ghost use Rattle.open_list.specs.OpenList.{IsOpen, HasNoneOpen, IsFirst};

use crate::entry::{CLOSED, Entry, NONE};
use crate::{NoMemory, Ranked, heap};
use std::alloc::Global;
use std::marker::Model;
use std::sync::ledger::Ledger;
use steps::Steps;

/// Nodes that are open or closed, each under a number that stays, and the open ones in their order.
///
/// There are fewer than 2^28 nodes. An entry takes 12 bytes beside its node, and 4 more where the node
/// is aligned by 8 bytes: 32 with a node of 16. Contracts see a pool as the list of its nodes, the list
/// that says of each whether it is open, and the number of nodes that can still be added with no
/// allocation.
#[derive(Drop)]
pub struct Pool<N: Ranked + Copy> {
    entries: Vec<Entry<N>>,
    // The number of the heap's root, or `NONE` where no node is open.
    root: u32,
}

impl<N: Ranked + Copy> Model for Pool<N> {
    ghost use Rattle.std.specs.Prelude.{map, vec_len, vec_capacity};
    ghost use Rattle.open_list.specs.OpenList.{OpenList};

    ghost Value = { OpenList N };

    ghost use Rattle.open_list.specs.Entry.{is_open, nodes_of, spare_of};
    ghost use Rattle.open_list.specs.Heaps.{IsHeap};

    ghost view = { λ p. record {
      nodes = nodes_of p.entries.items;
      open_at = map is_open p.entries.items;
      spare = spare_of (vec_len p.entries) (vec_capacity p.entries);
    } };

    ghost invariant = { λ p. IsHeap N.before p.entries.items p.root };
}

impl<N: Ranked + Copy> Pool<N> {
    /// A pool with no node, which takes no memory until the first `reserve`.
    pub fn new(alloc: Global) -> Pool<N>
        ensures nodes { result.nodes ≡ [] }
        ensures open_at { result.open_at ≡ [] }
    {
        Pool {
            entries: Vec::new(alloc),
            root: NONE,
        }
    }

    /// How many nodes there are, closed ones too.
    pub fn len(&self) -> u32
        ensures value { result ≡ length self.now.nodes }
        ensures small { result < 2 ^ 28 }
        ensures flags { length self.now.open_at ≡ length self.now.nodes }
    {
        self.entries.len() as u32
    }

    /// Makes room for `n` more nodes, so that as many calls of `add` need no memory.
    pub fn reserve(&mut self, n: u32) -> Result<(), NoMemory>
        requires { length self.old.nodes + n < 2 ^ 28 }
        ensures room { OnOk result (n ≤ self.new.spare) }
        ensures not_less { self.old.spare ≤ self.new.spare }
        ensures rest_kept { self.new ≡ record self.old { spare = self.new.spare } }

        // It fails only where there was no room, and then nothing changes.
        ensures succeeds { n ≤ self.old.spare → IsOk result }
        ensures err { OnErr result (self.new ≡ self.old) }
    {
        self.entries.reserve(n as usize)
    }

    /// Opens a new node, and gives its number. The order is asked for at most once.
    pub fn add<L: Ledger>(&mut self, node: N, steps: &mut Steps<L>) -> u32
        requires room { 1 ≤ self.old.spare }
        ensures id { result ≡ length self.old.nodes }
        ensures nodes { self.new.nodes ≡ self.old.nodes ++ node ∷ [] }
        ensures open_at { self.new.open_at ≡ self.old.open_at ++ true ∷ [] }
        ensures spare { self.new.spare + 1 ≡ self.old.spare }
        ensures counted { steps.old ≤ steps.new }
        ensures at_most_one { steps.new ≤ steps.old + 1 }
    {
        let id = self.entries.len() as u32;
        self.entries.push_reserved(Entry {
            node,
            child: NONE,
            next: NONE,
            prev: NONE,
        });
        self.root = heap::insert(self.entries.as_mut_slice(), self.root, id, steps);
        id
    }

    /// Puts `node` in the place of an open node that is not before it. The field calls this
    /// decrease-key. The order is asked for at most once.
    pub fn lower<L: Ledger>(&mut self, id: u32, node: N, steps: &mut Steps<L>)
        requires is_open { IsOpen self.old id }
        requires not_before { ForSome (slice_get self.old.nodes id) (λ n. N.before n node ≡ false) }
        ensures changed { self.new ≡ record self.old { nodes = slice_set self.old.nodes id node } }
        ensures counted { steps.old ≤ steps.new }
        ensures at_most_one { steps.new ≤ steps.old + 1 }
    {
        self.root = heap::lower(self.entries.as_mut_slice(), self.root, id, node, steps);
    }

    /// Closes an open node that no open node is before, and gives its number, or `None` where no
    /// node is open.
    pub fn pop<L: Ledger>(&mut self, steps: &mut Steps<L>) -> Option<u32>
        ensures none { IsNone result ↔ HasNoneOpen self.old }
        ensures first { IfSome result (λ id. IsFirst N.before self.old id) }
        ensures closed { IfSome result (λ id.
            self.new ≡ record self.old { open_at = slice_set self.old.open_at id false }) }
        ensures unchanged { IfNone result (self.new ≡ self.old) }
        ensures counted { steps.old ≤ steps.new }
    {
        let first = self.root;
        if first == NONE {
            return None;
        }
        self.root = heap::take_root(self.entries.as_mut_slice(), first, steps);
        Some(first)
    }

    /// The node of this number, be it open or closed.
    pub fn node(&self, id: u32) -> &N
        requires { id < length self.now.nodes }
        ensures { slice_get self.now.nodes id ≡ Some result.now }
    {
        &self.entries[id as usize].node
    }

    /// Whether the node of this number is open.
    pub fn is_open(&self, id: u32) -> bool
        requires { id < length self.now.nodes }
        ensures { slice_get self.now.open_at id ≡ Some result }
    {
        self.entries[id as usize].prev != CLOSED
    }

    /// Drops all nodes and keeps the memory, for as many new ones.
    pub fn clear(&mut self)
        ensures nodes { self.new.nodes ≡ [] }
        ensures open_at { self.new.open_at ≡ [] }
        ensures spare { self.new.spare ≡ length self.old.nodes + self.old.spare }
    {
        self.entries.clear();
        self.root = NONE;
    }
}
