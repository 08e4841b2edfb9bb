//! The memory of a search: its nodes, and an index from states to nodes.

ghost use Rattle.std.specs.Prelude.{◌≡◌, ℕ, ◌+◌, ◌-◌, ◌*◌, ◌<◌, ◌≤◌, ◌^◌, [], ◌∷◌, length, true, false, Some};
ghost use Rattle.std.specs.Prelude.{None, OnOk, IsOk, IfOk, IfNone, IfSome, vec_len, vec_capacity, slice_get};
ghost use Rattle.best_first.specs.Index.{entry_for, cell_of_node, AreBlank, AreReset, AreLed, IsExact};
ghost use Rattle.best_first.specs.Node.{state_of};
ghost use Rattle.best_first.specs.Space.{SpaceData, IsPlaced, KeepsShape, HasRoomFor, HasRoom, layout_by};
ghost use Rattle.best_first.specs.State.{state_in, state_of_place, place_of};
ghost use Rattle.best_first.specs.Table.{lookup, node_for, added, replaced, is_bettered, offered, begun};
ghost use Rattle.best_first.specs.Table.{closed_at, IsFirstNode, NoneOpen, ClosedBelow};
ghost use Rattle.grid_moves.specs.Grid.{cell_number};

use crate::index::Index;
use crate::node::estimate_rank;
use crate::state::layout_by;
use crate::{Layout, NoMemory, Node, Offer, Place, State};
use grid_moves::{Cell, number_of};
use open_list::Pool;
use std::alloc::Global;
use std::marker::Model;
use std::sync::ledger::Ledger;
use steps::Steps;

/// The nodes of a search, and an index from states to their nodes.
///
/// It is made once for a map of so many cells, and used for one search after the other. Contracts
/// see the nodes of the last search, the width of its map, and for how many offers there is memory at least.
#[derive(Drop)]
pub struct Space {
    pool: Pool<Node>,
    index: Index,
    // The width of the map of the last search, by which the index has its nodes.
    width: u16,
    // How many nodes there can be, each with its record, before memory is asked for: one number to look at
    // before offers, in place of the room of two lists.
    room: u32,
}

impl Model for Space {
    ghost use Rattle.best_first.specs.Space.{SpaceData};

    ghost Value = { SpaceData };

    ghost use Rattle.std.specs.Prelude.{◌-◌, length, vec_capacity};
    ghost use Rattle.best_first.specs.Index.{IsSpace};

    ghost view = { λ s. record {
      layout = s.index.layout;
      places = length s.index.heads.items;
      width = s.width;
      table = record { nodes = s.pool.nodes; open_at = s.pool.open_at };
      spare = s.room - length s.pool.nodes;
    } };

    ghost invariant = { λ s. IsSpace s.index.layout s.width s.room s.pool.spare (vec_capacity s.index.records)
        s.pool.nodes s.index.heads.items s.index.records.items };
}

// The node of an offer.
#[inline(always)]
fn node_for(goal: Cell, offer: Offer) -> Node
    requires column { offer.to.cell.x < 4096 }
    requires fits { offer.rank < 2 ^ 63 }
    ensures { result ≡ node_for goal offer }
{
    Node {
        key: offer.rank + estimate_rank(offer.to.cell, goal),
        parent: offer.parent,
        place: Place::of(offer.to),
    }
}

// Sets the heads of all cells that have a node back to 0, where each head but 0 leads to a node.
fn clear_by_nodes(pool: &Pool<Node>, heads: &mut [u32], width: u16)
    requires led { AreLed (cell_of_node width pool.now.nodes) 0 (length pool.now.nodes) heads.old }
    requires inside { (id : ℕ) (n : _) → slice_get pool.now.nodes id ≡ Some n
        → IsPlaced width (length heads.old) (state_of_place n.place).cell }
    ensures blank { AreBlank heads.new }
    ensures as_many { length heads.new ≡ length heads.old }
{
    for id in 0..pool.len() {
        let cell = number_of(width, pool.node(id).place.cell()) as usize;
        heads[cell] = 0;
    }
}

// Sets heads back where they have to be: only those of cells with a node are looked at.
fn clear_heads(pool: &Pool<Node>, index: &mut Index, width: u16)
    requires exact { IsExact index.old.layout width pool.now.nodes index.old.heads.items
        index.old.records.items }
    ensures reset { AreReset index.old.layout index.new.heads.items }
    ensures as_many { length index.new.heads.items ≡ length index.old.heads.items }
    ensures layout { index.new.layout ≡ index.old.layout }
    ensures records { index.new.records ≡ index.old.records }
{
    match index.layout {
        Layout::ByCell => clear_by_nodes(pool, index.heads.as_mut_slice(), width),
        Layout::ByArrival => (),
    }
}

// Forgets all nodes. The memory stays.
fn forget(pool: &mut Pool<Node>, index: &mut Index, width: u16)
    requires exact { IsExact index.old.layout width pool.old.nodes index.old.heads.items
        index.old.records.items }
    ensures nodes { pool.new.nodes ≡ [] }
    ensures open_at { pool.new.open_at ≡ [] }
    ensures reset { AreReset index.old.layout index.new.heads.items }
    ensures records { index.new.records.items ≡ [] }
    ensures as_many { length index.new.heads.items ≡ length index.old.heads.items }
    ensures layout { index.new.layout ≡ index.old.layout }
    ensures spare { pool.new.spare ≡ length pool.old.nodes + pool.old.spare }
    ensures capacity { vec_capacity index.new.records ≡ vec_capacity index.old.records }
{
    clear_heads(pool, index, width);
    index.records.clear();
    pool.clear();
}

// Makes room for so many records in all, where nodes have them.
fn grow_records(index: &mut Index, n: usize) -> Result<(), NoMemory>
    requires fewer { vec_len index.old.records ≤ n }
    ensures room { OnOk result (HasRoomFor index.old.layout n 0 (vec_capacity index.new.records)) }
    ensures capacity { vec_capacity index.old.records ≤ vec_capacity index.new.records }
    ensures layout { index.new.layout ≡ index.old.layout }
    ensures heads { index.new.heads ≡ index.old.heads }
    ensures records { index.new.records.items ≡ index.old.records.items }
{
    match index.layout {
        Layout::ByCell => Ok(()),
        Layout::ByArrival => index.records.reserve(n - index.records.len()),
    }
}

// Makes room for at least eight nodes more: up to a power of two, so it doubles and is seldom called, and
// to 2^28 - 1 at most. There are at most 150994944 nodes: nine states for each of 2^24 cells.
#[inline(never)]
fn grow(pool: &mut Pool<Node>, index: &mut Index, room: &mut u32) -> Result<(), NoMemory>
    requires few { length pool.old.nodes ≤ 150994944 }
    requires fewer { vec_len index.old.records ≤ length pool.old.nodes }
    requires has { HasRoom index.old.layout room.old (length pool.old.nodes) pool.old.spare
        (vec_capacity index.old.records) }
    ensures has { HasRoom index.new.layout room.new (length pool.new.nodes) pool.new.spare
        (vec_capacity index.new.records) }
    ensures room { OnOk result (length pool.old.nodes + 8 ≤ room.new) }
    ensures rest_kept { pool.new ≡ record pool.old { spare = pool.new.spare } }
    ensures layout { index.new.layout ≡ index.old.layout }
    ensures heads { index.new.heads ≡ index.old.heads }
    ensures records { index.new.records.items ≡ index.old.records.items }
{
    let len = pool.len();
    let wanted = (len + 64).next_power_of_two().min((1 << 28) - 1);
    pool.reserve(wanted - len)?;
    grow_records(index, wanted as usize)?;
    *room = (*room).max(wanted);
    Ok(())
}

// Adds a node, and closes it, as it is the only one.
fn add_first<L: Ledger>(pool: &mut Pool<Node>, node: Node, steps: &mut Steps<L>)
    requires nodes { pool.old.nodes ≡ [] }
    requires open_at { pool.old.open_at ≡ [] }
    requires room { 1 ≤ pool.old.spare }
    ensures nodes { pool.new.nodes ≡ node ∷ [] }
    ensures open_at { pool.new.open_at ≡ false ∷ [] }
    ensures spare { pool.new.spare + 1 ≡ pool.old.spare }
{
    pool.add(node, steps);
    pool.pop(steps);
}

impl Space {
    /// The memory for searches on maps of so many cells: a head for each of them is filled.
    pub fn new(alloc: Global, layout: Layout, cells: usize) -> Result<Space, NoMemory>
        requires { cells ≤ 16777216 }
        ensures layout { IfOk result (λ s. s.layout ≡ layout) }
        ensures places { IfOk result (λ s. s.places ≡ cells) }
    {
        Ok(Space {
            pool: Pool::new(alloc),
            index: Index::new(alloc, layout, cells)?,
            width: 1,
            room: 0,
        })
    }

    /// Begins a search on a map of this width, which has at most as many cells as this space: forgets
    /// the nodes of the last one, and takes the start, whose node has the number 0. Where memory is refused
    /// the space keeps its layout and its places, which is all that a next search asks of it.
    pub fn begin<L: Ledger>(
        &mut self,
        width: u16,
        start: Cell,
        goal: Cell,
        steps: &mut Steps<L>,
    ) -> Result<(), NoMemory>
        requires narrow { width ≤ 4096 }
        requires placed { IsPlaced width self.old.places start }
        ensures begun { OnOk result (self.new.table ≡ begun goal start) }
        ensures width { OnOk result (self.new.width ≡ width) }
        ensures layout { self.new.layout ≡ self.old.layout }
        ensures places { self.new.places ≡ self.old.places }
    {
        forget(&mut self.pool, &mut self.index, self.width);
        self.width = width;
        grow(&mut self.pool, &mut self.index, &mut self.room)?;
        let to = State {
            cell: start,
            arrival: None,
        };
        let offer = Offer {
            rank: 0,
            parent: 0,
            to,
        };
        add_first(&mut self.pool, node_for(goal, offer), steps);
        let layout = self.index.layout;
        self.index.put(layout, number_of(width, start), to, 1);
        Ok(())
    }

    /// Which states a cell has.
    pub fn layout(&self) -> Layout
        ensures { result ≡ self.now.layout }
    {
        self.index.layout
    }

    /// The node of this number.
    #[inline(always)]
    pub fn node(&self, id: u32) -> Node
        requires { id < length self.now.table.nodes }
        ensures { slice_get self.now.table.nodes id ≡ Some result }
    {
        *self.pool.node(id)
    }

    /// Makes room for eight offers, so that they need no memory. It fails only where there was no such room.
    #[inline(always)]
    pub fn reserve(&mut self) -> Result<(), NoMemory>
        ensures room { OnOk result (8 ≤ self.new.spare) }
        ensures shape { KeepsShape self.old self.new }
        ensures table { self.new.table ≡ self.old.table }
        ensures succeeds { 8 ≤ self.old.spare → IsOk result }
    {
        if self.pool.len() + 8 <= self.room {
            return Ok(());
        }
        grow(&mut self.pool, &mut self.index, &mut self.room)
    }

    // 0 where a state has no node, or the number of its node and one; given the number of its cell.
    #[inline(always)]
    fn find<const BY_CELL: bool>(&self, number: u32, state: State) -> u32
        requires layout { layout_by BY_CELL ≡ self.now.layout }
        requires narrow { self.now.width ≤ 4096 }
        requires placed { IsPlaced self.now.width self.now.places state.cell }
        requires number { number ≡ cell_number self.now.width state.cell }
        ensures { result ≡ entry_for (lookup self.now.layout self.now.table.nodes
            (state_in self.now.layout state)) }
    {
        self.index.entry(layout_by(BY_CELL), number, state)
    }

    // Adds a node for a state that has none, given the number of the state's cell.
    #[inline(always)]
    fn add<const BY_CELL: bool, L: Ledger>(
        &mut self,
        number: u32,
        state: State,
        node: Node,
        steps: &mut Steps<L>,
    )
        requires layout { layout_by BY_CELL ≡ self.old.layout }
        requires narrow { self.old.width ≤ 4096 }
        requires placed { IsPlaced self.old.width self.old.places state.cell }
        requires number { number ≡ cell_number self.old.width state.cell }
        requires made { node.place ≡ place_of state }
        requires new { lookup self.old.layout self.old.table.nodes (state_in self.old.layout state) ≡ None }
        requires room { 1 ≤ self.old.spare }
        ensures table { self.new.table ≡ added node self.old.table }
        ensures shape { KeepsShape self.old self.new }
        ensures spare { self.old.spare ≤ self.new.spare + 1 }
    {
        let id = self.pool.add(node, steps);
        self.index.put(layout_by(BY_CELL), number, state, id + 1);
    }

    // The same, given the parts of the node: a node would be handed over in memory, these are in registers.
    // The number of the cell, which was found before, is not made again, and the place tells the state.
    #[inline(never)]
    fn add_parts<const BY_CELL: bool, L: Ledger>(
        &mut self,
        number: u32,
        place: Place,
        key: u64,
        parent: u32,
        steps: &mut Steps<L>,
    )
        requires layout { layout_by BY_CELL ≡ self.old.layout }
        requires narrow { self.old.width ≤ 4096 }
        requires placed { IsPlaced self.old.width self.old.places (state_of_place place).cell }
        requires number { number ≡ cell_number self.old.width (state_of_place place).cell }
        requires made { place ≡ place_of (state_of_place place) }
        requires new { lookup self.old.layout self.old.table.nodes
            (state_in self.old.layout (state_of_place place)) ≡ None }
        requires room { 1 ≤ self.old.spare }
        ensures table { self.new.table ≡ added (record { key = key; parent = parent; place = place })
            self.old.table }
        ensures shape { KeepsShape self.old self.new }
        ensures spare { self.old.spare ≤ self.new.spare + 1 }
    {
        let state = State {
            cell: place.cell(),
            arrival: place.arrival(),
        };
        self.add::<BY_CELL, L>(number, state, Node { key, parent, place }, steps);
    }

    // Puts a node of a lesser key in the place of an open one of the same state.
    #[inline(always)]
    fn lower<L: Ledger>(&mut self, id: u32, node: Node, steps: &mut Steps<L>)
        requires is_open { slice_get self.old.table.open_at id ≡ Some true }
        requires less { is_bettered self.old.table.nodes id node.key ≡ true }
        requires same { (old : _) → slice_get self.old.table.nodes id ≡ Some old
            → state_of self.old.layout old ≡ state_of self.old.layout node }
        ensures table { self.new.table ≡ replaced id node self.old.table }
        ensures shape { KeepsShape self.old self.new }
        ensures spare { self.new.spare ≡ self.old.spare }
    {
        self.pool.lower(id, node, steps);
    }

    // The same, given the parts of the node.
    #[inline(never)]
    fn lower_parts<L: Ledger>(
        &mut self,
        id: u32,
        key: u64,
        parent: u32,
        place: Place,
        steps: &mut Steps<L>,
    )
        requires is_open { slice_get self.old.table.open_at id ≡ Some true }
        requires less { is_bettered self.old.table.nodes id key ≡ true }
        requires same { (old : _) → slice_get self.old.table.nodes id ≡ Some old
            → state_of self.old.layout old
            ≡ state_of self.old.layout (record { key = key; parent = parent; place = place }) }
        ensures table { self.new.table
            ≡ replaced id (record { key = key; parent = parent; place = place }) self.old.table }
        ensures shape { KeepsShape self.old self.new }
        ensures spare { self.new.spare ≡ self.old.spare }
    {
        self.lower(id, Node { key, parent, place }, steps);
    }

    /// Offers a way on from a taken state: its node is added where the state has none, and takes the
    /// place of the state's node where that one has a greater key. The layout is given as a constant, so
    /// that there is no look at it.
    ///
    /// No closed node may have a greater key than the offer. As the estimate is consistent, none has
    /// where the offer is one of the state that was taken last.
    #[inline(always)]
    pub fn offer<const BY_CELL: bool, L: Ledger>(
        &mut self,
        goal: Cell,
        offer: Offer,
        steps: &mut Steps<L>,
    )
        requires layout { layout_by BY_CELL ≡ self.old.layout }
        requires narrow { self.old.width ≤ 4096 }
        requires placed { IsPlaced self.old.width self.old.places offer.to.cell }
        requires fits { offer.rank < 2 ^ 63 }
        requires closed { ClosedBelow (node_for goal offer).key self.old.table }
        requires room { 1 ≤ self.old.spare }
        ensures table { self.new.table ≡ offered self.old.layout goal offer self.old.table }
        ensures shape { KeepsShape self.old self.new }
        ensures spare { self.old.spare ≤ self.new.spare + 1 }
    {
        let node = node_for(goal, offer);
        let number = number_of(self.width, offer.to.cell);
        let entry = self.find::<BY_CELL>(number, offer.to);
        if entry == 0 {
            self.add_parts::<BY_CELL, L>(number, node.place, node.key, node.parent, steps);
        } else if node.key < self.pool.node(entry - 1).key {
            self.lower_parts(entry - 1, node.key, node.parent, node.place, steps);
        }
    }

    /// The same where each cell has one state.
    #[inline(always)]
    pub fn offer_by_cell<L: Ledger>(&mut self, goal: Cell, offer: Offer, steps: &mut Steps<L>)
        requires layout { self.old.layout ≡ Layout.ByCell }
        requires narrow { self.old.width ≤ 4096 }
        requires placed { IsPlaced self.old.width self.old.places offer.to.cell }
        requires fits { offer.rank < 2 ^ 63 }
        requires closed { ClosedBelow (node_for goal offer).key self.old.table }
        requires room { 1 ≤ self.old.spare }
        ensures table { self.new.table ≡ offered self.old.layout goal offer self.old.table }
        ensures shape { KeepsShape self.old self.new }
        ensures spare { self.old.spare ≤ self.new.spare + 1 }
    {
        self.offer::<true, L>(goal, offer, steps);
    }

    /// Takes the open node that ranks first, and gives its number, or `None` where none is open.
    pub fn take_next<L: Ledger>(&mut self, steps: &mut Steps<L>) -> Option<u32>
        ensures none { IfNone result (NoneOpen self.old.table) }
        ensures first { IfSome result (λ id. IsFirstNode self.old.table id) }
        ensures closed { IfSome result (λ id. self.new.table ≡ closed_at id self.old.table) }
        ensures unchanged { IfNone result (self.new.table ≡ self.old.table) }
        ensures nodes { self.new.table.nodes ≡ self.old.table.nodes }
        ensures shape { KeepsShape self.old self.new }
    {
        self.pool.pop(steps)
    }
}
