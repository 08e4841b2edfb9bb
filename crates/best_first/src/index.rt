//! The index of a search: where the node of a state is found.
//!
//! An entry is 0, or the number of a node and one. Where a cell has one state, the cell's head is the
//! entry of its node. Where it has one for each arrival, each node has a record beside it: its own state, and
//! the entry of the node of its cell that came before it, or 0. The head is the entry of its latest node.
//! In a new search these heads may be any numbers, as a head counts only where it leads to a record of its
//! cell, so none is set back. Briggs and Torczon, "An efficient representation for sparse sets", ACM Letters
//! on Programming Languages and Systems 2, 1993;
//! there the heads of a new set are memory that was not written.

ghost use Rattle.std.specs.Prelude.{◌≡◌, suc, [], ◌<◌, ◌≤◌, ◌+◌, ◌-◌, ◌*◌, ◌/◌, length, IfOk, vec_len};
ghost use Rattle.std.specs.Prelude.{vec_capacity};
ghost use Rattle.best_first.specs.Index.{entry_in, entry_of, tag_of, latest_of, records_for, AreLinked};
ghost use Rattle.best_first.specs.Index.{IsHead, AreRecords, AreHeads, AreBlank, IsPut};
ghost use Rattle.best_first.specs.Space.{HasRoomFor};
ghost use Rattle.best_first.specs.State.{state_in, arrival_number};

use crate::state::number_of_arrival;
use crate::{Layout, NoMemory, State};
use std::alloc::Global;

// A node in the index: its cell and its arrival, by their numbers, as `tag_of` has them, and the entry of the
// node of its cell that came before it, or 0.
#[derive(Clone, Copy)]
pub(crate) struct Record {
    pub(crate) tag: u32,
    pub(crate) earlier: u32,
}

#[derive(Drop)]
pub(crate) struct Index {
    pub(crate) layout: Layout,
    pub(crate) heads: Vec<u32>,
    pub(crate) records: Vec<Record>,
}

// So many heads, all 0.
fn blank_heads(alloc: Global, cells: usize) -> Result<Vec<u32>, NoMemory>
    ensures blank { IfOk result (λ heads. AreBlank heads.items) }
    ensures as_many { IfOk result (λ heads. length heads.items ≡ cells) }
{
    vec![in alloc; 0u32; cells]
}

// A cell and an arrival, by their numbers, in one number.
#[inline(always)]
fn tag_of(cell: u32, arrival: u8) -> u32
    requires cell { cell < 16777216 }
    requires small { arrival < 9 }
    ensures { result ≡ tag_of cell arrival }
{
    cell * 16 + u32::from(arrival)
}

// The entry for a tag: the records of a cell are looked at from its head on, the latest first. A head that is
// left from an earlier search leads to none, or to those of another cell, which have other tags. Either way
// they are nine at most, as a cell has nine states.
#[inline(always)]
fn entry_of(head: u32, records: &[Record], tag: u32) -> u32
    requires linked { AreLinked records.now }
    requires head { IsHead records.now (tag / 16) head }
    ensures { result ≡ entry_of records.now tag }
{
    if head as usize > records.len() {
        return 0;
    }
    let mut at = head;
    while at != 0 {
        let record = records[at as usize - 1];
        if record.tag == tag {
            return at;
        }
        at = record.earlier;
    }
    0
}

// A head where it leads to a record of the cell, and else 0, as it may be left from an earlier search.
#[inline(always)]
fn latest_of(head: u32, records: &[Record], cell: u32) -> u32
    ensures { result ≡ latest_of head records.now cell }
{
    if head == 0 || head as usize > records.len() {
        return 0;
    }
    if records[head as usize - 1].tag / 16 == cell {
        head
    } else {
        0
    }
}

// Adds the record of a new node: the latest of its cell.
#[inline(always)]
fn take_record(heads: &mut [u32], cell: u32, records: &mut Vec<Record>, arrival: u8, entry: u32)
    requires records { AreRecords heads.old records.old.items }
    requires within { cell < length heads.old }
    requires few { length heads.old ≤ 16777216 }
    requires room { vec_len records.old < vec_capacity records.old }
    requires small { arrival < 9 }
    requires next { entry ≡ suc (length records.old.items) }
    ensures put { IsPut Layout.ByArrival heads.old heads.new records.old.items records.new.items cell arrival
        entry }
    ensures each { length records.new.items ≡ entry }
    ensures capacity { vec_capacity records.new ≡ vec_capacity records.old }
{
    let earlier = latest_of(heads[cell as usize], records.as_slice(), cell);
    records.push_reserved(Record {
        tag: tag_of(cell, arrival),
        earlier,
    });
    heads[cell as usize] = entry;
}

impl Index {
    /// An index of so many cells, which leads nowhere.
    pub(crate) fn new(alloc: Global, layout: Layout, cells: usize) -> Result<Index, NoMemory>
        ensures layout { IfOk result (λ i. i.layout ≡ layout) }
        ensures blank { IfOk result (λ i. AreBlank i.heads.items) }
        ensures as_many { IfOk result (λ i. length i.heads.items ≡ cells) }
        ensures records { IfOk result (λ i. i.records.items ≡ []) }
    {
        Ok(Index {
            layout,
            heads: blank_heads(alloc, cells)?,
            records: Vec::new(alloc),
        })
    }

    /// The entry for a state, given its cell's number: 0, or the number of its node and one. The layout
    /// is an argument too: where it is a constant, there is no look at it.
    #[inline(always)]
    pub(crate) fn entry(&self, layout: Layout, cell: u32, state: State) -> u32
        requires layout { layout ≡ self.now.layout }
        requires heads { AreHeads self.now.layout self.now.heads.items self.now.records.items }
        requires within { cell < length self.now.heads.items }
        requires few { length self.now.heads.items ≤ 16777216 }
        ensures { result ≡ entry_in self.now.layout self.now.heads.items self.now.records.items cell
            (arrival_number (state_in self.now.layout state).arrival) }
    {
        let head = self.heads[cell as usize];
        match layout {
            Layout::ByCell => head,
            Layout::ByArrival => {
                let tag = tag_of(cell, number_of_arrival(state.arrival));
                entry_of(head, self.records.as_slice(), tag)
            }
        }
    }

    /// Sets the entry for the state of a new node, given the layout and its cell's number.
    #[inline(always)]
    pub(crate) fn put(&mut self, layout: Layout, cell: u32, state: State, entry: u32)
        requires layout { layout ≡ self.old.layout }
        requires heads { AreHeads self.old.layout self.old.heads.items self.old.records.items }
        requires within { cell < length self.old.heads.items }
        requires few { length self.old.heads.items ≤ 16777216 }
        requires room { HasRoomFor self.old.layout 1 (vec_len self.old.records)
            (vec_capacity self.old.records) }
        requires some { 1 ≤ entry }
        requires next { length self.old.records.items ≡ records_for self.old.layout (entry - 1) }
        ensures put { IsPut self.old.layout self.old.heads.items self.new.heads.items self.old.records.items
            self.new.records.items cell (arrival_number (state_in self.old.layout state).arrival) entry }
        ensures layout { self.new.layout ≡ self.old.layout }
        ensures each { length self.new.records.items ≡ records_for self.old.layout entry }
        ensures capacity { vec_capacity self.new.records ≡ vec_capacity self.old.records }
    {
        match layout {
            Layout::ByCell => self.heads[cell as usize] = entry,
            Layout::ByArrival => {
                let arrival = number_of_arrival(state.arrival);
                take_record(
                    self.heads.as_mut_slice(),
                    cell,
                    &mut self.records,
                    arrival,
                    entry,
                );
            }
        }
    }
}
