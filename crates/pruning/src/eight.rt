//! The allowed directions by the cells around, looked up.
//!
//! Eight bits around a cell and its arrival are all that the rule asks for. So 2304 lists answer for every
//! cell under one corner rule, and whoever has the bits looks one up faster than by working it out.

ghost use Rattle.std.specs.Prelude.{◌≡◌, ◌<◌, IfOk};
ghost use Rattle.pruning.specs.Eight as spec;
ghost use Rattle.pruning.specs.Numbered as numbered;

use crate::rule::arrival_of;
use crate::{Arrival, Packed, allowed_on};
use grid_moves::{Corner, NoMemory, Ring, dir_number, is_set};
use std::alloc::Global;
use std::marker::Model;

/// How many numbers eight bits make.
const EIGHTS: usize = 256;

/// How many lists there are: for each direction of arrival and for the start, one for each eight bits.
const LISTS: usize = 2304;

/// The allowed directions by the eight bits around a free cell and the arrival. Contracts see the corner
/// rule.
#[derive(Drop)]
pub struct AllowedTable {
    corner: Corner,
    // Those of one arrival in the order of the bits, and the arrivals by their numbers.
    lists: Vec<Packed>,
}

impl Model for AllowedTable {
    ghost use Rattle.grid_moves.specs.declared.Corner.{Corner};

    ghost Value = { Corner };

    ghost use Rattle.pruning.specs.Numbered.{AreAllowed};

    ghost view = { λ t. t.corner };

    ghost invariant = { λ t. AreAllowed t.corner 2304 t.lists.items };
}

/// The cells around a cell, by eight bits: from the lowest three of the row above, from the west, two of
/// its own row, and three of the row below. A set bit is a free cell.
#[inline(always)]
pub fn ring_of(eight: usize) -> Ring
    ensures { result ≡ spec.ring_of eight }
{
    let bits = eight as u64;
    Ring {
        n: is_set(bits, 1),
        ne: is_set(bits, 2),
        e: is_set(bits, 4),
        se: is_set(bits, 7),
        s: is_set(bits, 6),
        sw: is_set(bits, 5),
        w: is_set(bits, 3),
        nw: is_set(bits, 0),
    }
}

// The number of an arrival: a direction's, or 8 for the start.
#[inline(always)]
fn arrival_number(by: Arrival) -> usize
    ensures number { numbered.arrival_of result ≡ by }
    ensures few { result < 9 }
{
    match by {
        Arrival::Start => 8,
        Arrival::By(d) => dir_number(d) as usize,
    }
}

// All lists under a rule.
fn lists_under(alloc: Global, corner: Corner) -> Result<Vec<Packed>, NoMemory>
    ensures { IfOk result (λ lists. numbered.AreAllowed corner 2304 lists.items) }
{
    let mut lists = Vec::with_capacity(alloc, LISTS)?;
    for place in 0..LISTS {
        let ring = ring_of(place % EIGHTS);
        lists.push(allowed_on(corner, ring, arrival_of(place / EIGHTS)))?;
    }
    Ok(lists)
}

impl AllowedTable {
    ghost use Rattle.pruning.specs.Eight.{ring_of};
    ghost use Rattle.pruning.specs.Ring.{allowed_on};

    /// The table of a corner rule: 9 KB. Its making asks the rule 2304 times.
    pub fn of_rule(alloc: Global, corner: Corner) -> Result<AllowedTable, NoMemory>
        ensures { IfOk result (λ table. table ≡ corner) }
    {
        let lists = lists_under(alloc, corner)?;
        Ok(AllowedTable { corner, lists })
    }

    /// The same table once more, copied and not worked out anew.
    pub fn copied(&self, alloc: Global) -> Result<AllowedTable, NoMemory>
        ensures { IfOk result (λ table. table ≡ self.now) }
    {
        let corner = self.corner;
        let mut lists = Vec::with_capacity(alloc, LISTS)?;
        lists.extend_from_slice(self.lists.as_slice())?;
        Ok(AllowedTable { corner, lists })
    }

    /// The corner rule.
    #[inline(always)]
    pub fn corner(&self) -> Corner
        ensures { result ≡ self.now }
    {
        self.corner
    }

    /// The allowed directions at a free cell, given the eight bits around it, in the order of `ring_of`.
    #[inline(always)]
    pub fn allowed(&self, eight: usize, by: Arrival) -> Packed
        requires eight { eight < 256 }
        ensures { result ≡ allowed_on self.now (ring_of eight) by }
    {
        self.lists[arrival_number(by) * EIGHTS + eight]
    }
}
