//! All waves of a pass.

ghost use Rattle.std.specs.Prelude.{◌≡◌, ◌+◌, ◌*◌, ◌<◌, ◌^◌, ◌==◌, ◌&&◌, [], ℕ, true, length, slice_index_or};
ghost use Rattle.std.specs.Prelude.{OnOk};
ghost use Rattle.grid_moves.specs.Grid.{IsGrid, is_free};
ghost use Rattle.cost_waves.specs.Rank.{far};
ghost use Rattle.cost_waves.specs.Shape.{front_of};
ghost use Rattle.cost_waves.specs.Wave.{rank_at, settled, IsReady, IsMidway, HasReady, IsSwept};

use crate::NoMemory;
use crate::front::{Ahead, Source, spread};
use grid_moves::{Cell, Terrain, number_of};
use root2_cost::STRAIGHT_RANK;
use std::alloc::Global;
use std::mem;

/// The cells of a wave, and those that wait for the next two.
#[derive(Drop)]
pub(crate) struct Lists {
    pub(crate) wave: Vec<Cell>,
    pub(crate) ahead: Ahead,
}

impl Lists {
    /// No cell, and no room yet.
    pub(crate) fn new(alloc: Global) -> Lists {
        Lists {
            wave: Vec::new(alloc),
            ahead: Ahead {
                next: Vec::new(alloc),
                after: Vec::new(alloc),
            },
        }
    }

    // Whether no cell waits.
    fn are_empty(&self) -> bool
        ensures { result ≡ (length self.now.wave.items == 0 && length self.now.ahead.next.items == 0
            && length self.now.ahead.after.items == 0) }
    {
        self.wave.is_empty() && self.ahead.next.is_empty() && self.ahead.after.is_empty()
    }

    // Leaves the wave for the next one.
    fn turn(&mut self)
        ensures wave { self.new.wave.items ≡ self.old.ahead.next.items }
        ensures next { self.new.ahead.next.items ≡ self.old.ahead.after.items }
        ensures after { self.new.ahead.after.items ≡ [] }
    {
        self.wave.clear();
        mem::swap(&mut self.wave, &mut self.ahead.next);
        mem::swap(&mut self.ahead.next, &mut self.ahead.after);
    }

    // Empties all lists.
    fn clear(&mut self)
        ensures wave { self.new.wave.items ≡ [] }
        ensures next { self.new.ahead.next.items ≡ [] }
        ensures after { self.new.ahead.after.items ≡ [] }
    {
        self.wave.clear();
        self.ahead.next.clear();
        self.ahead.after.clear();
    }
}

// Settles a cell of the wave whose ranks begin at `floor`, unless an earlier wave did.
#[inline(always)]
fn settle<T: Terrain>(
    t: &T,
    c: Cell,
    floor: u64,
    ranks: &mut [u64],
    firsts: &mut [u8],
    ahead: &mut Ahead,
) -> Result<(), NoMemory>
    requires free { is_free (T.grid t.now) c ≡ true }
    requires floor { floor < 2 ^ 61 }
    requires rank { rank_at (T.grid t.now) ranks.old c < 2 ^ 63 }
    requires ranked { length ranks.old ≡ (T.grid t.now).height * (T.grid t.now).width }
    requires bytes { length firsts.old ≡ (T.grid t.now).height * (T.grid t.now).width }
    ensures { OnOk result (front_of ranks.new firsts.new ahead.new
        ≡ settled (T.grid t.now) floor c (front_of ranks.old firsts.old ahead.old)) }
{
    let at = number_of(t.width(), c) as usize;
    let rank = ranks[at];
    if rank < floor {
        return Ok(());
    }
    let first = firsts[at];
    let from = Source {
        cell: c,
        rank,
        start: false,
        first,
    };
    spread(t, from, floor + 2 * STRAIGHT_RANK, ranks, firsts, ahead)
}

// Settles the cells of the wave whose ranks begin at `floor`.
fn wave<T: Terrain>(
    t: &T,
    now: &[Cell],
    floor: u64,
    ranks: &mut [u64],
    firsts: &mut [u8],
    ahead: &mut Ahead,
) -> Result<(), NoMemory>
    requires whole { IsGrid (T.grid t.now) }
    requires above { 0 < floor }
    requires below { floor < 2 ^ 61 }
    requires ready { HasReady (T.grid t.now) floor now.now (front_of ranks.old firsts.old ahead.old) }
    ensures { OnOk result ((s : Cell)
        → IsReady (T.grid t.now) s floor now.now (front_of ranks.old firsts.old ahead.old)
        → IsMidway (T.grid t.now) s floor now.now (length now.now)
        (front_of ranks.new firsts.new ahead.new)) }
{
    for c in now {
        settle(t, *c, floor, ranks, firsts, ahead)?;
    }
    Ok(())
}

// Goes through all waves, from the first one after that of the start.
fn sweep<T: Terrain>(
    t: &T,
    ranks: &mut [u64],
    firsts: &mut [u8],
    lists: &mut Lists,
) -> Result<(), NoMemory>
    requires whole { IsGrid (T.grid t.now) }
    requires ready { HasReady (T.grid t.now) 3166815962 lists.old.wave.items
        (front_of ranks.old firsts.old lists.old.ahead) }
    ensures { OnOk result ((s : Cell)
        → IsReady (T.grid t.now) s 3166815962 lists.old.wave.items
        (front_of ranks.old firsts.old lists.old.ahead)
        → IsSwept (T.grid t.now) s ranks.new firsts.new) }
{
    let mut floor = STRAIGHT_RANK;
    while !lists.are_empty() {
        wave(
            t,
            lists.wave.as_slice(),
            floor,
            ranks,
            firsts,
            &mut lists.ahead,
        )?;
        lists.turn();
        floor += STRAIGHT_RANK;
    }
    Ok(())
}

// Settles the start, whose wave it is alone.
fn begin<T: Terrain>(
    t: &T,
    from: Cell,
    ranks: &mut [u64],
    firsts: &mut [u8],
    lists: &mut Lists,
) -> Result<(), NoMemory>
    requires from { is_free (T.grid t.now) from ≡ true }
    requires ranked { length ranks.old ≡ (T.grid t.now).height * (T.grid t.now).width }
    requires bytes { length firsts.old ≡ (T.grid t.now).height * (T.grid t.now).width }
    requires far { (k : ℕ) → slice_index_or ranks.old k far ≡ far }
    requires none { (k : ℕ) → slice_index_or firsts.old k 0 ≡ 0 }
    ensures ready { OnOk result (IsReady (T.grid t.now) from 3166815962 lists.new.wave.items
        (front_of ranks.new firsts.new lists.new.ahead)) }
    ensures whole { IsGrid (T.grid t.now) }
{
    lists.clear();
    let at = number_of(t.width(), from) as usize;
    ranks[at] = 0;
    let source = Source {
        cell: from,
        rank: 0,
        start: true,
        first: 0,
    };
    spread(
        t,
        source,
        2 * STRAIGHT_RANK,
        ranks,
        firsts,
        &mut lists.ahead,
    )?;
    lists.turn();
    Ok(())
}

/// A whole pass from a free cell, over entries that tell nothing.
pub(crate) fn pass_from<T: Terrain>(
    t: &T,
    from: Cell,
    ranks: &mut [u64],
    firsts: &mut [u8],
    lists: &mut Lists,
) -> Result<(), NoMemory>
    requires from { is_free (T.grid t.now) from ≡ true }
    requires ranked { length ranks.old ≡ (T.grid t.now).height * (T.grid t.now).width }
    requires bytes { length firsts.old ≡ (T.grid t.now).height * (T.grid t.now).width }
    requires far { (k : ℕ) → slice_index_or ranks.old k far ≡ far }
    requires none { (k : ℕ) → slice_index_or firsts.old k 0 ≡ 0 }
    ensures swept { OnOk result (IsSwept (T.grid t.now) from ranks.new firsts.new) }
    ensures whole { IsGrid (T.grid t.now) }
{
    begin(t, from, ranks, firsts, lists)?;
    sweep(t, ranks, firsts, lists)
}
