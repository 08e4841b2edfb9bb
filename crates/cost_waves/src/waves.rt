//! The memory of passes, and what the last of them found.

ghost use Rattle.std.specs.Prelude.{◌≡◌, ◌*◌, ◌<◌, ℕ, true, length, map, slice_index_or, replicate, IfOk};
ghost use Rattle.std.specs.Prelude.{OnOk, OnErr};
ghost use Rattle.grid_moves.specs.Grid.{AreSides, is_free};
ghost use Rattle.cost_waves.specs.Rank.{far};
ghost use Rattle.cost_waves.specs.Rank as spec;
ghost use Rattle.cost_waves.specs.Stored.{Tells, IsBlank, cost_at, begins_with, firsts_at, has_dir};

use crate::NoMemory;
use crate::ranks::{FAR, cost_known, costs_known};
use crate::sweep::{Lists, pass_from};
use grid_moves::{Cell, Dir, Terrain, dir_number, number_of};
use root2_cost::Cost;
use std::alloc::Global;
use std::marker::Model;

/// Whether a byte of directions has this one: the bit of its number, from the lowest, is set.
pub fn has_dir(byte: u8, d: Dir) -> bool
    ensures { result ≡ has_dir byte d }
{
    (byte >> dir_number(d)) & 1 == 1
}

// So many entries that tell no cost.
fn fars(alloc: Global, cells: usize) -> Result<Vec<u64>, NoMemory>
    ensures { IfOk result (λ v. v.items ≡ replicate cells far) }
{
    vec![in alloc; FAR; cells]
}

// So many bytes with no direction.
fn zeros(alloc: Global, cells: usize) -> Result<Vec<u8>, NoMemory>
    ensures { IfOk result (λ v. v.items ≡ replicate cells 0) }
{
    vec![in alloc; 0u8; cells]
}

// Makes all entries tell nothing.
fn forget(ranks: &mut [u64], firsts: &mut [u8])
    ensures far { (k : ℕ) → slice_index_or ranks.new k far ≡ far }
    ensures none { (k : ℕ) → slice_index_or firsts.new k 0 ≡ 0 }
{
    for rank in ranks.iter_mut() {
        *rank = FAR;
    }
    for first in firsts.iter_mut() {
        *first = 0;
    }
}

/// The memory for passes over a map of fixed sides, and what the last pass found: for each cell its least
/// cost from the start of the pass, and the directions with which least walks to it begin.
///
/// It is made once, with nine bytes for each cell, and used again as often as wanted. Contracts see its sides
/// and its entries.
#[derive(Drop)]
pub struct CostWaves {
    width: u16,
    height: u16,
    /// For each cell the rank of its least cost, or `FAR` where no walk leads.
    ranks: Vec<u64>,
    /// For each cell the directions with which least walks begin, by bits.
    firsts: Vec<u8>,
    /// The lists of waves, whose room is kept.
    lists: Lists,
}

impl Model for CostWaves {
    ghost use Rattle.cost_waves.specs.Stored.{WaveData};
    ghost use Rattle.cost_waves.specs.Kept.{IsKept};

    ghost Value = { WaveData };

    ghost view = { λ w. record {
      width = w.width;
      height = w.height;
      ranks = w.ranks.items;
      firsts = w.firsts.items;
    } };

    ghost invariant = { λ w. IsKept w.width w.height w.ranks.items w.firsts.items };
}

impl CostWaves {
    /// The memory for passes over maps of these sides, which tells nothing yet.
    pub fn new(alloc: Global, width: u16, height: u16) -> Result<CostWaves, NoMemory>
        requires { AreSides width height }
        ensures width { IfOk result (λ w. w.width ≡ width) }
        ensures height { IfOk result (λ w. w.height ≡ height) }
        ensures blank { IfOk result IsBlank }
    {
        let cells = height as usize * width as usize;
        Ok(CostWaves {
            width,
            height,
            ranks: fars(alloc, cells)?,
            firsts: zeros(alloc, cells)?,
            lists: Lists::new(alloc),
        })
    }

    /// The number of columns of the maps.
    pub fn width(&self) -> u16
        ensures { result ≡ self.now.width }
    {
        self.width
    }

    /// The number of rows of the maps.
    pub fn height(&self) -> u16
        ensures { result ≡ self.now.height }
    {
        self.height
    }

    /// Finds the least costs from a free cell to all cells of a map of these sides, and the directions with
    /// which least walks begin. What an earlier pass found is forgotten.
    ///
    /// A cell is settled by the wave of its least cost, and reads its neighbours' entries then; all entries
    /// are reset in one run over them. The lists of cells that wait grow as they need, and keep their room.
    /// After want of memory nothing is stored for any cell.
    pub fn pass<T: Terrain>(&mut self, t: &T, from: Cell) -> Result<(), NoMemory>
        requires from { is_free (T.grid t.now) from ≡ true }
        requires width { self.old.width ≡ (T.grid t.now).width }
        requires height { self.old.height ≡ (T.grid t.now).height }
        ensures tells { OnOk result (Tells (T.grid t.now) from self.new) }
        ensures forgotten { OnErr result (IsBlank self.new) }
        ensures width { self.new.width ≡ self.old.width }
        ensures height { self.new.height ≡ self.old.height }
    {
        forget(self.ranks.as_mut_slice(), self.firsts.as_mut_slice());
        let outcome = pass_from(
            t,
            from,
            self.ranks.as_mut_slice(),
            self.firsts.as_mut_slice(),
            &mut self.lists,
        );
        match outcome {
            Ok(()) => Ok(()),
            Err(e) => {
                forget(self.ranks.as_mut_slice(), self.firsts.as_mut_slice());
                Err(e)
            }
        }
    }

    /// The least cost that is stored for a cell, `None` where none is.
    pub fn cost(&self, c: Cell) -> Option<Cost>
        requires column { c.x < self.now.width }
        requires row { c.y < self.now.height }
        ensures { result ≡ cost_at self.now c }
    {
        cost_known(self.ranks[number_of(self.width, c) as usize])
    }

    /// Whether the direction is stored for a cell: a least walk to it begins with a move in this direction.
    pub fn begins(&self, c: Cell, d: Dir) -> bool
        requires column { c.x < self.now.width }
        requires row { c.y < self.now.height }
        ensures { result ≡ begins_with self.now c d }
    {
        has_dir(self.first_dirs(c), d)
    }

    /// All directions that are stored for a cell: the bit of a direction's number, from the lowest, is set
    /// where some least walk begins with it.
    pub fn first_dirs(&self, c: Cell) -> u8
        requires column { c.x < self.now.width }
        requires row { c.y < self.now.height }
        ensures { result ≡ firsts_at self.now c }
    {
        self.firsts[number_of(self.width, c) as usize]
    }

    /// The costs stored for the cells, in the order of their numbers, row by row from the upper left.
    pub fn all_costs(&self, alloc: Global) -> Result<Vec<Option<Cost>>, NoMemory>
        ensures costs { IfOk result (λ costs. costs.items ≡ map spec.cost_known self.now.ranks) }
        ensures whole { IfOk result (λ costs. length costs.items ≡ self.now.height * self.now.width) }
    {
        costs_known(alloc, self.ranks.as_slice())
    }

    /// The directions that are stored for the cells, a byte for each cell in the order of their numbers.
    pub fn all_first_dirs(&self) -> &[u8]
        ensures dirs { result.now ≡ self.now.firsts }
        ensures whole { length result.now ≡ self.now.height * self.now.width }
    {
        self.firsts.as_slice()
    }
}
