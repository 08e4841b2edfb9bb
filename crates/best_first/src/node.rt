//! Nodes of the search, their order, and offers.
//!
//! The key is one whole number that orders the sums of cost and estimate by their values. Among
//! equal sums the state of the lesser number goes first, which is that of the lesser place. Two nodes
//! are compared as numbers of two words, key and place: a comparison and one with its borrow, with no
//! branch, since which of them goes first is seldom foreseen by the processor.

ghost use Rattle.std.specs.Prelude.{◌≡◌, ◌≤◌, ◌<◌, ◌^◌, ◌*◌, ◌+◌};
ghost use Rattle.best_first.specs.Trace.{node_cell, rank_left};
ghost use Rattle.grid_moves.specs.Points.{estimate};
ghost use Rattle.root2_cost.specs.Rank.{rank_of};
ghost use Rattle.root2_cost.specs.Sums.{octile_cost};
ghost use Rattle.best_first.specs.Node.{ranks_before};
ghost use Rattle.best_first.specs.Ranks.{ranks_order};

use crate::{Place, State};
use grid_moves::Cell;
use open_list::Ranked;
use root2_cost::{DIAGONAL_RANK, STRAIGHT_RANK};

/// A state that the search knows, with the least cost offered so far.
#[derive(Clone, Copy, Debug)]
pub struct Node {
    /// The rank of the sum of cost and estimate.
    pub key: u64,
    /// The number of the node that offers the cost; the start has its own.
    pub parent: u32,
    /// The state.
    pub place: Place,
}

/// A way on from a taken state.
#[derive(Clone, Copy, Debug)]
pub struct Offer {
    /// The rank of what the way costs from the start on.
    pub rank: u64,
    /// The number of the taken state's node.
    pub parent: u32,
    /// Where it leads.
    pub to: State,
}

impl Node {
    /// The rank of the node's cost: its key less the rank of the estimate.
    #[inline(always)]
    pub fn cost_rank(self, goal: Cell) -> u64
        requires { rank_of (estimate (node_cell self) goal) ≤ self.key }
        ensures { result ≡ rank_left goal self }
    {
        self.key - estimate_rank(self.place.cell(), goal)
    }
}

// A number of which the upper word is `high` and the lower one `low`.
#[inline(always)]
fn two_words(high: u64, low: u32) -> u128
    ensures { result ≡ high * 2 ^ 64 + low }
{
    u128::from(high) * (1 << 64) + u128::from(low)
}

impl Ranked for Node {
    ghost before = { λ m n. ranks_before m n };

    #[inline(always)]
    fn before(&self, other: &Node) -> bool {
        let (one, another) = (
            two_words(self.key, self.place.bits),
            two_words(other.key, other.place.bits),
        );
        one < another
    }

    ghost order = { ranks_order };
}

// The rank of what so many columns and rows cost where nothing is in the way. Each move along the longer side
// counts as a straight one, and each along the shorter side makes one of them diagonal: so there is no
// branch, and fewer choices than where straight and diagonal moves are told apart first.
#[inline(always)]
fn octile_rank(dx: u32, dy: u32) -> u64
    requires wide { dx < 65536 }
    requires high { dy < 65536 }
    ensures value { result ≡ rank_of (octile_cost dx dy) }
    ensures small { result < 2 ^ 60 }
{
    u64::from(dx.max(dy)) * STRAIGHT_RANK + u64::from(dx.min(dy)) * (DIAGONAL_RANK - STRAIGHT_RANK)
}

/// The rank of the estimate.
#[inline(always)]
pub(crate) fn estimate_rank(from: Cell, to: Cell) -> u64
    ensures value { result ≡ rank_of (estimate from to) }
    ensures small { result < 2 ^ 60 }
{
    let dx = u32::from(from.x).abs_diff(u32::from(to.x));
    let dy = u32::from(from.y).abs_diff(u32::from(to.y));
    octile_rank(dx, dy)
}
