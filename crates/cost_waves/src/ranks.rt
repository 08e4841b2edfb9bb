//! Ranks of costs, and what they tell.

ghost use Rattle.std.specs.Prelude.{◌≡◌, map, IfOk};
ghost use Rattle.cost_waves.specs.Rank as spec;

use crate::NoMemory;
use root2_cost::Cost;
use std::alloc::Global;

/// What stands for a cell to which no walk is known: more than any rank that a pass meets.
pub(crate) const FAR: u64 = 18_446_744_073_709_551_615;

/// Ranks that passes meet are below this, 2^62.
const RANK_LIMIT: u64 = 4_611_686_018_427_387_904;

/// The cost that an entry tells, if it tells one.
#[tactic(auto, unfolding(root2_cost::specs::Rank::cost_of_rank))]
pub(crate) fn cost_known(rank: u64) -> Option<Cost>
    ensures { result ≡ spec.cost_known rank }
{
    if rank < RANK_LIMIT {
        Some(Cost::of_rank(rank))
    } else {
        None
    }
}

/// The costs that entries tell.
pub(crate) fn costs_known(alloc: Global, ranks: &[u64]) -> Result<Vec<Option<Cost>>, NoMemory>
    ensures { IfOk result (λ costs. costs.items ≡ map spec.cost_known ranks.now) }
{
    ranks.iter().map(|rank| cost_known(*rank)).collect(alloc)
}
