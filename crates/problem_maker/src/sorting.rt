//! Problems in the order of their costs.

ghost use Rattle.std.specs.Prelude.{◌≡◌, OnErr, OnOk};
ghost use Rattle.problem_maker.specs.Ordered.{in_order};

use crate::NoMemory;
use grid_moves::Ends;
use root2_cost::{Cost, cmp};

/// A problem: its ends, and what a least walk between them costs.
#[derive(Clone, Copy, Debug, PartialEq, Eq)]
pub struct Problem {
    pub ends: Ends,
    pub cost: Cost,
}

/// Puts problems into the order of their costs. Those of equal costs stay in the order that they have.
///
/// Memory is taken for half of them at most, and given back.
pub fn order(problems: &mut Vec<Problem>) -> Result<(), NoMemory>
    ensures ordered { OnOk result (problems.new.items ≡ in_order problems.old.items) }
    ensures unchanged { OnErr result (problems.new.items ≡ problems.old.items) }
{
    problems.sort_by(|p, q| cmp(p.cost, q.cost))?;
    Ok(())
}
