//! Following first moves.

ghost use Rattle.std.specs.Prelude.{◌≡◌, ◌+◌, ◌*◌, ◌≤◌, true, MatchOption, IfOk, IfSome};
ghost use Rattle.grid_moves.specs.Grid.{is_free};
ghost use Rattle.grid_moves.specs.Reply.{StandsForLeast};
ghost use Rattle.grid_moves.specs.Walk.{NoWalk};
ghost use Rattle.first_moves.specs.Row.{AreMoves};
ghost use Rattle.first_moves.specs.Follow.{IsFollowed};

use crate::guide::Guide;
use crate::{Moves, NoMemory};
use cost_waves::CostWaves;
use grid_moves::{Cell, Terrain, move_cost};
use path_points::{Points, Walk, push_turn};
use root2_cost::Cost;
use std::alloc::Global;
use std::sync::ledger::Ledger;
use steps::Steps;

// The walk from one free cell to another over the cells that a guide tells one after another.
fn walk_by<G: Guide, T: Terrain, L: Ledger>(
    alloc: Global,
    guide: &G,
    t: &T,
    from: Cell,
    to: Cell,
    steps: &mut Steps<L>,
) -> Result<Option<Walk>, NoMemory>
    requires guide { G.StandsFor guide.now (T.grid t.now) to }
    requires few { (T.grid t.now).height * (T.grid t.now).width ≤ 16777216 }
    requires from { is_free (T.grid t.now) from ≡ true }
    requires to { is_free (T.grid t.now) to ≡ true }
    ensures walk { IfOk result (λ o. MatchOption o (NoWalk (T.grid t.now) from to)
        (λ w. IsFollowed (T.grid t.now) from to w.points w.cost)) }
    ensures stands { IfOk result
        (λ o. IfSome o (λ w. StandsForLeast (T.grid t.now) from to w.points w.cost)) }
    ensures steps { IfOk result (λ o. MatchOption o (steps.new ≡ steps.old + 1)
        (λ w. steps.new ≡ steps.old + (w.cost.a + w.cost.b))) }
{
    let mut points = Points::new(alloc);
    points.push(from)?;
    if from == to {
        let cost = Cost { a: 0, b: 0 };
        return Ok(Some(Walk { points, cost }));
    }
    let mut part = None;
    let Some(mut at) = guide.next(t, from, to, &mut part, steps) else {
        return Ok(None);
    };
    let mut before = from;
    let mut cost = move_cost(from, at);
    while at != to {
        let Some(next) = guide.next(t, at, to, &mut part, steps) else {
            unreachable!()
        };
        push_turn(&mut points, before, at, next)?;
        cost = cost.add(move_cost(at, next));
        before = at;
        at = next;
    }
    points.push(at)?;
    Ok(Some(Walk { points, cost }))
}

impl Moves {
    /// The walk from one free cell to another in which each move is the first move from its cell to the goal,
    /// and its cost. It is a least walk. Its points are its first cell, its last cell and its turns. `None`
    /// exactly where no walk leads to the goal.
    ///
    /// It counts a step for each move of the walk, and one where there is none. No search is made.
    pub fn follow<T: Terrain, L: Ledger>(
        &self,
        alloc: Global,
        t: &T,
        from: Cell,
        to: Cell,
        steps: &mut Steps<L>,
    ) -> Result<Option<Walk>, NoMemory>
        requires moves { AreMoves (T.grid t.now) self.now }
        requires few { (T.grid t.now).height * (T.grid t.now).width ≤ 16384 }
        requires from { is_free (T.grid t.now) from ≡ true }
        requires to { is_free (T.grid t.now) to ≡ true }
        ensures walk { IfOk result (λ o. MatchOption o (NoWalk (T.grid t.now) from to)
            (λ w. IsFollowed (T.grid t.now) from to w.points w.cost)) }
        ensures stands { IfOk result
            (λ o. IfSome o (λ w. StandsForLeast (T.grid t.now) from to w.points w.cost)) }
        ensures steps { IfOk result (λ o. MatchOption o (steps.new ≡ steps.old + 1)
            (λ w. steps.new ≡ steps.old + (w.cost.a + w.cost.b))) }
    {
        walk_by(alloc, self, t, from, to, steps)
    }
}

/// The same walk with no first moves at hand: one pass from the goal tells them, on a map of any size.
///
/// For one query this is cheaper than `Moves::build`, which makes a pass from each free cell. The memory is
/// that of a pass, nine bytes for each cell.
pub fn follow_by_pass<T: Terrain, L: Ledger>(
    alloc: Global,
    t: &T,
    from: Cell,
    to: Cell,
    steps: &mut Steps<L>,
) -> Result<Option<Walk>, NoMemory>
    requires from { is_free (T.grid t.now) from ≡ true }
    requires to { is_free (T.grid t.now) to ≡ true }
    ensures walk { IfOk result (λ o. MatchOption o (NoWalk (T.grid t.now) from to)
        (λ w. IsFollowed (T.grid t.now) from to w.points w.cost)) }
    ensures stands { IfOk result
        (λ o. IfSome o (λ w. StandsForLeast (T.grid t.now) from to w.points w.cost)) }
    ensures steps { IfOk result (λ o. MatchOption o (steps.new ≡ steps.old + 1)
        (λ w. steps.new ≡ steps.old + (w.cost.a + w.cost.b))) }
{
    let mut waves = CostWaves::new(alloc, t.width(), t.height())?;
    waves.pass(t, to)?;
    walk_by(alloc, &waves, t, from, to, steps)
}
