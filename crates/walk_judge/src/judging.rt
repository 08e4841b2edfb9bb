//! Judging what is claimed of the walks between two cells.

ghost use Rattle.std.specs.Prelude.{◌≡◌, ◌↔◌, List, Ok, true, IfOk};
ghost use Rattle.root2_cost.specs.declared.Cost.{Cost};
ghost use Rattle.root2_cost.specs.Sums.{is_same_cost};
ghost use Rattle.grid_moves.specs.declared.Cell.{Cell};
ghost use Rattle.grid_moves.specs.Grid.{is_free};
ghost use Rattle.grid_moves.specs.Reply.{StandsForLeast};
ghost use Rattle.plain_search.specs.Costs.{IsCostTo};
ghost use Rattle.potential_check.specs.Walks.{IsRightWalk};
ghost use Rattle.walk_judge.specs.Judgement.{IsJudgement, judged_by, judgement_of};
ghost use Rattle.walk_judge.specs.Claims.{IsFit, walk_of};
ghost use Rattle.walk_judge.specs.declared.judging.Judged.{Judged};
ghost use Rattle.walk_judge.specs.declared.judging.Judged.TheVariants.{Least};

use crate::NoMemory;
use crate::claims::Claimed;
use grid_moves::{Cell, Terrain};
use path_points::Points;
use plain_search::{Found, Workspace, least_in};
use potential_check::walk_between;
use root2_cost::Cost;
use std::alloc::Global;

/// How a claimed walk is judged: the first case that applies.
#[derive(Clone, Copy, Debug, PartialEq, Eq)]
pub enum Judged {
    /// The claimed walk is legal and least, and costs this.
    Least(Cost),
    /// The claim is that no walk exists, and none does.
    NoWalk,
    /// The claimed points are no legal walk from start to goal. The number is 0 where the first point is
    /// not the start; else that of the first later point, counted from 0, to which no legal run of at
    /// least one step leads from the point before, or that brings the steps above 2^24; else the number
    /// of points, where the last one is not the goal.
    BadWalk(u32),
    /// The claimed walk is legal and costs the first, and the least cost is the second, another pair.
    Longer(Cost, Cost),
    /// The claim is that no walk exists, and the least cost is this.
    Exists(Cost),
}

/// How what is claimed of the walks between two cells is judged, by a search of the least cost.
///
/// `to` may be any cell: to one that is not free no walk leads.
pub fn judge_walk<T: Terrain>(
    alloc: Global,
    t: &T,
    from: Cell,
    to: Cell,
    claimed: &Claimed,
) -> Result<Judged, NoMemory>
    requires free { is_free (T.grid t.now) from ≡ true }
    requires fit { IsFit claimed.now }
    // The first case that applies, and no other answer.
    ensures judged { IfOk result (IsJudgement (T.grid t.now) from to claimed.now) }
    ensures only { (judged : Judged) → IsJudgement (T.grid t.now) from to claimed.now judged
        → IfOk result (λ answer. answer ≡ judged) }
    // Exactly the legal least walks are accepted, at their cost.
    ensures accepted { (points : List Cell) (cost : Cost) → claimed.now ≡ walk_of points
        → IfOk result (λ answer.
        (answer ≡ Least cost) ↔ StandsForLeast (T.grid t.now) from to points cost) }
{
    let least = least_cost(alloc, t, from, to)?;
    Ok(judge_claimed(t, from, to, claimed, least))
}

/// The same where the least cost is known: none where no walk exists, as from a cell that is not free.
/// No memory is taken. The claimed walk is passed over once, step by step, up to its first bad point.
pub fn judge_claimed<T: Terrain>(
    t: &T,
    from: Cell,
    to: Cell,
    claimed: &Claimed,
    least: Option<Cost>,
) -> Judged
    requires fit { IsFit claimed.now }
    requires least { IsCostTo (T.grid t.now) from to least }
    ensures is { result ≡ judgement_of (T.grid t.now) from to claimed.now least }
    ensures judged { IsJudgement (T.grid t.now) from to claimed.now result }
    ensures only { (judged : Judged) → IsJudgement (T.grid t.now) from to claimed.now judged
        → result ≡ judged }
    ensures accepted { (points : List Cell) (cost : Cost) → claimed.now ≡ walk_of points
        → ((result ≡ Least cost) ↔ StandsForLeast (T.grid t.now) from to points cost) }
{
    // A terrain that tells its width is a grid, on which a least walk has fewer than 2^24 steps.
    let _width = t.width();
    judgement(t, from, to, claimed, least)
}

/// The same, whose clause is the function alone.
fn judgement<T: Terrain>(
    t: &T,
    from: Cell,
    to: Cell,
    claimed: &Claimed,
    least: Option<Cost>,
) -> Judged
    requires fit { IsFit claimed.now }
    requires least { IsCostTo (T.grid t.now) from to least }
    ensures { result ≡ judgement_of (T.grid t.now) from to claimed.now least }
{
    match claimed {
        Claimed::Walk(points) => match walk_between(t, from, to, points) {
            Err(bad) => Judged::BadWalk(bad),
            Ok(paid) => compared(t, from, to, points, paid, least),
        },
        Claimed::None => match least {
            Some(cost) => Judged::Exists(cost),
            None => Judged::NoWalk,
        },
    }
}

/// Whether the pairs are one.
fn is_same(p: Cost, q: Cost) -> bool
    ensures { result ≡ is_same_cost p q }
{
    p == q
}

/// How a legal walk of this cost is judged. (The grid is a parameter for the contract alone.)
fn compared<T: Terrain>(
    _t: &T,
    from: Cell,
    to: Cell,
    points: &Points,
    paid: Cost,
    least: Option<Cost>,
) -> Judged
    requires right { IsRightWalk (T.grid _t.now) from to paid points.now }
    requires least { IsCostTo (T.grid _t.now) from to least }
    ensures { result ≡ judged_by (Ok paid) least }
{
    match least {
        Some(least) => {
            if is_same(least, paid) {
                Judged::Least(paid)
            } else {
                Judged::Longer(paid, least)
            }
        }
        None => unreachable!(),
    }
}

/// The least cost of the walks between the cells, none where no walk exists.
fn least_cost<T: Terrain>(
    alloc: Global,
    t: &T,
    from: Cell,
    to: Cell,
) -> Result<Option<Cost>, NoMemory>
    requires { is_free (T.grid t.now) from ≡ true }
    ensures { IfOk result (IsCostTo (T.grid t.now) from to) }
{
    if !t.free(to) {
        return Ok(None);
    }
    let mut space = Workspace::of_grid(alloc, t)?;
    let Found { walk, taken: _ } = least_in(alloc, t, from, to, &mut space)?;
    match walk {
        Some(walk) => Ok(Some(walk.cost)),
        None => Ok(None),
    }
}
