//! Checks of walks that are given by points.

ghost use Rattle.std.specs.Prelude.{◌≡◌, ◌+◌, ◌^◌, ◌<◌, ◌≤◌, true, length, OnSome, IfSome};
ghost use Rattle.grid_moves.specs.Grid.{is_free};
ghost use Rattle.grid_moves.specs.Points as spec;
ghost use Rattle.path_points.specs.Checked.{good_cost, points_answer};

use crate::Points;
use crate::segments::{are_lined, step_toward, steps_between};
use grid_moves::{Cell, Terrain, is_legal, move_cost};
use root2_cost::Cost;

// The most steps of a walk that is checked.
const MOST_STEPS: u32 = 1 << 24;

/// The first point, counted from 0, at which points stop to stand for a walk.
#[derive(Clone, Copy, Debug, PartialEq, Eq)]
pub struct BadAt(pub u32);

// The cost of the legal run between the cells, where there is one that takes the steps so far to at
// most 2^24.
fn run_cost<T: Terrain>(t: &T, from: Cell, to: Cell, before: u32) -> Option<Cost>
    requires free { is_free (T.grid t.now) from ≡ true }
    requires few { before ≤ 2 ^ 24 }
    ensures cost { result ≡ good_cost (T.grid t.now) before from to }
    ensures steps { IfSome result (λ cost. cost.a + cost.b ≡ spec.steps_between from to) }
    ensures free { OnSome result (is_free (T.grid t.now) to ≡ true) }
{
    let steps = steps_between(from, to);
    if !are_lined(from, to) || before + u32::from(steps) > MOST_STEPS {
        return None;
    }
    let mut at = from;
    let mut cost = Cost { a: 0, b: 0 };
    for _ in 0..steps {
        let next = step_toward(at, to);
        if !is_legal(t, at, next) {
            return None;
        }
        cost = cost.add(move_cost(at, next));
        at = next;
    }
    Some(cost)
}

/// The cost of the walk that the points stand for, or the first bad point.
///
/// The points have to unfold to a walk of at most 2^24 steps. Point 0 is bad where there is none or
/// it is not free, a later one where no legal run of at least one step leads to it from the point
/// before, or where it brings the steps above 2^24: law `points_are_answered`. No memory is taken, and
/// nothing is read past the first bad point.
pub fn check_walk<T: Terrain>(t: &T, p: &Points) -> Result<Cost, BadAt>
    requires { length p.now < 2 ^ 30 }
    ensures { result ≡ points_answer (T.grid t.now) p.now }
{
    let Some((first, others)) = p.as_slice().split_first() else {
        return Err(BadAt(0));
    };
    if !t.free(*first) {
        return Err(BadAt(0));
    }
    let mut last = *first;
    let mut cost = Cost { a: 0, b: 0 };
    for (i, next) in others.iter().enumerate() {
        let Some(run) = run_cost(t, last, *next, cost.a + cost.b) else {
            return Err(BadAt(i as u32 + 1));
        };
        cost = cost.add(run);
        last = *next;
    }
    Ok(cost)
}
