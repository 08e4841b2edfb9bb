//! Walks between two cells that are given by points.

ghost use Rattle.std.specs.Prelude.{◌≡◌, ◌^◌, ◌<◌, length};
ghost use Rattle.potential_check.specs.Walks as spec;

use grid_moves::{Cell, Terrain};
use path_points::{Points, check_walk};
use root2_cost::Cost;

/// The cost of the walk between the cells that the points stand for, or the number that tells that they
/// stand for none: law `walks_are_answered`.
///
/// No memory is taken. The walk is passed over once, step by step, up to its first bad point.
pub fn walk_between<T: Terrain>(t: &T, from: Cell, to: Cell, points: &Points) -> Result<Cost, u32>
    requires { length points.now < 2 ^ 30 }
    ensures { result ≡ spec.walk_answer (T.grid t.now) from to points.now }
{
    if !begins_at(from, points) {
        return Err(0);
    }
    match check_walk(t, points) {
        Err(bad) => Err(bad.0),
        Ok(paid) => {
            if ends_at(to, points) {
                Ok(paid)
            } else {
                Err(points.as_slice().len() as u32)
            }
        }
    }
}

// Whether there is such a point, and it is this cell.
fn is_at(c: Cell, point: Option<Cell>) -> bool
    ensures { result ≡ spec.is_at c point }
{
    match point {
        Some(p) => p == c,
        None => false,
    }
}

// Whether the first point is this cell.
fn begins_at(s: Cell, points: &Points) -> bool
    ensures { result ≡ spec.begins_at s points.now }
{
    is_at(s, points.as_slice().first().copied())
}

// Whether the last point is this cell.
fn ends_at(t: Cell, points: &Points) -> bool
    ensures { result ≡ spec.ends_at t points.now }
{
    is_at(t, points.as_slice().last().copied())
}
