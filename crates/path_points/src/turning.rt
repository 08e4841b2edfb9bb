//! The points of a way: its ends and its turns.

ghost use Rattle.std.specs.Prelude.{◌≡◌, ◌+◌, ◌*◌, IfOk, OnErr, OnOk, if◌then◌else◌, [], ◌∷◌, ◌++◌};
ghost use Rattle.path_points.specs.Corners as spec;

use crate::{NoMemory, Points};
use grid_moves::Cell;
use std::alloc::Global;

// Whether the way from u over v to w goes straight on.
fn goes_straight(u: Cell, v: Cell, w: Cell) -> bool
    ensures { result ≡ spec.goes_straight u v w }
{
    u32::from(u.x) + u32::from(w.x) == 2 * u32::from(v.x)
        && u32::from(u.y) + u32::from(w.y) == 2 * u32::from(v.y)
}

/// Appends the middle one of three cells where the way turns there.
pub fn push_turn(points: &mut Points, before: Cell, at: Cell, next: Cell) -> Result<(), NoMemory>
    ensures turned { OnOk result (points.new ≡
        (if spec.goes_straight before at next then points.old else points.old ++ at ∷ [])) }
    ensures unchanged { OnErr result (points.new ≡ points.old) }
{
    if goes_straight(before, at, next) {
        Ok(())
    } else {
        points.push(at)
    }
}

/// The first cell of a way, the cells at which it turns, and the last cell.
pub fn turns(alloc: Global, cells: &[Cell]) -> Result<Points, NoMemory>
    ensures { IfOk result (λ p. p ≡ spec.corners cells.now) }
{
    let mut points = Points::new(alloc);
    let Some((first, others)) = cells.split_first() else {
        return Ok(points);
    };
    points.push(*first)?;
    let Some((second, others)) = others.split_first() else {
        return Ok(points);
    };
    let mut before = *first;
    let mut at = *second;
    for next in others {
        push_turn(&mut points, before, at, *next)?;
        before = at;
        at = *next;
    }
    points.push(at)?;
    Ok(points)
}
