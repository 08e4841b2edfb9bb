//! Segments: the cells from one point to the next.

ghost use Rattle.std.specs.Prelude.{◌≡◌, ◌++◌, OnOk};
ghost use Rattle.grid_moves.specs.Points as spec;

use crate::{Cells, NoMemory};
use grid_moves::Cell;

// Whether the cells differ and lie on one column, row or diagonal.
pub(crate) fn are_lined(from: Cell, to: Cell) -> bool
    ensures { result ≡ spec.are_lined from to }
{
    from != to
        && (from.x == to.x || from.y == to.y || from.x.abs_diff(to.x) == from.y.abs_diff(to.y))
}

// The steps of a segment: those of its longer side.
pub(crate) fn steps_between(from: Cell, to: Cell) -> u16
    ensures { result ≡ spec.steps_between from to }
{
    from.x.abs_diff(to.x).max(from.y.abs_diff(to.y))
}

// One nearer to the goal.
fn toward(n: u16, goal: u16) -> u16
    ensures { result ≡ spec.toward n goal }
{
    if n < goal {
        n + 1
    } else if goal < n {
        n - 1
    } else {
        n
    }
}

// The cell one step from `from` towards `to`.
pub(crate) fn step_toward(from: Cell, to: Cell) -> Cell
    ensures { result ≡ spec.step_toward from to }
{
    Cell {
        x: toward(from.x, to.x),
        y: toward(from.y, to.y),
    }
}

// Appends the cells of the segment, without its first.
pub(crate) fn push_segment(cells: &mut Cells, from: Cell, to: Cell) -> Result<(), NoMemory>
    ensures { OnOk result (cells.new ≡ cells.old ++ spec.segment (spec.steps_between from to) from to) }
{
    let mut at = from;
    for _ in 0..steps_between(from, to) {
        at = step_toward(at, to);
        cells.push(at)?;
    }
    Ok(())
}
