//! From points to cells.

ghost use Rattle.std.specs.Prelude.{◌≡◌, true, Some, IfOk};
ghost use Rattle.grid_moves.specs.Points.{is_lined, unfolding_of};

use crate::segments::push_segment;
use crate::{Cells, NoMemory, Points};
use std::alloc::Global;

/// The cells through the points, each shared point once.
///
/// Each segment is filled cell by cell.
pub fn unfold(alloc: Global, p: &Points) -> Result<Cells, NoMemory>
    requires { is_lined p.now ≡ true }
    ensures { IfOk result (λ cells. unfolding_of p.now ≡ Some cells) }
{
    let mut cells = Cells::new(alloc);
    let Some((first, others)) = p.as_slice().split_first() else {
        unreachable!()
    };
    let mut last = *first;
    cells.push(last)?;
    for next in others {
        push_segment(&mut cells, last, *next)?;
        last = *next;
    }
    Ok(cells)
}
