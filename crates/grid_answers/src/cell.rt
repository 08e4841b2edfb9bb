//! The one cell of which something is printed.

ghost use Rattle.std.specs.Prelude.{◌≡◌, true, MatchResult, Some, None};
ghost use Rattle.grid_moves.specs.Layers.{is_free_ground};
ghost use Rattle.grid_answers.specs.OfCell.{why_untold};

use grid_moves::{Cell, Layers};

/// The cell of this column and row, where it is land or water; else the line that says why nothing is printed
/// of it.
pub(crate) fn free_cell(layers: &Layers, x: u32, y: u32) -> Result<Cell, &'static [u8]>
    ensures { MatchResult result
        (λ c. (c ≡ record { x = x; y = y }) × (is_free_ground layers.now c ≡ true)
        × (why_untold layers.now c ≡ None))
        (λ line. why_untold layers.now (record { x = x; y = y }) ≡ Some line.now) }
{
    match layers.cell_at(x, y) {
        None => Err(b"outside\n"),
        Some(c) => {
            if layers.is_free_ground(c) {
                Ok(c)
            } else {
                Err(b"blocked\n")
            }
        }
    }
}
