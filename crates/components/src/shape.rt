//! The map that labels are kept of.

ghost use Rattle.std.specs.Prelude.{◌≡◌, ◌*◌, length};
ghost use Rattle.grid_moves.specs.Grid.{AreSides};
ghost use Rattle.joined_cells.specs.Joined.{label_of};
ghost use Rattle.components.specs.Stored.{labels_in};

use grid_moves::{Cell, number_of};

/// The sides of a map, and whether free neighbours on a diagonal are joined whatever stands beside them.
#[derive(Clone, Copy)]
pub(crate) struct Shape {
    pub width: u16,
    pub height: u16,
    pub eight: bool,
}

/// The label of a cell, 0 where it is not free or lies outside the map.
#[inline(always)]
pub(crate) fn label_at(shape: Shape, labels: &[u32], c: Cell) -> u32
    requires sides { AreSides shape.width shape.height }
    requires whole { length labels.now ≡ shape.height * shape.width }
    ensures { result ≡ label_of (labels_in shape labels.now) c }
{
    if c.x < shape.width && c.y < shape.height {
        labels[number_of(shape.width, c) as usize]
    } else {
        0
    }
}
