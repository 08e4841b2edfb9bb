//! Rectangles of cells.

ghost use Rattle.std.specs.Prelude.{◌≡◌, Some};
ghost use Rattle.goal_boxes.specs.Box as spec;

use grid_moves::Cell;

/// A rectangle of cells: from column `x0` to column `x1` and from row `y0` to row `y1`, all four inclusive.
#[derive(Clone, Copy, Debug, PartialEq, Eq)]
pub struct Area {
    pub x0: u16,
    pub y0: u16,
    pub x1: u16,
    pub y1: u16,
}

impl Area {
    /// Whether the cell lies in the rectangle.
    #[inline(always)]
    pub fn holds(self, c: Cell) -> bool
        ensures { result ≡ spec.holds self c }
    {
        self.x0 <= c.x && c.x <= self.x1 && self.y0 <= c.y && c.y <= self.y1
    }

    // The least rectangle that holds this one and the cell.
    #[inline(always)]
    fn with_cell(self, c: Cell) -> Area
        ensures { result ≡ spec.with_cell self c }
    {
        Area {
            x0: if c.x < self.x0 { c.x } else { self.x0 },
            y0: if c.y < self.y0 { c.y } else { self.y0 },
            x1: if self.x1 < c.x { c.x } else { self.x1 },
            y1: if self.y1 < c.y { c.y } else { self.y1 },
        }
    }
}

/// The least rectangle that holds what was found so far and the cell.
#[inline(always)]
pub(crate) fn widened(found: Option<Area>, c: Cell) -> Option<Area>
    ensures { result ≡ Some (spec.widened found c) }
{
    match found {
        Some(area) => Some(area.with_cell(c)),
        None => Some(Area {
            x0: c.x,
            y0: c.y,
            x1: c.x,
            y1: c.y,
        }),
    }
}
