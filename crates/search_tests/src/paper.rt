//! What small maps on squared paper are written with.

use grid_moves::{Cell, Corner};

/// The corner rules; rows tell what holds under each of them in this order.
pub const RULES: [Corner; 3] = [Corner::Never, Corner::One, Corner::Both];

/// The cell in this column and this row.
pub fn cell(x: u16, y: u16) -> Cell {
    Cell { x, y }
}
