//! Commands.

/// What one line of a script asks for. Columns and rows count from 0, and may lie outside the map.
#[derive(Clone, Copy, Debug, PartialEq, Eq)]
pub enum ScriptCommand {
    /// Blocks the cell in column `x` and row `y`.
    Block { x: u32, y: u32 },
    /// Makes land of the cell in column `x` and row `y`.
    Free { x: u32, y: u32 },
    /// Makes water of the cell in column `x` and row `y`.
    Flood { x: u32, y: u32 },
    /// Asks for a least walk from column `sx` and row `sy` to column `gx` and row `gy`.
    Query { sx: u32, sy: u32, gx: u32, gy: u32 },
}
