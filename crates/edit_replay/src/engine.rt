//! The engines.

use best_first::Layout;

/// How a session searches.
#[derive(Clone, Copy, Debug, PartialEq, Eq)]
pub enum Engine {
    /// Plain A*, one state for each cell.
    Plain,
    /// Jump point search, whose jumps are found cell by cell. A cell has a state for each direction in
    /// which it was come to, or one state, which keeps its first arrival of least cost.
    Jps(Layout),
    /// The same, whose jumps are found over bits, 512 cells at a time.
    Block(Layout),
    /// The same, whose jumps are read off tables that edits mend.
    Plus(Layout),
}
