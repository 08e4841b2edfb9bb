//! Which entries can change, as the contract of a call that does nothing.

ghost use Rattle.table_repair.specs.Differ.{ChangesSpreadBack};

/// On grids that differ in one cell an entry is kept where the next cell is not near that cell and the
/// entries there are kept: the one for the same direction, and for a diagonal those for its components.
pub fn changes_spread_back()
    ensures { ChangesSpreadBack }
{}
