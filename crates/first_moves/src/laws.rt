//! Laws of first moves: each is the contract of a call that does nothing.

ghost use Rattle.first_moves.specs.First.{FirstMovesAre, first_move};
ghost use Rattle.first_moves.specs.Follow.{LedWalksAre, led_walk};
ghost use Rattle.first_moves.specs.Row.{RowsAre, row_of};

/// The first move from one cell to another is a function of the grid and the two cells: where the first is
/// free it gives the first move, or that there is none, and nothing else is that.
pub fn first_moves_are_found()
    ensures { FirstMovesAre first_move }
{}

/// So is the row of a free cell: its first moves to all cells, in runs.
pub fn rows_are_found()
    ensures { RowsAre row_of }
{}

/// So is the walk of first moves: where the first cell is free it gives that walk, or none exactly where no
/// walk leads, and nothing else is that.
pub fn led_walks_are_found()
    ensures { LedWalksAre led_walk }
{}
