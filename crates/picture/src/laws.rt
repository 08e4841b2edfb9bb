//! Laws of pictures, as contracts of calls.

ghost use Rattle.picture.specs.Laws.{RunsAreLongest, CellsAreDrawnOnce};

/// The runs that are drawn are the longest ones: they have the marked cells and no others, and two of
/// them do not touch. No other list of runs is so.
pub fn runs_are_longest()
    ensures { RunsAreLongest }
{}

/// A cell of a row of a map lies under the strokes of its own ground and of no other, and under none
/// exactly where it is background.
pub fn cells_are_drawn_once()
    ensures { CellsAreDrawnOnce }
{}
