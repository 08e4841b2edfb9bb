//! Laws of boxes and of the boxed search: each is the contract of a call that does nothing.

ghost use Rattle.best_first.specs.Answer.{AnswersAre};
ghost use Rattle.goal_boxes.specs.Answer.{IsBoxedRunOn};
ghost use Rattle.goal_boxes.specs.Made.{BoxesAre, box_of, boxed_found};

/// The box of a cell and a direction is a function of the grid and these two: of each free cell it tells the
/// box, and nothing else is that.
pub fn boxes_are_found()
    ensures { BoxesAre box_of }
{}

/// The answer of the boxed run is a function of the grid and the two cells: it is right where the first is
/// free, and no other answer is the run's.
pub fn answers_are_found()
    ensures { AnswersAre IsBoxedRunOn boxed_found }
{}
