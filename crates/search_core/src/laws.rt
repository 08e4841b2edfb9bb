//! Laws of the search over jumps: each is the contract of a call that does nothing.

ghost use Rattle.best_first.specs.declared.state.Layout.{Layout};
ghost use Rattle.best_first.specs.Answer.{AnswersAre};
ghost use Rattle.search_core.specs.Answer.{IsJumpRun, jump_found};
ghost use Rattle.search_core.specs.Laws.{CostsFit, EstimateSuits, RunsAreRight};
ghost use Rattle.search_core.specs.OneState.{RunsByCellAreSuch};

/// The answer of the jump engines' run is a function of its states, the grid and the two cells: it is right
/// where the first is free, and no other answer is the run's, whichever source found the jumps.
pub fn answers_are_found()
    ensures { (layout : Layout) → AnswersAre (IsJumpRun layout) (jump_found layout) }
{}

/// What the run of the jump engines answers is right: a least walk, or none exactly where no walk
/// exists. So it is with a state for each arrival at a cell, and with one state for each cell.
pub fn runs_are_right()
    ensures { RunsAreRight }
{}

/// With one state for each cell the jump engines' run is one of the searches of one_state, at its end: the
/// answer shows what was taken, in order; a walk that it tells has the cost at which the goal was taken; and
/// where it tells none, the goal was not taken and nothing is offered.
pub fn runs_by_cell_are_such()
    ensures { RunsByCellAreSuch }
{}

/// By either rule of states the octile estimate suits the run of the jump engines, so that its sums never
/// fall and no taken state is offered at less (`search_run::laws::taken_are_not_bettered`).
pub fn estimate_suits()
    ensures { EstimateSuits }
{}

/// A state is taken at a cost of at most 2^27 moves, as along the jumps of a run each cell is passed in
/// each direction once.
pub fn costs_fit()
    ensures { CostsFit }
{}
