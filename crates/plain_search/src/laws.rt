//! Laws of the plain search: each is the contract of a call that does nothing.

ghost use Rattle.best_first.specs.Answer.{AnswersAre};
ghost use Rattle.plain_search.specs.Answer.{IsPlainRun, plain_found};
ghost use Rattle.plain_search.specs.Costs.{BeginsIs, LeastCostsAre, begins, least_cost};

/// The answer of the plain engine's run is a function of the grid and the two cells: it is right where the
/// first is free, and no other answer is the run's.
pub fn answers_are_found()
    ensures { AnswersAre IsPlainRun plain_found }
{}

/// What a least walk costs is a function of the grid and the two cells: from a free cell to each cell it
/// tells the cost, or nothing exactly where no walk leads, and nothing else is that.
pub fn least_costs_are_found()
    ensures { LeastCostsAre least_cost }
{}

/// From a free cell the function tells with which moves the least walks to a cell begin.
pub fn begins_is_found()
    ensures { BeginsIs begins }
{}
