//! Laws of all these searches, on every grid and under each corner rule.

ghost use Rattle.one_state.specs.Laws.{GoalsAreLeast, ParentsLeadBack, SearchesEndRight, TakenAreFew};
ghost use Rattle.one_state.specs.Laws.{TakenAreSettled, BoundedIsInTime, FirstIsInTime, FurtherIsInTime};
ghost use Rattle.one_state.specs.Laws.{PlusIsInTime, NothingIsConsistent, OctileIsConsistent, RunsAreDecided};
ghost use Rattle.one_state.specs.Rows.{LeftOutIsRefused, WrongCellIsRefused};

/// A goal that is taken is taken at the cost of a least walk.
pub fn goals_are_least()
    ensures { GoalsAreLeast }
{}

/// From each taken cell the parents lead back to the start: the cells along them stand for a legal walk, of
/// the cost at which the cell was taken.
pub fn parents_lead_back()
    ensures { ParentsLeadBack }
{}

/// No taken cell is offered at less, before or after: a search that would open taken cells again never does.
pub fn taken_are_settled()
    ensures { TakenAreSettled }
{}

/// As long as the goal is not taken, either one of those that are offered has the least sum, so that the
/// search goes on, or nothing is offered, and no walk leads to the goal.
pub fn searches_end_right()
    ensures { SearchesEndRight }
{}

/// No more cells are taken than the map has, so each such search ends.
pub fn taken_are_few()
    ensures { TakenAreFew }
{}

/// The octile distance is consistent.
pub fn octile_is_consistent()
    ensures { OctileIsConsistent }
{}

/// And so is 0, which is no estimate.
pub fn nothing_is_consistent()
    ensures { NothingIsConsistent }
{}

/// The test by which the worked rows are computed holds exactly of the runs.
pub fn runs_are_decided()
    ensures { RunsAreDecided }
{}

/// A search that stops at first stops alone passes none.
pub fn first_is_in_time()
    ensures { FirstIsInTime }
{}

/// Nor does one that stops at any further cells besides.
pub fn further_is_in_time()
    ensures { FurtherIsInTime }
{}

/// Nor one whose jumps end after so many moves at the latest; with one move it has no jumps.
pub fn bounded_is_in_time()
    ensures { BoundedIsInTime }
{}

/// Nor one that stops where published JPS+ does.
pub fn plus_is_in_time()
    ensures { PlusIsInTime }
{}

/// An estimate that is wrong at one cell is not consistent.
pub fn wrong_cell_is_refused()
    ensures { WrongCellIsRefused }
{}

/// Stops that leave out a direction with a first stop pass it.
pub fn left_out_is_refused()
    ensures { LeftOutIsRefused }
{}
