//! Laws of runs: each is the contract of a call that does nothing, for states of any type.
//!
//! All but the last four ask that the estimate is consistent: over a link it falls by at most what
//! the link costs, and at a goal it is nothing.

ghost use Rattle.search_run.specs.Laws.{GoalsAreLeast, TakenAreLeast, LesserSumsAreTaken, EndedRunsMissNone};
ghost use Rattle.search_run.specs.Laws.{TakenAreNotBettered, ParentsOffersStand, EndedRunsAreOne};
ghost use Rattle.search_run.specs.Laws.{RunsAreMade, EndedRunsAreMade};

/// A goal is taken at a cost that no chain of links to a goal undercuts.
pub fn goals_are_least<S>()
    ensures { GoalsAreLeast S }
{}

/// Every taken state has its least cost.
pub fn taken_are_least<S>()
    ensures { TakenAreLeast S }
{}

/// Every state whose sum of least cost and estimate is below that of the last taken one was taken.
pub fn lesser_sums_are_taken<S>()
    ensures { LesserSumsAreTaken S }
{}

/// Where no state waits and no goal was taken, every state to which a chain leads was taken.
pub fn ended_runs_miss_none<S>()
    ensures { EndedRunsMissNone S }
{}

/// The last taken state offers no taken one a lesser cost, so a search need not ask which states
/// are closed.
pub fn taken_are_not_bettered<S>()
    ensures { TakenAreNotBettered S }
{}

/// A state need not offer what its parent leads to at no greater cost.
pub fn parents_offers_stand<S>()
    ensures { ParentsOffersStand S }
{}

/// Two runs of one rule from one start that have ended are equal, where numbers tell states apart.
pub fn ended_runs_are_one<S>()
    ensures { EndedRunsAreOne S }
{}

/// The run that is made state by state, by scans of all states that links lead to, is a run that ends: so
/// from each start there is one.
pub fn runs_are_made<S>()
    ensures { RunsAreMade S }
{}

/// Each run that ends is the one that is made so, where numbers tell states apart.
pub fn ended_runs_are_made<S>()
    ensures { EndedRunsAreMade S }
{}
