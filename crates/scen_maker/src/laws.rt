//! Laws of the scenarios that are made: each is the contract of a call that does nothing.

ghost use Rattle.scen_maker.specs.Problems.{ProblemsCostLeast};
ghost use Rattle.scen_maker.specs.Settling.{QueriesAreSettled};

/// What a map makes of a query is right: it is meant for another size, or an end lies outside or is blocked,
/// or the cost that is found is that of a least walk.
pub fn queries_are_settled()
    ensures { QueriesAreSettled }
{}

/// Each problem that is made from a number costs what a least walk between its ends does.
pub fn problems_cost_least()
    ensures { ProblemsCostLeast }
{}
