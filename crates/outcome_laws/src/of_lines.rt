//! Laws of lines, whoever answers: each is the contract of a call that does nothing.

ghost use Rattle.outcome_laws.specs.Lines.{DrillsAreOne, FindingsAreOne, RowsDifferInTaken, TakenBeginsHeard};

/// What was written for a first part of a known script, at whatever stop, begins what the whole script is
/// answered.
pub fn taken_begins_heard()
    ensures { TakenBeginsHeard }
{}

/// Two sessions, of whatever engines, come to the same findings for the same commands.
pub fn findings_are_one()
    ensures { FindingsAreOne }
{}

/// A drill of one seed under one corner rule comes to the same findings, whatever engine is picked.
pub fn drills_are_one()
    ensures { DrillsAreOne }
{}

/// Two who answer, in whatever ways, make rows of the same entries that differ in the counts of taken states
/// alone: where these are not shown, they print the same lines, with the same status.
pub fn rows_differ_in_taken()
    ensures { RowsDifferInTaken }
{}
