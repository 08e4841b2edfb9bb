//! The law of judgements, as the contract of a call that does nothing.

ghost use Rattle.walk_judge.specs.Judgement.{JudgementsAreMade};

/// How what is claimed of the walks between two cells is judged is a function of the grid, the cells, what is
/// claimed and the least cost. There is no other judgement.
pub fn judgements_are_made()
    ensures { JudgementsAreMade }
{}
