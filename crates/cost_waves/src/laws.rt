//! The law of costs there and back, as the contract of a call.

ghost use Rattle.cost_waves.specs.Begin.{CostsTurnRound};

/// What a least walk costs is the same both ways.
pub fn costs_turn_round()
    ensures { CostsTurnRound }
{}
