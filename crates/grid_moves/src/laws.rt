//! Laws of grids, as contracts of calls.

ghost use Rattle.grid_moves.specs.Laws.{EstimateFalls, EstimateNeverExceeds, WalksTurnRound};

/// Over a legal move the octile estimate falls by at most the move's cost.
pub fn estimate_falls()
    ensures { EstimateFalls }
{}

/// The octile estimate never exceeds the cost of a walk.
pub fn estimate_never_exceeds()
    ensures { EstimateNeverExceeds }
{}

/// A walk turned round is a walk, and costs the same.
pub fn walks_turn_round()
    ensures { WalksTurnRound }
{}
