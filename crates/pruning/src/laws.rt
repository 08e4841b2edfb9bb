//! Laws of pruning: each is the contract of a call that does nothing.
//!
//! Together they say that a search which goes on in allowed directions alone, from stop to stop, misses
//! no least walk, and finds walks alone. That the octile estimate suits such a search is a law of
//! `grid_moves::laws`. All hold under each corner rule; only the first two look at the rule.

ghost use Rattle.pruning.specs.Facts.{TurnsAreReplaced, TurnsAreMarked};
ghost use Rattle.pruning.specs.Laws.{CanonicalWalksSuffice, ChainsSuffice, ChainsAreWalks};
ghost use Rattle.pruning.specs.Laws.{MarksAreDecided, StopsAreDecided, FirstStopIsFirst, OneFirstStop};
ghost use Rattle.pruning.specs.Laws.{FirstMarkIsFirst, OneFirstMark, RunLengthIsExact};
ghost use Rattle.pruning.specs.Swap.{DroppedTurnsAreSwapped, DiagonalsGoFirst};
ghost use Rattle.pruning.specs.Explored.{OneStateSuffices};

/// Two legal moves of which the second is not allowed after the first can be replaced: by moves of no
/// greater cost that are fewer, or have fewer diagonal ones, or have these earlier.
pub fn turns_are_replaced()
    ensures { TurnsAreReplaced }
{}

/// Where an allowed direction is neither the arrival's own nor, after a diagonal, one of its
/// components, the cell is marked for the arrival.
pub fn turns_are_marked()
    ensures { TurnsAreMarked }
{}

/// For every walk there is a canonical walk with the same ends, of no greater cost.
pub fn canonical_walks_suffice()
    ensures { CanonicalWalksSuffice }
{}

/// For every canonical walk there is a chain of first stops from its start to its end, of no greater
/// cost: each turn of the walk stands at a first stop or is reached through one.
pub fn chains_suffice()
    ensures { ChainsSuffice }
{}

/// The cells of a chain that begins on a free cell are points of a walk of the chain's cost.
pub fn chains_are_walks()
    ensures { ChainsAreWalks }
{}

/// The test `is_marked` holds exactly at the marked cells.
pub fn marks_are_decided()
    ensures { MarksAreDecided }
{}

/// The test `is_stop` holds exactly at the cells at which a jump stops.
pub fn stops_are_decided()
    ensures { StopsAreDecided }
{}

/// What `first_stop` computes is the number of moves to the first stop, or none where there is none.
pub fn first_stop_is_first()
    ensures { FirstStopIsFirst }
{}

/// And no other answer is.
pub fn only_one_first_stop()
    ensures { OneFirstStop }
{}

/// What `first_mark` computes is the number of moves to the first marked cell, or none where there is
/// none.
pub fn first_mark_is_first()
    ensures { FirstMarkIsFirst }
{}

/// And no other answer is.
pub fn only_one_first_mark()
    ensures { OneFirstMark }
{}

/// As many moves are legal, one after the other, as `run_length` computes.
pub fn run_length_is_exact()
    ensures { RunLengthIsExact }
{}

/// Where moves in one direction meet no stop before they end, a turn behind them is not allowed, and no walk
/// is cheaper than they with it, it is one from a straight direction to a diagonal one,
/// and the diagonal move can go first.
pub fn dropped_turns_are_swapped()
    ensures { DroppedTurnsAreSwapped }
{}

/// A diagonal move may be put before a canonical walk where no walk is cheaper.
pub fn diagonals_go_first()
    ensures { DiagonalsGoFirst }
{}

/// Of states that were come to, one for each cell, whichever of the arrivals: as long as the goal is not
/// among them, one of them goes on to a cell of a least walk that none of them has at as little. A search may
/// stop where it likes, if only no run passes its first stop.
pub fn one_state_suffices()
    ensures { OneStateSuffices }
{}
