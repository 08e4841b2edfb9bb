//! Laws of points: each is the contract of a call that does nothing.

ghost use Rattle.path_points.specs.Checked.{PointsAreAnswered};

/// What points come to is a function of the grid and the points: the cost of the walk that they stand for,
/// or the first bad one. No other answer is right.
pub fn points_are_answered()
    ensures { PointsAreAnswered }
{}
