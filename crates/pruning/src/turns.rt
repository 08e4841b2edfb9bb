//! Turns from one direction to another.

ghost use Rattle.std.specs.Prelude.{◌≡◌};
ghost use Rattle.pruning.specs.Turns as spec;

use grid_moves::Dir;

/// A side of a direction of travel.
#[derive(Clone, Copy, Debug, PartialEq, Eq)]
pub enum Side {
    Right,
    Left,
}

/// The direction an eighth of a circle to that side. Of a diagonal it is a component; of a straight
/// direction it is the diagonal to that side, and two turns give the side itself.
pub fn turn(side: Side, d: Dir) -> Dir
    ensures { result ≡ spec.turn side d }
{
    match side {
        Side::Right => match d {
            Dir::N => Dir::NE,
            Dir::NE => Dir::E,
            Dir::E => Dir::SE,
            Dir::SE => Dir::S,
            Dir::S => Dir::SW,
            Dir::SW => Dir::W,
            Dir::W => Dir::NW,
            Dir::NW => Dir::N,
        },
        Side::Left => match d {
            Dir::N => Dir::NW,
            Dir::NE => Dir::N,
            Dir::E => Dir::NE,
            Dir::SE => Dir::E,
            Dir::S => Dir::SE,
            Dir::SW => Dir::S,
            Dir::W => Dir::SW,
            Dir::NW => Dir::W,
        },
    }
}

/// The direction at right angles, to that side.
pub fn quarter(side: Side, d: Dir) -> Dir
    ensures { result ≡ spec.quarter side d }
{
    turn(side, turn(side, d))
}

/// The direction half-way back, on that side. Of a straight direction it is the diagonal between its
/// reverse and the side.
pub fn rear(side: Side, d: Dir) -> Dir
    ensures { result ≡ spec.rear side d }
{
    turn(side, quarter(side, d))
}

/// Whether the direction is a diagonal one.
pub fn is_diagonal(d: Dir) -> bool
    ensures { result ≡ spec.is_diagonal d }
{
    matches!(d, Dir::NE | Dir::SE | Dir::SW | Dir::NW)
}
