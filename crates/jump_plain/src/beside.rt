//! The cells beside a cell, and which of them are free.

ghost use Rattle.std.specs.Prelude.{◌≡◌, false, true};
ghost use Rattle.grid_moves.specs.Grid.{IsGrid, is_free};
ghost use Rattle.grid_moves.specs.Move.{legal_ahead};
ghost use Rattle.pruning.specs.Turns.{is_diagonal};
ghost use Rattle.jump_plain.specs.Beside as spec;

use grid_moves::{Cell, Dir, Terrain, beyond};
use pruning::{Side, quarter, turn};

/// Which of two cells beside a direction are free: those at right angles to it, or those half ahead.
#[derive(Clone, Copy)]
pub struct Sides {
    pub right: bool,
    pub left: bool,
}

/// The cell ahead, exactly where the straight move to it is legal.
#[inline(always)]
pub fn straight_ahead<T: Terrain>(t: &T, c: Cell, d: Dir) -> Option<Cell>
    requires straight { is_diagonal d ≡ false }
    requires free { is_free (T.grid t.now) c ≡ true }
    requires whole { IsGrid (T.grid t.now) }
    ensures { result ≡ legal_ahead (T.grid t.now) c d }
{
    straight_by(t, t.place(c), c, d)
}

// The same, given the cell's place.
#[inline(always)]
pub(crate) fn straight_by<T: Terrain>(t: &T, place: usize, c: Cell, d: Dir) -> Option<Cell>
    requires given { place ≡ T.place_of t.now c }
    requires straight { is_diagonal d ≡ false }
    requires free { is_free (T.grid t.now) c ≡ true }
    requires whole { IsGrid (T.grid t.now) }
    ensures { result ≡ legal_ahead (T.grid t.now) c d }
{
    if t.open_by(place, c, d) {
        Some(beyond(c, d))
    } else {
        None
    }
}

impl Sides {
    /// Reads the sides of a free cell.
    #[inline(always)]
    pub fn of<T: Terrain>(t: &T, c: Cell, d: Dir) -> Sides
        requires free { is_free (T.grid t.now) c ≡ true }
        requires whole { IsGrid (T.grid t.now) }
        ensures { result ≡ spec.sides_of (T.grid t.now) c d }
    {
        Sides::by(t, t.place(c), c, d)
    }

    // The same, given the cell's place.
    #[inline(always)]
    pub(crate) fn by<T: Terrain>(t: &T, place: usize, c: Cell, d: Dir) -> Sides
        requires given { place ≡ T.place_of t.now c }
        requires free { is_free (T.grid t.now) c ≡ true }
        ensures { result ≡ spec.sides_of (T.grid t.now) c d }
    {
        Sides {
            right: t.open_by(place, c, quarter(Side::Right, d)),
            left: t.open_by(place, c, quarter(Side::Left, d)),
        }
    }

    /// Reads the cells half ahead of a free cell: after a straight move the sides of the next one, be it free
    /// or blocked; beside a diagonal move the ends of the moves in its components.
    #[inline(always)]
    pub fn ahead<T: Terrain>(t: &T, c: Cell, d: Dir) -> Sides
        requires free { is_free (T.grid t.now) c ≡ true }
        requires whole { IsGrid (T.grid t.now) }
        ensures { result ≡ spec.sides_ahead (T.grid t.now) c d }
    {
        Sides::ahead_by(t, t.place(c), c, d)
    }

    // The same, given the cell's place.
    #[inline(always)]
    pub(crate) fn ahead_by<T: Terrain>(t: &T, place: usize, c: Cell, d: Dir) -> Sides
        requires given { place ≡ T.place_of t.now c }
        requires free { is_free (T.grid t.now) c ≡ true }
        ensures { result ≡ spec.sides_ahead (T.grid t.now) c d }
    {
        Sides {
            right: t.open_by(place, c, turn(Side::Right, d)),
            left: t.open_by(place, c, turn(Side::Left, d)),
        }
    }

    /// Whether one of the sides is free at the next cell and blocked here.
    #[inline(always)]
    pub fn opens(self, next: Sides) -> bool
        ensures { result ≡ spec.opens self next }
    {
        (!self.right & next.right) | (!self.left & next.left)
    }
}
