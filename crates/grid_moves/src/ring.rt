//! The cells around a cell, each read once, and the moves that they tell of.

ghost use Rattle.std.specs.Prelude.{◌≡◌, true};
ghost use Rattle.grid_moves.specs.Grid.{IsGrid, is_free};
ghost use Rattle.grid_moves.specs.Move as moves;
ghost use Rattle.grid_moves.specs.Ring as spec;

use crate::terrain::is_passable;
use crate::{Cell, Corner, Dir, Terrain};

/// Which of the eight cells around a cell are free, by the direction to them. None outside the map is.
#[derive(Clone, Copy)]
pub struct Ring {
    pub n: bool,
    pub ne: bool,
    pub e: bool,
    pub se: bool,
    pub s: bool,
    pub sw: bool,
    pub w: bool,
    pub nw: bool,
}

impl Ring {
    /// Reads the cells around a free cell.
    #[inline(always)]
    pub fn of<T: Terrain>(t: &T, at: Cell) -> Ring
        requires free { is_free (T.grid t.now) at ≡ true }
        requires whole { IsGrid (T.grid t.now) }
        ensures { (d : _) → spec.is_free_on result d ≡ moves.is_open (T.grid t.now) at d }
    {
        Ring {
            n: t.open(at, Dir::N),
            ne: t.open(at, Dir::NE),
            e: t.open(at, Dir::E),
            se: t.open(at, Dir::SE),
            s: t.open(at, Dir::S),
            sw: t.open(at, Dir::SW),
            w: t.open(at, Dir::W),
            nw: t.open(at, Dir::NW),
        }
    }

    /// Whether the cell in this direction is free.
    #[inline(always)]
    pub fn is_free(self, d: Dir) -> bool
        ensures { result ≡ spec.is_free_on self d }
    {
        match d {
            Dir::N => self.n,
            Dir::NE => self.ne,
            Dir::E => self.e,
            Dir::SE => self.se,
            Dir::S => self.s,
            Dir::SW => self.sw,
            Dir::W => self.w,
            Dir::NW => self.nw,
        }
    }

    /// Whether the move in this direction is legal, from a free cell. Of the cells beside a diagonal move the
    /// one on the row comes first: in that order the compiler makes the shorter vector code of it.
    #[inline(always)]
    pub fn can_move(self, rule: Corner, d: Dir) -> bool
        ensures { result ≡ spec.leads_on rule self d }
    {
        match d {
            Dir::N => self.n,
            Dir::NE => self.ne & is_passable(rule, self.e, self.n),
            Dir::E => self.e,
            Dir::SE => self.se & is_passable(rule, self.e, self.s),
            Dir::S => self.s,
            Dir::SW => self.sw & is_passable(rule, self.w, self.s),
            Dir::W => self.w,
            Dir::NW => self.nw & is_passable(rule, self.w, self.n),
        }
    }
}
