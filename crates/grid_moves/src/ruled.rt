//! Rules by numbers, and a grid of which the compiler knows the corner rule.

ghost use Rattle.std.specs.Prelude.{◌≡◌};
ghost use Rattle.grid_moves.specs.Ruled.{rule_of_number as rule_numbered, ruled_by};

use crate::{Cell, Corner, Dir, Terrain};

/// The rule of this number, so that it can be a constant of a function, which has code of its own for each: 0
/// is `never`, 1 is `one`, any other `both`.
#[inline(always)]
pub fn rule_of_number(number: usize) -> Corner
    ensures { result ≡ rule_numbered number }
{
    match number {
        0 => Corner::Never,
        1 => Corner::One,
        _ => Corner::Both,
    }
}

/// A grid under the rule of this number, which is a constant in all that is done on it.
#[derive(Drop)]
pub struct Ruled<'a, const RULE: usize, T: Terrain> {
    pub terrain: &'a T,
}

impl<'a, const RULE: usize, T: Terrain> Terrain for Ruled<'a, RULE, T> {
    ghost grid = { λ r. ruled_by (rule_numbered RULE) (T.grid r.terrain.now) };

    ghost place_of = { λ r c. T.place_of r.terrain.now c };

    #[inline(always)]
    fn width(&self) -> u16 {
        self.terrain.width()
    }

    #[inline(always)]
    fn height(&self) -> u16 {
        self.terrain.height()
    }

    #[inline(always)]
    fn corner(&self) -> Corner {
        rule_of_number(RULE)
    }

    #[inline(always)]
    fn free(&self, c: Cell) -> bool {
        self.terrain.free(c)
    }

    #[inline(always)]
    fn place(&self, c: Cell) -> usize {
        self.terrain.place(c)
    }

    #[inline(always)]
    fn place_ahead(&self, place: usize, c: Cell, d: Dir) -> usize {
        self.terrain.place_ahead(place, c, d)
    }

    #[inline(always)]
    fn open_by(&self, place: usize, c: Cell, d: Dir) -> bool {
        self.terrain.open_by(place, c, d)
    }

    #[inline(always)]
    fn read_row(&self, y: u16, row: &mut [bool]) {
        self.terrain.read_row(y, row)
    }
}
