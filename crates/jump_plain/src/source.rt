//! A grid as a source of jumps.

ghost use Rattle.std.specs.Prelude.{◌≡◌, Some};

use crate::jump::first_stop;
use grid_moves::{Cell, Dir, Terrain};
use pruning::{Arrival, JumpSource, Packed, allowed_word};
use std::sync::ledger::Ledger;
use steps::Steps;

/// The jumps on a grid, found cell by cell. They stand for that grid, count no step and take no memory.
#[derive(Clone, Copy)]
pub struct PlainJumps<'a, T: Terrain> {
    pub terrain: &'a T,
}

impl<'a, T: Terrain> JumpSource for PlainJumps<'a, T> {
    ghost StandsFor = { λ j g. T.grid j.terrain.now ≡ g };

    ghost most = { λ _. Some (record { stop = 0; allowed = 0 }) };

    ghost fewest = { λ _. record { stop = 0; allowed = 0 } };

    fn width(&self) -> u16 {
        self.terrain.width()
    }

    fn height(&self) -> u16 {
        self.terrain.height()
    }

    fn stop<L: Ledger>(&self, at: Cell, d: Dir, goal: Cell, _steps: &mut Steps<L>) -> Option<u16> {
        // (by the clause of `width` the grid is whole)
        let _whole = self.terrain.width();
        first_stop(self.terrain, at, d, goal)
    }

    // (asked in the search by either rule of states, so the compiler would not put it in by itself)
    #[inline(always)]
    fn allowed_word<L: Ledger>(&self, at: Cell, by: Arrival, _steps: &mut Steps<L>) -> Packed {
        allowed_word(self.terrain, at, by)
    }
}
