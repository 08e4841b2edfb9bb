//! States in 32 bits, ordered as their numbers are.

ghost use Rattle.std.specs.Prelude.{◌≡◌, ◌<◌};
ghost use Rattle.best_first.specs.State.{place_of, state_of_place};

use crate::State;
use crate::state::number_of_arrival;
use grid_moves::{Cell, Dir, dir_of_number};

/// A state packed: 16 bits of its row, 12 of its column and 4 of its arrival, from the highest on.
/// On one map the state of the lesser number has the lesser bits.
#[derive(Clone, Copy, Debug, PartialEq, Eq)]
pub struct Place {
    pub(crate) bits: u32,
}

impl Place {
    /// The place of a state.
    #[inline(always)]
    #[tactic(auto, unfolding(crate::specs::State::place_of))]
    pub(crate) fn of(state: State) -> Place
        requires { state.cell.x < 4096 }
        ensures { result ≡ place_of state }
    {
        Place {
            bits: u32::from(state.cell.y) * 65536
                + (u32::from(state.cell.x) * 16 + u32::from(number_of_arrival(state.arrival))),
        }
    }

    /// The cell of the state.
    #[inline(always)]
    #[tactic(auto, unfolding(crate::specs::State::state_of_place))]
    pub fn cell(self) -> Cell
        ensures { result ≡ (state_of_place self).cell }
    {
        Cell {
            x: (self.bits / 16 % 4096) as u16,
            y: (self.bits / 65536) as u16,
        }
    }

    /// The state's arrival.
    #[inline(always)]
    #[tactic(auto, unfolding(crate::specs::State::state_of_place))]
    pub fn arrival(self) -> Option<Dir>
        ensures { result ≡ (state_of_place self).arrival }
    {
        dir_of_number(self.bits as usize % 16)
    }
}
