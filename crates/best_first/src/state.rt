//! States: a cell and how it was come to.

ghost use Rattle.std.specs.Prelude.{◌≡◌, ◌<◌, ◌≤◌};
ghost use Rattle.best_first.specs.Space.{layout_by};
ghost use Rattle.best_first.specs.State.{arrival_number, state_number, start_at};

use grid_moves::{Cell, Dir, dir_number, number_of};

/// A state: a cell, and the direction in which it was come to, or `None` at the start of a search.
#[derive(Clone, Copy, Debug, PartialEq, Eq)]
pub struct State {
    pub cell: Cell,
    pub arrival: Option<Dir>,
}

/// Which states a cell has.
#[derive(Clone, Copy, Debug, PartialEq, Eq)]
pub enum Layout {
    /// One, the start's; a node's place tells besides in which direction it lies from its parent.
    ByCell,
    /// Nine: the start's, and one for each direction of arrival.
    ByArrival,
}

// The layout in which a cell has one state, or that in which it has nine: a constant where the answer is one.
#[inline(always)]
pub(crate) fn layout_by(by_cell: bool) -> Layout
    ensures { result ≡ layout_by by_cell }
{
    if by_cell {
        Layout::ByCell
    } else {
        Layout::ByArrival
    }
}

// The number of the direction, or 8 for the start.
pub(crate) fn number_of_arrival(arrival: Option<Dir>) -> u8
    ensures value { result ≡ arrival_number arrival }
    ensures small { result < 9 }
{
    match arrival {
        Some(d) => dir_number(d),
        None => 8,
    }
}

impl State {
    /// The state of a cell where a search starts.
    pub fn start(cell: Cell) -> State
        ensures { result ≡ start_at cell }
    {
        State {
            cell,
            arrival: None,
        }
    }

    /// The printed number on a map of this width: nine times the cell's, and the direction's, or 8
    /// for the start. Among equal sums the state of the lesser number is taken first.
    pub fn number(self, width: u16) -> u32
        requires column { self.cell.x < width }
        requires row { self.cell.y < 4096 }
        requires narrow { width ≤ 4096 }
        ensures { result ≡ state_number width self }
    {
        number_of(width, self.cell) * 9 + u32::from(number_of_arrival(self.arrival))
    }
}
