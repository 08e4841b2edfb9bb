//! Calls of any source of jumps, each with a counter of its own.

ghost use Rattle.std.specs.Prelude.{◌≡◌, ◌<◌, IsTrue};
ghost use Rattle.grid_moves.specs.Grid.{GridData, is_free};

use arrayvec::ArrayVec;
use grid_moves::{Cell, Dir};
use pruning::{Arrival, JumpSource};
use std::sync::ledger::{Blank, Ledger};
use steps::Steps;

/// After how many moves a jump stops.
pub fn stop_of<J: JumpSource, L: Ledger>(
    jumps: &J,
    at: Cell,
    d: Dir,
    goal: Cell,
    blank: Blank,
) -> Option<u16>
    requires name { blank.name ≡ L.name }
    requires parts { blank.parts ≡ L.parts }
    requires some { 0 < L.parts }
    requires stands { (g : GridData) × J.StandsFor jumps.now g × IsTrue (is_free g at)
        × IsTrue (is_free g goal) }
{
    let mut steps = Steps::<L>::new(blank);
    jumps.stop(at, d, goal, &mut steps)
}

/// The directions in which a search goes on from where it starts, and the same taken out of one word.
pub fn starts_of<J: JumpSource, L: Ledger>(
    jumps: &J,
    at: Cell,
    blank: Blank,
) -> (ArrayVec<Dir, 8>, ArrayVec<Dir, 8>)
    requires name { blank.name ≡ L.name }
    requires parts { blank.parts ≡ L.parts }
    requires some { 0 < L.parts }
    requires stands { (g : GridData) × J.StandsFor jumps.now g × IsTrue (is_free g at) }
{
    let mut steps = Steps::<L>::new(blank);
    let dirs = jumps.allowed(at, Arrival::Start, &mut steps);
    let word = jumps.allowed_word(at, Arrival::Start, &mut steps);
    (dirs, word.to_list())
}
