//! The calls of an object in memory: how many were made, which are to fail and how many did.

ghost use Rattle.std.specs.Prelude.{◌≡◌, ◌<◌};
ghost use Rattle.io_edge.specs.Causes.{raised};
ghost use Rattle.io_edge.specs.Memory.{first_pace, fails_next, amount};
ghost use Rattle.io_edge.specs.Calls.{pace_of};

use crate::outside::Failed;

/// How the calls are answered, and how many there were.
#[derive(Drop)]
pub struct Calls {
    pub piece: usize,
    pub failing: Vec<u64>,
    pub made: u64,
    pub faults: u64,
}

impl Calls {
    /// No call yet: each is to move at most `piece` bytes, and those numbered in `failing` fail.
    pub fn new(piece: usize, failing: Vec<u64>) -> Calls
        ensures { pace_of result ≡ first_pace piece failing.items }
    {
        Calls {
            piece,
            failing,
            made: 0,
            faults: 0,
        }
    }

    /// Counts a call, and tells whether it is to fail.
    pub fn begin(&mut self) -> bool
        ensures fails { result ≡ fails_next (pace_of self.old) }
        ensures counted { pace_of self.new ≡ record (pace_of self.old) { made = raised self.old.made } }
    {
        self.made = self.made.saturating_add(1);
        self.failing.contains(&self.made)
    }

    /// Counts a fault.
    pub fn fail(&mut self) -> Failed
        ensures { pace_of self.new ≡ record (pace_of self.old) { faults = raised self.old.faults } }
    {
        self.faults = self.faults.saturating_add(1);
        Failed
    }

    /// How many bytes a call moves, where `room` would fit and `there` are there.
    pub fn amount(&self, room: usize, there: usize) -> usize
        ensures { result ≡ amount (pace_of self.now) room there }
    {
        self.piece.min(room.min(there))
    }
}
