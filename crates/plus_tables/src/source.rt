//! The tables of a grid as a source of jumps.

ghost use Rattle.std.specs.Prelude.{◌≡◌, ◌+◌, ◌≤◌, false, IsTrue, Some};
ghost use Rattle.grid_moves.specs.Grid.{GridData, is_free};
ghost use Rattle.pruning.specs.Source.{IsWithin};
ghost use Rattle.pruning.specs.Stop.{IsFirstStop};
ghost use Rattle.pruning.specs.Turns.{is_diagonal};
ghost use Rattle.plus_tables.specs.Tables.{AreTablesOf};

use crate::jumps::stop_read;
use crate::tables::Tables;
use crate::turns::allowed_read;
use grid_moves::{Cell, Dir};
use pruning::{Arrival, JumpSource, Packed};
use std::sync::ledger::Ledger;
use steps::Steps;

/// The jumps on a grid, read off its tables alone. A step is one entry that is read.
#[derive(Clone, Copy)]
pub struct PlusJumps<'a> {
    pub tables: &'a Tables,
}

impl<'a> JumpSource for PlusJumps<'a> {
    ghost StandsFor = { λ j g. AreTablesOf j.tables.now g };

    ghost most = { λ _. Some (record { stop = 2; allowed = 8 }) };

    ghost fewest = { λ _. record { stop = 1; allowed = 8 } };

    fn width(&self) -> u16 {
        self.tables.width()
    }

    fn height(&self) -> u16 {
        self.tables.height()
    }

    /// A straight jump reads one entry, a diagonal one at most two.
    fn stop<L: Ledger>(&self, at: Cell, d: Dir, goal: Cell, steps: &mut Steps<L>) -> Option<u16>
        requires { (g : GridData) × AreTablesOf self.now.tables.now g × IsTrue (is_free g at)
            × IsTrue (is_free g goal) }
        ensures first { (g : GridData) → AreTablesOf self.now.tables.now g → IsTrue (is_free g at)
            → IsTrue (is_free g goal) → IsFirstStop g goal at d result }
        ensures most { IsWithin (Some (record { stop = 2; allowed = 8 })) (λ known. known.stop)
            steps.old steps.new }
        ensures straight { is_diagonal d ≡ false → steps.new ≡ steps.old + 1 }
        ensures fewest { steps.old + 1 ≤ steps.new }
    {
        stop_read(self.tables, at, d, goal, steps)
    }

    // (asked in the search by either rule of states, so the compiler would not put it in by itself)
    #[inline(always)]
    #[tactic(auto, using(crate::proofs::Turning::allowed_by_tables, crate::proofs::Turning::before_on_map))]
    fn allowed_word<L: Ledger>(&self, at: Cell, by: Arrival, steps: &mut Steps<L>) -> Packed {
        allowed_read(self.tables, at, by, steps)
    }
}
