//! Bits of a grid as a source of jumps.

ghost use Rattle.std.specs.Prelude.{◌≡◌, ◌+◌, ◌≤◌, false, true, IsTrue, None};
ghost use Rattle.grid_moves.specs.Grid.{GridData, is_free};
ghost use Rattle.pruning.specs.Allowed.{allowed_dirs};
ghost use Rattle.pruning.specs.First as first;
ghost use Rattle.grid_moves.specs.Ruled as ruled;
ghost use Rattle.pruning.specs.Source.{CanArrive, IsWithin};
ghost use Rattle.pruning.specs.Stop.{IsFirstStop};
ghost use Rattle.pruning.specs.Turns.{is_diagonal};
ghost use Rattle.jump_block.specs.Scan.{most_lanes};
ghost use Rattle.bit_grid.specs.Bits.{AreBitsOf};
ghost use Rattle.jump_block.specs.Source.{AreItsBits, JumpsOnEach, JumpsOnSome, OnEach, OnSome, Stops};
ghost use Rattle.jump_block.specs.Source.{is_forward, is_back, diagonal_of, is_toward, scanned};

use crate::diagonal::{diagonal_of, is_toward};
use crate::straight::{Axis, Bits};
use crate::word::Way;
use bit_grid::BitGrid;
use grid_moves::{Cell, Corner, Dir, rule_of_number};
use pruning::{Arrival, JumpSource, Packed};
use std::sync::ledger::Ledger;
use steps::Steps;

/// The jumps on a grid, found by its bits alone. A step is the reading of one block, or of one word of it; no
/// memory is taken.
#[derive(Clone, Copy)]
pub struct BlockJumps<'a> {
    pub bits: &'a BitGrid,
}

impl<'a> Bits<'a> {
    // The same, where the rule is a constant.
    #[inline(always)]
    fn under<const RULE: usize>(&self) -> Bits<'a>
        requires { self.now.corner ≡ ruled.rule_of_number RULE }
        ensures { result ≡ self.now }
    {
        Bits {
            rows: self.rows,
            columns: self.columns,
            corner: rule_of_number(RULE),
        }
    }

    // A diagonal jump, under a rule and in a direction that the compiler knows. It is a function of its own,
    // so that others, which are short, keep clear of its many registers. A jump that leads elsewhere than to
    // where the goal lies has a loop of its own too, in which no cell is compared with the goal.
    #[inline(never)]
    fn diagonal_by<
        const RULE: usize,
        const EAST: bool,
        const SOUTH: bool,
        const AIMED: bool,
        L: Ledger,
    >(&self, at: Cell, goal: Cell, steps: &mut Steps<L>) -> Option<u16>
        requires rule { self.now.corner ≡ ruled.rule_of_number RULE }
        requires stands { OnSome self.now at }
        requires aside { AIMED ≡ false → is_toward (diagonal_of EAST SOUTH) at goal ≡ false }
        ensures first { OnEach self.now at
            (λ g. result ≡ first.first_stop g goal at (diagonal_of EAST SOUTH)) }
        ensures fewest { steps.old + 3 ≤ steps.new }
    {
        let bits = self.under::<RULE>();
        bits.diagonal::<RULE, AIMED, L>(at, diagonal_of(EAST, SOUTH), goal, steps)
    }

    // The same, for any goal.
    #[inline(always)]
    fn diagonal_stop<const RULE: usize, const EAST: bool, const SOUTH: bool, L: Ledger>(
        &self,
        at: Cell,
        goal: Cell,
        steps: &mut Steps<L>,
    ) -> Option<u16>
        requires rule { self.now.corner ≡ ruled.rule_of_number RULE }
        requires stands { OnSome self.now at }
        ensures first { OnEach self.now at
            (λ g. result ≡ first.first_stop g goal at (diagonal_of EAST SOUTH)) }
        ensures fewest { steps.old + 3 ≤ steps.new }
    {
        if is_toward(diagonal_of(EAST, SOUTH), at, goal) {
            self.diagonal_by::<RULE, EAST, SOUTH, true, L>(at, goal, steps)
        } else {
            self.diagonal_by::<RULE, EAST, SOUTH, false, L>(at, goal, steps)
        }
    }

    // A straight jump along the goal's row or column. Few are, so it is out of line.
    #[inline(never)]
    fn straight_by<const RULE: usize, L: Ledger>(
        &self,
        at: Cell,
        d: Dir,
        goal: Cell,
        steps: &mut Steps<L>,
    ) -> Option<u16>
        requires rule { self.now.corner ≡ ruled.rule_of_number RULE }
        requires straight { is_diagonal d ≡ false }
        requires stands { OnSome self.now at }
        ensures stops { OnEach self.now at (λ g. Stops g goal at d steps.old steps.new result) }
        ensures fewest { steps.old + 3 ≤ steps.new }
    {
        let bits = self.under::<RULE>();
        match d {
            Dir::N => bits.straight::<RULE, L>(at, Axis::Column, Way::Back, goal, steps),
            Dir::E => bits.straight::<RULE, L>(at, Axis::Row, Way::Forward, goal, steps),
            Dir::S => bits.straight::<RULE, L>(at, Axis::Column, Way::Forward, goal, steps),
            _ => bits.straight::<RULE, L>(at, Axis::Row, Way::Back, goal, steps),
        }
    }

    // After how many moves a jump stops, under such a rule. Each direction has code of its own, in which
    // it is a constant too. A straight jump looks for the goal only along the goal's row or column.
    #[inline(never)]
    fn stop_by<const RULE: usize, L: Ledger>(
        &self,
        at: Cell,
        d: Dir,
        goal: Cell,
        steps: &mut Steps<L>,
    ) -> Option<u16>
        requires rule { self.now.corner ≡ ruled.rule_of_number RULE }
        requires stands { OnSome self.now at }
        ensures first { OnEach self.now at (λ g. result ≡ first.first_stop g goal at d) }
        ensures most { is_diagonal d ≡ false → OnEach self.now at
            (λ g. steps.new ≤ steps.old + most_lanes (scanned g at d result)) }
        ensures fewest { steps.old + 3 ≤ steps.new }
    {
        match d {
            Dir::N if at.x != goal.x => self.mark::<false, RULE, L>(at, Axis::Column, steps),
            Dir::E if at.y != goal.y => self.mark::<true, RULE, L>(at, Axis::Row, steps),
            Dir::S if at.x != goal.x => self.mark::<true, RULE, L>(at, Axis::Column, steps),
            Dir::W if at.y != goal.y => self.mark::<false, RULE, L>(at, Axis::Row, steps),
            Dir::N | Dir::E | Dir::S | Dir::W => self.straight_by::<RULE, L>(at, d, goal, steps),
            Dir::NE => self.diagonal_stop::<RULE, true, false, L>(at, goal, steps),
            Dir::SE => self.diagonal_stop::<RULE, true, true, L>(at, goal, steps),
            Dir::SW => self.diagonal_stop::<RULE, false, true, L>(at, goal, steps),
            Dir::NW => self.diagonal_stop::<RULE, false, false, L>(at, goal, steps),
        }
    }

    // After how many moves a jump stops.
    #[inline(always)]
    fn stop<L: Ledger>(&self, at: Cell, d: Dir, goal: Cell, steps: &mut Steps<L>) -> Option<u16>
        requires stands { OnSome self.now at }
        ensures first { OnEach self.now at (λ g. result ≡ first.first_stop g goal at d) }
        ensures most { is_diagonal d ≡ false → OnEach self.now at
            (λ g. steps.new ≤ steps.old + most_lanes (scanned g at d result)) }
        ensures fewest { steps.old + 3 ≤ steps.new }
    {
        match self.corner {
            Corner::Never => self.stop_by::<0, L>(at, d, goal, steps),
            Corner::One => self.stop_by::<1, L>(at, d, goal, steps),
            Corner::Both => self.stop_by::<2, L>(at, d, goal, steps),
        }
    }
}

impl<'a> BlockJumps<'a> {
    // What the jumps read of the bits.
    #[inline(always)]
    fn lines(&self) -> Bits<'a>
        ensures { (g : GridData) → AreBitsOf self.now.bits.now g
            → AreItsBits result g }
    {
        Bits {
            rows: self.bits.rows(),
            columns: self.bits.columns(),
            corner: self.bits.corner(),
        }
    }

    /// After how many moves a jump to the east or to the south stops: the first stop.
    ///
    /// Let `k` be that number, or, where there is no stop, the length of the legal run and one. It reads at
    /// most `3·(k/512 + 2)` blocks, as `stop` does.
    pub fn scan_forward<L: Ledger>(
        &self,
        at: Cell,
        d: Dir,
        goal: Cell,
        steps: &mut Steps<L>,
    ) -> Option<u16>
        requires stands { JumpsOnSome self.now.bits.now at goal }
        requires forward { is_forward d ≡ true }
        ensures first { JumpsOnEach self.now.bits.now at goal (λ g. IsFirstStop g goal at d result) }
        ensures most { JumpsOnEach self.now.bits.now at goal
            (λ g. steps.new ≤ steps.old + most_lanes (scanned g at d result)) }
        ensures fewest { steps.old + 3 ≤ steps.new }
    {
        self.stop(at, d, goal, steps)
    }

    /// After how many moves a jump to the west or to the north stops: the first stop.
    ///
    /// Let `k` be that number, or, where there is no stop, the length of the legal run and one. It reads at
    /// most `3·(k/512 + 2)` blocks, as `stop` does.
    pub fn scan_back<L: Ledger>(
        &self,
        at: Cell,
        d: Dir,
        goal: Cell,
        steps: &mut Steps<L>,
    ) -> Option<u16>
        requires stands { JumpsOnSome self.now.bits.now at goal }
        requires back { is_back d ≡ true }
        ensures first { JumpsOnEach self.now.bits.now at goal (λ g. IsFirstStop g goal at d result) }
        ensures most { JumpsOnEach self.now.bits.now at goal
            (λ g. steps.new ≤ steps.old + most_lanes (scanned g at d result)) }
        ensures fewest { steps.old + 3 ≤ steps.new }
    {
        self.stop(at, d, goal, steps)
    }
}

impl<'a> JumpSource for BlockJumps<'a> {
    ghost StandsFor = { λ j g. AreBitsOf j.bits.now g };

    ghost most = { λ _. None };

    ghost fewest = { λ _. record { stop = 3; allowed = 3 } };

    fn width(&self) -> u16 {
        self.bits.width()
    }

    fn height(&self) -> u16 {
        self.bits.height()
    }

    /// A straight jump reads at most `3·(k/512 + 2)` blocks. Let `k` be the number of moves to the stop, or,
    /// where there is no stop, the length of the legal run and one.
    fn stop<L: Ledger>(&self, at: Cell, d: Dir, goal: Cell, steps: &mut Steps<L>) -> Option<u16>
        requires { JumpsOnSome self.now.bits.now at goal }
        ensures first { JumpsOnEach self.now.bits.now at goal (λ g. IsFirstStop g goal at d result) }
        ensures most { IsWithin None (λ known. known.stop) steps.old steps.new }
        ensures straight { is_diagonal d ≡ false → JumpsOnEach self.now.bits.now at goal
            (λ g. steps.new ≤ steps.old + most_lanes (scanned g at d result)) }
        ensures fewest { steps.old + 3 ≤ steps.new }
    {
        self.lines().stop(at, d, goal, steps)
    }

    /// Reads nine words at most.
    // (asked in the search by either rule of states, so the compiler would not put it in by itself)
    #[inline(always)]
    fn allowed_word<L: Ledger>(&self, at: Cell, by: Arrival, steps: &mut Steps<L>) -> Packed
        requires { (g : GridData) × AreBitsOf self.now.bits.now g × IsTrue (is_free g at)
            × CanArrive g at by }
        ensures rule { (g : GridData) → AreBitsOf self.now.bits.now g → IsTrue (is_free g at)
            → CanArrive g at by → result ≡ allowed_dirs g at by }
        ensures most { IsWithin None (λ known. known.allowed) steps.old steps.new }
        ensures words { steps.new ≤ steps.old + 9 }
        ensures fewest { steps.old + 3 ≤ steps.new }
    {
        let eight = self.lines().eight(at, steps);
        self.bits.allowed_table().allowed(eight, by)
    }
}
