//! Sources of jumps: what a search over jump points asks of a grid, however the answers are found.

ghost use Rattle.std.specs.Prelude.{◌≡◌, ◌+◌, ◌≤◌, Option, IsTrue};
ghost use Rattle.grid_moves.specs.Grid.{GridData, IsGrid, is_free};
ghost use Rattle.pruning.specs.Allowed.{allowed_dirs};
ghost use Rattle.pruning.specs.Stop.{IsFirstStop};
ghost use Rattle.pruning.specs.Source.{StepsByCall, IsWithin, CanArrive};

use crate::{Arrival, Packed};
use arrayvec::ArrayVec;
use grid_moves::{Cell, Dir};
use std::sync::ledger::Ledger;
use steps::Steps;

/// A source of jumps.
///
/// A source says for which grids it stands; on each of these that meets a call's condition, the
/// answers are the rule's. One over a grid stands for that grid, one over tables for each grid whose
/// tables they are. Its calls count their steps, whatever a step of it is.
pub trait JumpSource {
    /// The grids for which the source stands.
    ghost StandsFor: { Self → GridData → Type 0 };

    /// How many steps one call of `stop` makes at most, and one of `allowed` or `allowed_word`, if that is
    /// known.
    ghost most: { Self → Option StepsByCall };

    /// How many steps each of these calls makes at least.
    ghost fewest: { Self → StepsByCall };

    /// The number of columns.
    fn width(&self) -> u16
        ensures is { (g : GridData) → StandsFor self.now g → result ≡ g.width }
        ensures whole { (g : GridData) → StandsFor self.now g → IsGrid g };

    /// The number of rows.
    fn height(&self) -> u16
        ensures is { (g : GridData) → StandsFor self.now g → result ≡ g.height }
        ensures whole { (g : GridData) → StandsFor self.now g → IsGrid g };

    /// After how many moves a jump from `at` in `d` stops, where `goal` is looked for: the least
    /// number, from 1, or `None` where the legal run ends first. The field says jump point.
    fn stop<L: Ledger>(&self, at: Cell, d: Dir, goal: Cell, steps: &mut Steps<L>) -> Option<u16>
        requires { (g : GridData) × StandsFor self.now g × IsTrue (is_free g at) × IsTrue (is_free g goal) }
        ensures first { (g : GridData) → StandsFor self.now g → IsTrue (is_free g at)
            → IsTrue (is_free g goal)
            → IsFirstStop g goal at d result }
        ensures most { IsWithin (most self.now) (λ known. known.stop) steps.old steps.new }
        ensures fewest { steps.old + (fewest self.now).stop ≤ steps.new };

    /// The allowed directions at `at`, in increasing order, in one word, which a search takes apart faster
    /// than a list.
    fn allowed_word<L: Ledger>(&self, at: Cell, by: Arrival, steps: &mut Steps<L>) -> Packed
        requires { (g : GridData) × StandsFor self.now g × IsTrue (is_free g at) × CanArrive g at by }
        ensures rule { (g : GridData) → StandsFor self.now g → IsTrue (is_free g at) → CanArrive g at by
            → result ≡ allowed_dirs g at by }
        ensures most { IsWithin (most self.now) (λ known. known.allowed) steps.old steps.new }
        ensures fewest { steps.old + (fewest self.now).allowed ≤ steps.new };

    /// The same in a list.
    fn allowed<L: Ledger>(&self, at: Cell, by: Arrival, steps: &mut Steps<L>) -> ArrayVec<Dir, 8>
        requires { (g : GridData) × StandsFor self.now g × IsTrue (is_free g at) × CanArrive g at by }
        ensures rule { (g : GridData) → StandsFor self.now g → IsTrue (is_free g at) → CanArrive g at by
            → result.items ≡ allowed_dirs g at by }
        ensures most { IsWithin (most self.now) (λ known. known.allowed) steps.old steps.new }
        ensures fewest { steps.old + (fewest self.now).allowed ≤ steps.new }
    {
        self.allowed_word(at, by, steps).to_list()
    }
}
