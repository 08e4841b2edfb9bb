//! Who tells the next cell on the way to a goal: rows of first moves that are kept, or a pass from the goal.
//!
//! Moves are symmetric, so a pass from the goal tells what the goal costs from each cell. A legal move begins
//! a least walk exactly where the goal costs less from the cell ahead, by what the move costs.

ghost use Rattle.std.specs.Prelude.{◌≡◌, ◌+◌, ◌<◌, true, IfSome};
ghost use Rattle.grid_moves.specs.declared.Cell.{Cell};
ghost use Rattle.grid_moves.specs.Grid.{GridData, is_inside};
ghost use Rattle.std.specs.List.{find};
ghost use Rattle.first_moves.specs.Follow.{IsNext};
ghost use Rattle.first_moves.specs.Inward as spec;
ghost use Rattle.first_moves.specs.Inward.{IsPassFrom, HasPass};
ghost use Rattle.first_moves.specs.Row.{AreMoves};

use crate::Moves;
use cost_waves::CostWaves;
use grid_moves::{ALL_DIRS, Cell, Dir, Terrain, move_cost, step};
use std::sync::ledger::Ledger;
use steps::Steps;

/// What tells first moves to a goal.
pub(crate) trait Guide {
    /// The grids and the goals for which it stands.
    ghost StandsFor: { Self → GridData → Cell → Type 0 };

    /// The cell to which the first move leads, `None` where there is none. It counts one step. `part` is
    /// what a guide remembers along a walk.
    fn next<T: Terrain, L: Ledger>(
        &self,
        t: &T,
        from: Cell,
        to: Cell,
        part: &mut Option<u32>,
        steps: &mut Steps<L>,
    ) -> Option<Cell>
        requires stands { StandsFor self.now (T.grid t.now) to }
        requires from { is_inside (T.grid t.now) from ≡ true }
        requires to { is_inside (T.grid t.now) to ≡ true }
        ensures next { IsNext (T.grid t.now) from to result }
        ensures inside { IfSome result (λ v. is_inside (T.grid t.now) v ≡ true) }
        ensures steps { steps.new ≡ steps.old + 1 };
}

/// Rows stand for all goals.
impl Guide for Moves {
    ghost StandsFor = { λ m g _. AreMoves g m };

    fn next<T: Terrain, L: Ledger>(
        &self,
        _t: &T,
        from: Cell,
        to: Cell,
        part: &mut Option<u32>,
        steps: &mut Steps<L>,
    ) -> Option<Cell> {
        self.next_near(from, to, part, steps)
    }
}

// Whether the move in a direction is legal and saves what it costs.
fn leads<T: Terrain>(t: &T, waves: &CostWaves, c: Cell, d: Dir) -> bool
    requires pass { HasPass (T.grid t.now) waves.now }
    requires inside { is_inside (T.grid t.now) c ≡ true }
    ensures { result ≡ spec.leads (T.grid t.now) waves.now c d }
{
    match step(t, c, d) {
        Some(v) => match (waves.cost(c), waves.cost(v)) {
            (Some(here), Some(there)) => there.add(move_cost(c, v)) == here,
            _ => false,
        },
        None => false,
    }
}

// The first of these directions that leads on.
fn first_leading<T: Terrain>(t: &T, waves: &CostWaves, c: Cell, dirs: &[Dir]) -> Option<Dir>
    requires pass { HasPass (T.grid t.now) waves.now }
    requires inside { is_inside (T.grid t.now) c ≡ true }
    ensures { result ≡ find (spec.leads (T.grid t.now) waves.now c) dirs.now }
{
    for d in dirs {
        if leads(t, waves, c, *d) {
            return Some(*d);
        }
    }
    None
}

/// A pass stands for its start alone.
impl Guide for CostWaves {
    ghost StandsFor = { λ w g to. IsPassFrom g to w };

    fn next<T: Terrain, L: Ledger>(
        &self,
        t: &T,
        from: Cell,
        _to: Cell,
        _part: &mut Option<u32>,
        steps: &mut Steps<L>,
    ) -> Option<Cell> {
        steps.tick();
        match first_leading(t, self, from, &ALL_DIRS) {
            Some(d) => step(t, from, d),
            None => None,
        }
    }
}
