//! The next cell of a run and whether it has a forced neighbour, read so that a direction which the compiler
//! knows makes all else known.

ghost use Rattle.std.specs.Prelude.{◌≡◌, false, true, Some};
ghost use Rattle.grid_moves.specs.Grid.{IsGrid, is_free};
ghost use Rattle.grid_moves.specs.Move.{legal_ahead};
ghost use Rattle.pruning.specs.Turns as turns;
ghost use Rattle.pruning.specs.Marked.{is_forced};

use grid_moves::{Cell, Dir, Terrain, may_cut};
use jump_plain::beside::{Sides, straight_ahead};
use jump_plain::jump::diagonal_ahead;
use pruning::{forced, is_diagonal};

// The cell ahead, exactly where the diagonal move to it is legal.
#[inline(always)]
#[tactic(auto, using(std::proofs::lemmas::Bool::Decides::nat_tests))]
fn next_aslant<T: Terrain>(t: &T, at: Cell, d: Dir) -> Option<Cell>
    requires diagonal { turns.is_diagonal d ≡ true }
    requires free { is_free (T.grid t.now) at ≡ true }
    requires whole { IsGrid (T.grid t.now) }
    ensures { result ≡ legal_ahead (T.grid t.now) at d }
{
    match diagonal_ahead(t, at, d, Sides::ahead(t, at, d)) {
        Some(next) => Some(next.cell),
        None => None,
    }
}

/// The cell ahead, exactly where the move to it is legal.
#[inline(always)]
pub fn next<T: Terrain>(t: &T, at: Cell, d: Dir) -> Option<Cell>
    requires whole { IsGrid (T.grid t.now) }
    ensures { result ≡ legal_ahead (T.grid t.now) at d }
{
    if !t.free(at) {
        None
    } else if is_diagonal(d) {
        next_aslant(t, at, d)
    } else {
        straight_ahead(t, at, d)
    }
}

/// Whether a neighbour is forced at the next cell, after the move to it.
#[inline(always)]
pub fn is_forced_next<T: Terrain>(t: &T, at: Cell, next: Cell, d: Dir) -> bool
    requires whole { IsGrid (T.grid t.now) }
    requires legal { legal_ahead (T.grid t.now) at d ≡ Some next }
    ensures { result ≡ is_forced (T.grid t.now) next d }
{
    if may_cut(t.corner()) {
        forced(t, next, d)
    } else if is_diagonal(d) {
        false
    } else {
        Sides::of(t, at, d).opens(Sides::of(t, next, d))
    }
}
