//! The allowed directions, read off tables.
//!
//! An entry is 0 exactly where no move is legal. So those at a cell tell which moves are legal, and which of
//! the cells beside it are blocked, as a straight move is legal where its end is free. Where no corner is
//! cut, the walls that count after a straight move stand behind the cell: the entries at the cell before tell
//! them. Where one may be, whether a move passes between the cells beside it follows from its entry, so that
//! one code serves each such rule.

ghost use Rattle.std.specs.Prelude.{◌≡◌, ◌+◌, ◌<◌, Bool, false, true};
ghost use Rattle.grid_moves.specs.Grid.{AreSides};
ghost use Rattle.grid_moves.specs.Move as moves;
ghost use Rattle.pruning.specs.Turns.{is_diagonal};
ghost use Rattle.plus_tables.specs.Reading as spec;
ghost use Rattle.plus_tables.specs.Tables.{entry_at, is_on};

use crate::jumps::cell_after;
use crate::tables::Tables;
use grid_moves::{Cell, Corner, Dir, Ring, may_cut, opposite};
use pruning::{Arrival, Packed, Side, allowed_on, is_dir, quarter, rear};
use std::sync::ledger::Ledger;
use steps::Steps;

// Whether a move is legal, which an entry other than 0 tells. One step.
#[inline(always)]
fn can_move<L: Ledger>(tables: &Tables, at: Cell, d: Dir, steps: &mut Steps<L>) -> bool
    requires at { is_on tables.now at ≡ true }
    ensures is { result ≡ spec.is_move (entry_at tables.now at d) }
    ensures step { steps.new ≡ steps.old + 1 }
{
    tables.entry(at, d, steps) != 0
}

/// A cell and a direction from it, whose entry tells whether the cell there is free.
#[derive(Clone, Copy)]
pub struct Sight {
    pub from: Cell,
    pub dir: Dir,
}

// From where the cell in direction `e` is seen after a straight move where no corner is cut: two cells lie
// behind, each beside the cell before.
#[inline(always)]
fn seen_past(at: Cell, d: Dir, e: Dir) -> Sight
    requires column { moves.column_after (moves.opposite d) 1 at.x < 65536 }
    requires row { moves.row_after (moves.opposite d) 1 at.y < 65536 }
    ensures is { result ≡ spec.seen_past at d e }
    ensures on { (on : Cell → Bool) → on at ≡ true → on (moves.cell_after (moves.opposite d) 1 at) ≡ true
        → on result.from ≡ true }
{
    let before = cell_after(opposite(d), 1, at);
    if is_dir(e, rear(Side::Right, d)) {
        Sight {
            from: before,
            dir: quarter(Side::Right, d),
        }
    } else if is_dir(e, rear(Side::Left, d)) {
        Sight {
            from: before,
            dir: quarter(Side::Left, d),
        }
    } else {
        Sight { from: at, dir: e }
    }
}

// Whether the cell in direction `e` is free, as far as the rule asks then. One step.
#[inline(always)]
fn is_free_past<L: Ledger>(tables: &Tables, at: Cell, d: Dir, e: Dir, steps: &mut Steps<L>) -> bool
    requires at { is_on tables.now at ≡ true }
    requires before { is_on tables.now (moves.cell_after (moves.opposite d) 1 at) ≡ true }
    requires sides { AreSides tables.now.width tables.now.height }
    ensures is { result ≡ spec.free_past (entry_at tables.now) at d e }
    ensures step { steps.new ≡ steps.old + 1 }
{
    let seen = seen_past(at, d, e);
    can_move(tables, seen.from, seen.dir, steps)
}

// The allowed directions after a straight move where no corner is cut, in increasing order. Eight steps.
#[inline(always)]
#[tactic(auto, using(crate::proofs::Turning::free_read_past))]
fn allowed_past<L: Ledger>(tables: &Tables, at: Cell, d: Dir, steps: &mut Steps<L>) -> Packed
    requires straight { is_diagonal d ≡ false }
    requires at { is_on tables.now at ≡ true }
    requires before { is_on tables.now (moves.cell_after (moves.opposite d) 1 at) ≡ true }
    requires sides { AreSides tables.now.width tables.now.height }
    ensures is { result ≡ spec.allowed_by Corner.Never (entry_at tables.now) at (Arrival.By d) }
    ensures steps { steps.new ≡ steps.old + 8 }
{
    let ring = Ring {
        n: is_free_past(tables, at, d, Dir::N, steps),
        ne: is_free_past(tables, at, d, Dir::NE, steps),
        e: is_free_past(tables, at, d, Dir::E, steps),
        se: is_free_past(tables, at, d, Dir::SE, steps),
        s: is_free_past(tables, at, d, Dir::S, steps),
        sw: is_free_past(tables, at, d, Dir::SW, steps),
        w: is_free_past(tables, at, d, Dir::W, steps),
        nw: is_free_past(tables, at, d, Dir::NW, steps),
    };
    allowed_on(Corner::Never, ring, Arrival::By(d))
}

// The allowed directions otherwise, in increasing order: each cell counts as free where the move to it is
// legal. The rule is one by which entries are read. Eight steps.
#[inline(always)]
#[tactic(auto, using(crate::proofs::Turning::free_read_here))]
fn allowed_here<L: Ledger>(
    corner: Corner,
    tables: &Tables,
    at: Cell,
    by: Arrival,
    steps: &mut Steps<L>,
) -> Packed
    requires at { is_on tables.now at ≡ true }
    requires here { spec.asks_behind corner by ≡ false }
    requires read_by { spec.read_rule corner ≡ corner }
    ensures is { result ≡ spec.allowed_by corner (entry_at tables.now) at by }
    ensures steps { steps.new ≡ steps.old + 8 }
{
    let ring = Ring {
        n: can_move(tables, at, Dir::N, steps),
        ne: can_move(tables, at, Dir::NE, steps),
        e: can_move(tables, at, Dir::E, steps),
        se: can_move(tables, at, Dir::SE, steps),
        s: can_move(tables, at, Dir::S, steps),
        sw: can_move(tables, at, Dir::SW, steps),
        w: can_move(tables, at, Dir::W, steps),
        nw: can_move(tables, at, Dir::NW, steps),
    };
    allowed_on(corner, ring, by)
}

// The same under the rule of the tables, after a straight move.
#[inline(always)]
#[tactic(auto, using(crate::proofs::Turning::allowed_cut, crate::proofs::Turning::allowed_uncut))]
fn allowed_ahead<L: Ledger>(tables: &Tables, at: Cell, d: Dir, steps: &mut Steps<L>) -> Packed
    requires straight { is_diagonal d ≡ false }
    requires at { is_on tables.now at ≡ true }
    requires before { is_on tables.now (moves.cell_after (moves.opposite d) 1 at) ≡ true }
    requires sides { AreSides tables.now.width tables.now.height }
    ensures is { result ≡ spec.allowed_by tables.now.corner (entry_at tables.now) at (Arrival.By d) }
    ensures steps { steps.new ≡ steps.old + 8 }
{
    if may_cut(tables.corner()) {
        allowed_here(Corner::Both, tables, at, Arrival::By(d), steps)
    } else {
        allowed_past(tables, at, d, steps)
    }
}

// And at the start or after a diagonal move.
#[inline(always)]
#[tactic(auto, using(crate::proofs::Turning::allowed_cut, crate::proofs::Turning::allowed_uncut))]
fn allowed_around<L: Ledger>(tables: &Tables, at: Cell, by: Arrival, steps: &mut Steps<L>) -> Packed
    requires at { is_on tables.now at ≡ true }
    requires here { spec.asks_behind Corner.Never by ≡ false }
    ensures is { result ≡ spec.allowed_by tables.now.corner (entry_at tables.now) at by }
    ensures steps { steps.new ≡ steps.old + 8 }
{
    if may_cut(tables.corner()) {
        allowed_here(Corner::Both, tables, at, by, steps)
    } else {
        allowed_here(Corner::Never, tables, at, by, steps)
    }
}

/// The allowed directions, in increasing order. Eight steps. Each arrival has code of its own, in which it is
/// a constant; reading what is not asked behind apart from what is keeps it small enough to be inlined.
// (A search by either rule of states asks it, so the compiler would not put it in by itself.)
#[inline(always)]
pub fn allowed_read<L: Ledger>(
    tables: &Tables,
    at: Cell,
    by: Arrival,
    steps: &mut Steps<L>,
) -> Packed
    requires at { is_on tables.now at ≡ true }
    requires before { spec.IsBeforeOn tables.now at by }
    requires sides { AreSides tables.now.width tables.now.height }
    ensures is { result ≡ spec.allowed_by tables.now.corner (entry_at tables.now) at by }
    ensures steps { steps.new ≡ steps.old + 8 }
{
    match by {
        Arrival::Start => allowed_around(tables, at, Arrival::Start, steps),
        Arrival::By(Dir::N) => allowed_ahead(tables, at, Dir::N, steps),
        Arrival::By(Dir::NE) => allowed_around(tables, at, Arrival::By(Dir::NE), steps),
        Arrival::By(Dir::E) => allowed_ahead(tables, at, Dir::E, steps),
        Arrival::By(Dir::SE) => allowed_around(tables, at, Arrival::By(Dir::SE), steps),
        Arrival::By(Dir::S) => allowed_ahead(tables, at, Dir::S, steps),
        Arrival::By(Dir::SW) => allowed_around(tables, at, Arrival::By(Dir::SW), steps),
        Arrival::By(Dir::W) => allowed_ahead(tables, at, Dir::W, steps),
        Arrival::By(Dir::NW) => allowed_around(tables, at, Arrival::By(Dir::NW), steps),
    }
}
