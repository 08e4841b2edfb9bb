//! The repair: straight entries first, and then the diagonal ones.

ghost use Rattle.std.specs.Prelude.{◌≡◌, ◌+◌, ◌*◌, ◌<◌, ◌≤◌, true, [], length};
ghost use Rattle.grid_moves.specs.declared.Dir.{Dir};
ghost use Rattle.pruning.specs.Turns.{is_diagonal};
ghost use Rattle.table_repair.specs.Mending as spec;
ghost use Rattle.table_repair.specs.Mending.{AreReady, AreRight, AreSound, FollowBut, IsBlock, Mends};
ghost use Rattle.table_repair.specs.Mending.{MendsKind, any_cell, is_in};
ghost use Rattle.table_repair.specs.Mending.{is_in_reach, is_listed, is_straight, span_length};

use crate::span::{Span, span_next, widened};
use crate::sweep::{goes_down, goes_right, sweep};
use crate::walks::Walks;
use grid_moves::{Dir, Grid, Terrain};
use plus_tables::Tables;
use std::sync::ledger::Ledger;
use steps::Steps;

/// Makes the entries for these straight directions right that wait for the cells of the block; says how
/// many changed.
pub fn sweep_straight<L: Ledger>(
    tables: &mut Tables,
    grid: &Grid,
    rows: Span,
    columns: Span,
    dirs: &[Dir],
    steps: &mut Steps<L>,
) -> u64
    requires sound { AreSound grid.now tables.old }
    requires block { IsBlock grid.now rows columns }
    requires few { length dirs.now ≤ 4 }
    requires straight { (d : Dir) → is_listed dirs.now d ≡ true → is_straight d ≡ true }
    requires waits { (d : Dir) → is_straight d ≡ true
        → FollowBut grid.now tables.old d (is_in rows columns) }
    ensures mends { MendsKind grid.now is_straight (is_in rows columns) tables.old tables.new result }
    ensures right { (d : Dir) → is_listed dirs.now d ≡ true → AreRight grid.now tables.new d }
    ensures few { result ≤ 17592204918784 * length dirs.now }
    ensures steps { steps.new
        ≤ steps.old + result + length dirs.now * (span_length rows * span_length columns) }
    ensures later { steps.old ≤ steps.new }
{
    let mut walks = Walks::new();
    let mut changed = 0;
    for d in dirs {
        changed += sweep(tables, grid, &mut walks, rows, columns, *d, steps);
    }
    changed
}

// The columns of the block, and so many behind them.
fn columns_in_reach(grid: &Grid, columns: Span, by: u16, d: Dir) -> Span
    requires small { columns.end ≤ 4096 }
    requires few { by ≤ 4096 }
    ensures { result ≡ spec.widened (spec.goes_right d) columns by grid.now.width }
{
    widened(columns, goes_right(d), by, grid.width())
}

// So many rows behind those of the block.
fn rows_behind(grid: &Grid, rows: Span, by: u16, d: Dir) -> Span
    requires small { rows.end ≤ 4096 }
    requires few { by ≤ 4096 }
    ensures { result ≡ spec.span_next (spec.goes_down d) rows by grid.now.height }
{
    span_next(rows, goes_down(d), by, grid.height())
}

// Makes the entries for a diagonal direction right that wait for the cells of the block, or so many moves
// behind it in its rows and columns; says how many changed.
fn sweep_diagonal<L: Ledger>(
    tables: &mut Tables,
    grid: &Grid,
    walks: &mut Walks,
    rows: Span,
    columns: Span,
    by: u16,
    d: Dir,
    steps: &mut Steps<L>,
) -> u64
    requires ready { AreReady grid.now tables.old d }
    requires none { walks.old.items ≡ [] }
    requires diagonal { is_diagonal d ≡ true }
    requires block { IsBlock grid.now rows columns }
    requires by { by ≤ 4096 }
    requires waits { FollowBut grid.now tables.old d (is_in_reach grid.now rows columns by d) }
    ensures mends { Mends grid.now d any_cell tables.old tables.new result }
    ensures right { AreRight grid.now tables.new d }
    ensures none { walks.new.items ≡ [] }
    ensures few { result ≤ 35184409837568 }
    ensures steps { steps.new ≤ steps.old + result + 3 * (grid.now.width + grid.now.height) }
    ensures later { steps.old ≤ steps.new }
{
    let wide = columns_in_reach(grid, columns, by, d);
    let rear = rows_behind(grid, rows, by, d);
    let changed = sweep(tables, grid, walks, rows, wide, d, steps);
    changed + sweep(tables, grid, walks, rear, columns, d, steps)
}

/// Makes the entries for these diagonal directions right that wait in reach of the block; says how many
/// changed.
pub fn sweep_diagonals<L: Ledger>(
    tables: &mut Tables,
    grid: &Grid,
    rows: Span,
    columns: Span,
    by: u16,
    dirs: &[Dir],
    steps: &mut Steps<L>,
) -> u64
    requires sound { AreSound grid.now tables.old }
    requires block { IsBlock grid.now rows columns }
    requires by { by ≤ 4096 }
    requires few { length dirs.now ≤ 4 }
    requires diagonal { (d : Dir) → is_listed dirs.now d ≡ true → is_diagonal d ≡ true }
    requires beside { (d : Dir) → is_straight d ≡ true → AreRight grid.now tables.old d }
    requires waits { (d : Dir) → is_diagonal d ≡ true
        → FollowBut grid.now tables.old d (is_in_reach grid.now rows columns by d) }
    ensures mends { MendsKind grid.now is_diagonal any_cell tables.old tables.new result }
    ensures right { (d : Dir) → is_listed dirs.now d ≡ true → AreRight grid.now tables.new d }
    ensures few { result ≤ 35184409837568 * length dirs.now }
    ensures steps { steps.new
        ≤ steps.old + result + length dirs.now * (3 * (grid.now.width + grid.now.height)) }
    ensures later { steps.old ≤ steps.new }
{
    let mut walks = Walks::new();
    let mut changed = 0;
    for d in dirs {
        changed += sweep_diagonal(tables, grid, &mut walks, rows, columns, by, *d, steps);
    }
    changed
}
