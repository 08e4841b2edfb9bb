//! Sweeps: all the cells of a block, line by line, from the far end.
//!
//! Lines lie across a direction, so that no cell of a line lies ahead of another. Walks begin in each line
//! when those under way have come to it: then all stand in one line, and keep abreast.

ghost use Rattle.std.specs.Prelude.{◌≡◌, ◌+◌, ◌*◌, ◌<◌, ◌≤◌, true, [], length};
ghost use Rattle.grid_moves.specs.declared.Cell.{Cell};
ghost use Rattle.table_repair.specs.Lines as spec;
ghost use Rattle.table_repair.specs.Lines.{is_across, is_on_line, lines_of, places_of};
ghost use Rattle.table_repair.specs.Mending as mending;
ghost use Rattle.table_repair.specs.Mending.{IsRight, AreReady, CanSweep, Mends, Sweeps, either, is_in};
ghost use Rattle.table_repair.specs.Mending.{span_length};
ghost use Rattle.table_repair.specs.Abreast.{AreStanding, IsBehindOne, KeepAbreast, is_at_one, no_cell};

use crate::span::{Span, take_far};
use crate::walks::{Walks, begin, lead_on, lead_out};
use grid_moves::{Cell, Dir, Grid};
use plus_tables::Tables;
use std::sync::ledger::Ledger;
use steps::Steps;

// Whether the columns rise along the direction.
pub fn goes_right(d: Dir) -> bool
    ensures { result ≡ mending.goes_right d }
{
    matches!(d, Dir::NE | Dir::E | Dir::SE)
}

// Whether the rows rise along the direction.
pub fn goes_down(d: Dir) -> bool
    ensures { result ≡ mending.goes_down d }
{
    matches!(d, Dir::SE | Dir::S | Dir::SW)
}

// Whether the direction leads along a row, so that columns lie across it; else rows do.
fn is_sideways(d: Dir) -> bool
    ensures { result ≡ spec.is_sideways d }
{
    matches!(d, Dir::E | Dir::W)
}

// Whether the numbers of the lines rise along the direction.
fn lines_rise(d: Dir) -> bool
    ensures { result ≡ spec.lines_rise d }
{
    if is_sideways(d) {
        goes_right(d)
    } else {
        goes_down(d)
    }
}

// The cell in a line across the direction.
#[inline(always)]
fn cell_on(d: Dir, line: u16, place: u16) -> Cell
    ensures { result ≡ spec.cell_on d line place }
{
    if is_sideways(d) {
        Cell { x: line, y: place }
    } else {
        Cell { x: place, y: line }
    }
}

// Leads the walks that have come to this line one move back, and begins others at these places of it, whose
// entries are right; says how many entries changed.
fn enter_line<L: Ledger>(
    tables: &mut Tables,
    grid: &Grid,
    walks: &mut Walks,
    line: u16,
    places: Span,
    d: Dir,
    steps: &mut Steps<L>,
) -> u64
    requires standing { AreStanding grid.now tables.old d walks.old.items }
    requires short { length walks.old.items ≤ 255 }
    requires line { line < lines_of grid.now d }
    requires places { places.end ≤ places_of grid.now d }
    requires line_right { (w : Cell) → is_on_line d line places w ≡ true → IsRight grid.now tables.old w d }
    ensures abreast { KeepAbreast grid.now d (either (is_at_one walks.old.items) (is_on_line d line places))
        tables.old tables.new walks.new.items no_cell result }
    ensures behind { (w : Cell) → is_at_one walks.new.items w ≡ true
        → IsBehindOne d (either (is_at_one walks.old.items) (is_on_line d line places)) w }
    ensures short { length walks.new.items ≤ 255 }
    ensures few { result ≤ 4294971648 }
    ensures steps { steps.new + length walks.new.items
        ≤ steps.old + result + length walks.old.items + span_length places }
    ensures later { steps.old ≤ steps.new }
{
    lead_on(tables, grid, walks, d, steps);
    let mut changed = walks.len() as u64;
    for place in places.first..places.end {
        changed = begin(
            tables,
            grid,
            walks,
            cell_on(d, line, place),
            d,
            changed,
            steps,
        );
    }
    changed
}

// Makes the entries for `d` right that wait for the cells at these places of these lines across it; says how
// many changed. No walk stands before it, and none after it.
fn sweep_lines<L: Ledger>(
    tables: &mut Tables,
    grid: &Grid,
    walks: &mut Walks,
    lines: Span,
    places: Span,
    d: Dir,
    steps: &mut Steps<L>,
) -> u64
    requires ready { AreReady grid.now tables.old d }
    requires none { walks.old.items ≡ [] }
    requires lines { lines.end ≤ lines_of grid.now d }
    requires places { places.end ≤ places_of grid.now d }
    requires waits { CanSweep grid.now tables.old d (is_across d lines places) }
    ensures mends { Mends grid.now d (is_across d lines places) tables.old tables.new result }
    ensures sweeps { Sweeps grid.now d (is_across d lines places) tables.old tables.new }
    ensures none { walks.new.items ≡ [] }
    ensures few { result ≤ 4294971648 * span_length lines + 1048576 }
    ensures steps { steps.new ≤ steps.old + result + span_length lines * span_length places }
    ensures later { steps.old ≤ steps.new }
{
    let mut left = lines;
    let mut changed = 0;
    while let Some(line) = take_far(&mut left, lines_rise(d)) {
        changed += enter_line(tables, grid, walks, line, places, d, steps);
    }
    changed + lead_out(tables, grid, walks, d, steps)
}

/// Makes the entries for `d` right that wait for the cells of these rows and columns; says how many
/// changed. No walk stands before it, and none after it.
pub fn sweep<L: Ledger>(
    tables: &mut Tables,
    grid: &Grid,
    walks: &mut Walks,
    rows: Span,
    columns: Span,
    d: Dir,
    steps: &mut Steps<L>,
) -> u64
    requires ready { AreReady grid.now tables.old d }
    requires none { walks.old.items ≡ [] }
    requires rows { rows.end ≤ grid.now.height }
    requires columns { columns.end ≤ grid.now.width }
    requires waits { CanSweep grid.now tables.old d (is_in rows columns) }
    ensures mends { Mends grid.now d (is_in rows columns) tables.old tables.new result }
    ensures sweeps { Sweeps grid.now d (is_in rows columns) tables.old tables.new }
    ensures none { walks.new.items ≡ [] }
    ensures few { result ≤ 17592204918784 }
    ensures steps { steps.new ≤ steps.old + result + span_length rows * span_length columns }
    ensures later { steps.old ≤ steps.new }
{
    if is_sideways(d) {
        sweep_lines(tables, grid, walks, columns, rows, d, steps)
    } else {
        sweep_lines(tables, grid, walks, rows, columns, d, steps)
    }
}
