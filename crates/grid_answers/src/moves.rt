//! The lines of the first moves from one cell, in runs.

ghost use Rattle.std.specs.Prelude.{◌≡◌, ◌≤◌, ◌*◌, ◌<◌, ◌++◌, true, IfOk, OnOk, None};
ghost use Rattle.grid_moves.specs.Layers.{is_free_ground};
ghost use Rattle.grid_answers.specs.OfCell.{why_untold};
ghost use Rattle.grid_answers.specs.RunLines as spec;

use crate::NoMemory;
use crate::cell::free_cell;
use cell_lines::dir_text;
use cost_waves::CostWaves;
use first_moves::Row;
use grid_moves::{Cell, Dir, Layers, Terrain};
use std::alloc::Global;
use text_line::{put, put_number};

// The direction of a first move, or that there is none.
fn first_text(first: Option<Dir>) -> &'static [u8]
    ensures { result.now ≡ spec.first_text first }
{
    match first {
        None => b"-",
        Some(d) => dir_text(d),
    }
}

// Appends the line of a run, on a map of this width: its first cell, by its number, and its first move.
fn put_run(out: &mut Vec<u8>, width: u16, start: u32, first: Option<Dir>) -> Result<(), NoMemory>
    requires { 0 < width }
    ensures { OnOk result
        (out.new.items ≡ out.old.items ++ spec.run_line width (record { start = start; first = first })) }
{
    let width = u32::from(width);
    put(out, b"run ")?;
    put_number(out, u64::from(start % width))?;
    put(out, b",")?;
    put_number(out, u64::from(start / width))?;
    put(out, b" ")?;
    put(out, first_text(first))?;
    put(out, b"\n")
}

// Appends a line for each run of a row.
fn put_runs(out: &mut Vec<u8>, width: u16, row: &Row) -> Result<(), NoMemory>
    requires { 0 < width }
    ensures { OnOk result (out.new.items ≡ out.old.items ++ spec.runs_text width row.now) }
{
    for i in 0..row.runs() {
        let (start, first) = row.run_at(i);
        put_run(out, width, start, first)?;
    }
    Ok(())
}

// The lines of all runs of a row, on a map of this width.
fn lines_of(alloc: Global, width: u16, row: &Row) -> Result<Vec<u8>, NoMemory>
    requires { 0 < width }
    ensures { IfOk result (λ text. text.items ≡ spec.runs_text width row.now) }
{
    let mut text = Vec::new(alloc);
    put_runs(&mut text, width, row)?;
    Ok(text)
}

// The lines of the first moves from a free cell, by one pass.
fn moves_from(alloc: Global, layers: &Layers, from: Cell) -> Result<Vec<u8>, NoMemory>
    requires free { is_free_ground layers.now from ≡ true }
    requires told { why_untold layers.now from ≡ None }
    requires land { layers.now.land.height * layers.now.land.width ≤ 16384 }
    requires water { layers.now.water.height * layers.now.water.width ≤ 16384 }
    ensures { IfOk result (λ text. text.items ≡ spec.moves_answer layers.now from) }
{
    let grid = layers.query_grid(from);
    let mut waves = CostWaves::new(alloc, grid.width(), grid.height())?;
    let row = Row::of(alloc, &mut waves, grid, from)?;
    lines_of(alloc, grid.width(), &row)
}

/// What is printed of the first moves from the cell of this column and row, by one pass over the grid of the
/// cell. Both grids have at most 2^14 cells.
pub fn moves_at(alloc: Global, layers: &Layers, x: u32, y: u32) -> Result<Vec<u8>, NoMemory>
    requires land { layers.now.land.height * layers.now.land.width ≤ 16384 }
    requires water { layers.now.water.height * layers.now.water.width ≤ 16384 }
    ensures { IfOk result (λ text. text.items ≡ spec.moves_answer layers.now (record { x = x; y = y })) }
{
    match free_cell(layers, x, y) {
        Ok(from) => moves_from(alloc, layers, from),
        Err(line) => Vec::from_slice(alloc, line),
    }
}
