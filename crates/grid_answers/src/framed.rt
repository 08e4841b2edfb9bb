//! The costs from a cell, or the field of first moves to it, as one text, for a session: the map's sides
//! first, so that who reads knows how many lines follow.

ghost use Rattle.std.specs.Prelude.{◌≡◌, ◌++◌, true, IfOk, OnOk, map, None};
ghost use Rattle.std.specs.List.{concat, range_with_len};
ghost use Rattle.grid_moves.specs.Layers.{is_free_ground};
ghost use Rattle.grid_answers.specs.Framed as spec;
ghost use Rattle.grid_answers.specs.OfCell.{why_untold};
ghost use Rattle.grid_answers.specs.Printing.{printed_line};

use crate::NoMemory;
use crate::cell::free_cell;
use crate::costs::put_costs;
use cost_waves::CostWaves;
use grid_moves::{Cell, Grid, Layers, Terrain};
use move_field::put_field;
use std::alloc::Global;
use text_line::{put, put_number};

// Appends the line of this word and the grid's sides.
fn put_frame(out: &mut Vec<u8>, word: &[u8], grid: &Grid) -> Result<(), NoMemory>
    ensures { OnOk result (out.new.items ≡ out.old.items ++ spec.frame_line word.now grid.now) }
{
    put(out, word)?;
    put(out, b" ")?;
    put_number(out, u64::from(grid.width()))?;
    put(out, b" ")?;
    put_number(out, u64::from(grid.height()))?;
    put(out, b"\n")
}

// Appends the lines of the first rows, so many.
fn put_rows(out: &mut Vec<u8>, waves: &CostWaves, height: u16) -> Result<(), NoMemory>
    ensures { OnOk result (out.new.items ≡ out.old.items
        ++ concat (map (printed_line waves.now) (range_with_len 0 height))) }
{
    for y in 0..height {
        put_costs(out, waves, y)?;
    }
    Ok(())
}

// The text of a free cell, by one pass.
fn costs_text(alloc: Global, layers: &Layers, from: Cell) -> Result<Vec<u8>, NoMemory>
    requires free { is_free_ground layers.now from ≡ true }
    requires told { why_untold layers.now from ≡ None }
    ensures { IfOk result (λ text. text.items ≡ spec.framed_costs layers.now from) }
{
    let grid = layers.query_grid(from);
    let mut waves = CostWaves::new(alloc, grid.width(), grid.height())?;
    waves.pass(grid, from)?;
    let mut text = Vec::new(alloc);
    put_frame(&mut text, b"costs", grid)?;
    put_rows(&mut text, &waves, grid.height())?;
    Ok(text)
}

/// The costs from the cell of this column and row, by one pass over the grid of the cell,
/// or why there are none.
pub fn framed_costs(alloc: Global, layers: &Layers, x: u32, y: u32) -> Result<Vec<u8>, NoMemory>
    ensures { IfOk result (λ text. text.items ≡ spec.framed_costs layers.now (record { x = x; y = y })) }
{
    match free_cell(layers, x, y) {
        Ok(from) => costs_text(alloc, layers, from),
        Err(line) => {
            let text = Vec::from_slice(alloc, line)?;
            Ok(text)
        }
    }
}

// The field to a free cell, by one pass.
fn field_to(alloc: Global, layers: &Layers, to: Cell) -> Result<Vec<u8>, NoMemory>
    requires free { is_free_ground layers.now to ≡ true }
    requires told { why_untold layers.now to ≡ None }
    ensures { IfOk result (λ text. text.items ≡ spec.framed_field layers.now to) }
{
    let grid = layers.query_grid(to);
    let mut waves = CostWaves::new(alloc, grid.width(), grid.height())?;
    let mut text = Vec::new(alloc);
    put_frame(&mut text, b"field", grid)?;
    put_field(alloc, &mut waves, grid, to, &mut text)?;
    Ok(text)
}

/// The field of first moves to the cell of this column and row, by one pass over the grid of the cell,
/// or why there is none.
pub fn framed_field(alloc: Global, layers: &Layers, x: u32, y: u32) -> Result<Vec<u8>, NoMemory>
    ensures { IfOk result (λ text. text.items ≡ spec.framed_field layers.now (record { x = x; y = y })) }
{
    match free_cell(layers, x, y) {
        Ok(to) => field_to(alloc, layers, to),
        Err(line) => {
            let text = Vec::from_slice(alloc, line)?;
            Ok(text)
        }
    }
}
