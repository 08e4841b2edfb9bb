//! The lines of the goal boxes of one cell.

ghost use Rattle.std.specs.Prelude.{◌≡◌, ◌++◌, true, IfOk, OnOk, None};
ghost use Rattle.goal_boxes.specs.Box.{box_in};
ghost use Rattle.grid_moves.specs.Layers.{is_free_ground};
ghost use Rattle.grid_answers.specs.BoxLines as spec;
ghost use Rattle.grid_answers.specs.OfCell.{why_untold};
ghost use Rattle.cell_lines.specs.Cells.{texts_of};

use crate::NoMemory;
use crate::cell::free_cell;
use cell_lines::dir_text;
use goal_boxes::{Area, CellBoxes, boxes_of};
use grid_moves::{ALL_DIRS, Cell, Dir, Layers};
use std::alloc::Global;
use text_line::{put, put_number};

// Appends a box by its four numbers, or that there is none.
fn put_area(out: &mut Vec<u8>, area: Option<Area>) -> Result<(), NoMemory>
    ensures { OnOk result (out.new.items ≡ out.old.items ++ spec.area_text area) }
{
    match area {
        None => put(out, b"none"),
        Some(area) => {
            put_number(out, u64::from(area.x0))?;
            put(out, b" ")?;
            put_number(out, u64::from(area.y0))?;
            put(out, b" ")?;
            put_number(out, u64::from(area.x1))?;
            put(out, b" ")?;
            put_number(out, u64::from(area.y1))
        }
    }
}

// Appends the line of the box in a direction.
fn put_box(out: &mut Vec<u8>, boxes: CellBoxes, d: Dir) -> Result<(), NoMemory>
    ensures { OnOk result (out.new.items ≡ out.old.items ++ spec.box_line (box_in boxes) d) }
{
    put(out, b"box ")?;
    put(out, dir_text(d))?;
    put(out, b" ")?;
    put_area(out, boxes.toward(d))?;
    put(out, b"\n")
}

// Appends a line for each of these directions.
fn put_boxes(out: &mut Vec<u8>, boxes: CellBoxes, dirs: &[Dir]) -> Result<(), NoMemory>
    ensures { OnOk result
        (out.new.items ≡ out.old.items ++ texts_of (spec.box_line (box_in boxes)) dirs.now) }
{
    for d in dirs {
        put_box(out, boxes, *d)?;
    }
    Ok(())
}

// The lines of all eight boxes.
fn lines_of(alloc: Global, boxes: CellBoxes) -> Result<Vec<u8>, NoMemory>
    ensures { IfOk result (λ text. text.items ≡ spec.boxes_text (box_in boxes)) }
{
    let mut text = Vec::new(alloc);
    put_boxes(&mut text, boxes, &ALL_DIRS)?;
    Ok(text)
}

// The lines of the boxes of a free cell, by one pass.
fn boxes_from(alloc: Global, layers: &Layers, from: Cell) -> Result<Vec<u8>, NoMemory>
    requires free { is_free_ground layers.now from ≡ true }
    requires told { why_untold layers.now from ≡ None }
    ensures { IfOk result (λ text. text.items ≡ spec.boxes_answer layers.now from) }
{
    let boxes = boxes_of(alloc, layers.query_grid(from), from)?;
    lines_of(alloc, boxes)
}

/// What is printed of the boxes of the cell of this column and row, by one pass over the grid of the cell.
pub fn boxes_at(alloc: Global, layers: &Layers, x: u32, y: u32) -> Result<Vec<u8>, NoMemory>
    ensures { IfOk result (λ text. text.items ≡ spec.boxes_answer layers.now (record { x = x; y = y })) }
{
    match free_cell(layers, x, y) {
        Ok(from) => boxes_from(alloc, layers, from),
        Err(line) => Vec::from_slice(alloc, line),
    }
}
