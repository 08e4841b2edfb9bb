//! Cells, directions and states, each by its text.

ghost use Rattle.std.specs.Prelude.{◌≡◌, ◌<◌, ◌++◌, OnOk, OnErr};
ghost use Rattle.cell_lines.specs.Cells as spec;
ghost use Rattle.text_line.specs.Writing.{Begins};

use crate::NoMemory;
use grid_moves::{Cell, Dir, dir_number};
use text_line::{put, put_number, whole_or_nothing};

/// Appends a cell: its column and its row, parted by a comma.
pub fn put_cell(out: &mut Vec<u8>, c: Cell) -> Result<(), NoMemory>
    ensures ok { OnOk result (out.new.items ≡ out.old.items ++ spec.cell_text c) }
    // For want of memory nothing is appended.
    ensures err { OnErr result (out.new.items ≡ out.old.items) }
{
    let before = out.len();
    let written = put_pair(out, c);
    whole_or_nothing(out, before, written)
}

// Appends the cell, or a first part of it where memory runs out.
fn put_pair(out: &mut Vec<u8>, c: Cell) -> Result<(), NoMemory>
    ensures ok { OnOk result (out.new.items ≡ out.old.items ++ spec.cell_text c) }
    ensures err { OnErr result (Begins out.old.items out.new.items) }
{
    put_number(out, u64::from(c.x))?;
    put(out, b",")?;
    put_number(out, u64::from(c.y))
}

/// Appends each cell after a blank.
pub fn put_points(out: &mut Vec<u8>, cells: &[Cell]) -> Result<(), NoMemory>
    ensures ok { OnOk result (out.new.items ≡ out.old.items ++ spec.texts_of spec.point_text cells.now) }
    // For want of memory nothing is appended.
    ensures err { OnErr result (out.new.items ≡ out.old.items) }
{
    let before = out.len();
    let written = put_each(out, cells);
    whole_or_nothing(out, before, written)
}

// Appends each cell after a blank, or a first part of that where memory runs out.
fn put_each(out: &mut Vec<u8>, cells: &[Cell]) -> Result<(), NoMemory>
    ensures ok { OnOk result (out.new.items ≡ out.old.items ++ spec.texts_of spec.point_text cells.now) }
    ensures err { OnErr result (Begins out.old.items out.new.items) }
{
    for c in cells {
        put_point(out, *c)?;
    }
    Ok(())
}

// Appends a blank and the cell, or a first part of that where memory runs out.
fn put_point(out: &mut Vec<u8>, c: Cell) -> Result<(), NoMemory>
    ensures ok { OnOk result (out.new.items ≡ out.old.items ++ spec.point_text c) }
    ensures err { OnErr result (Begins out.old.items out.new.items) }
{
    put(out, b" ")?;
    put_cell(out, c)
}

// The name of the direction in which a state was reached, by its number.
fn arrival_text(arrival: u32) -> &'static [u8]
    ensures { result.now ≡ spec.arrival_text arrival }
{
    match arrival {
        0 => b"N",
        1 => b"NE",
        2 => b"E",
        3 => b"SE",
        4 => b"S",
        5 => b"SW",
        6 => b"W",
        7 => b"NW",
        _ => b"-",
    }
}

/// The name of a direction.
pub fn dir_text(d: Dir) -> &'static [u8]
    ensures { result.now ≡ spec.dir_text d }
{
    arrival_text(u32::from(dir_number(d)))
}

/// Appends a blank and the state of this number, on a map of this width: its cell, and how it was come to.
pub fn put_state(out: &mut Vec<u8>, width: u16, state: u32) -> Result<(), NoMemory>
    requires { 0 < width }
    ensures ok { OnOk result (out.new.items ≡ out.old.items ++ spec.state_text width state) }
    // For want of memory nothing is appended.
    ensures err { OnErr result (out.new.items ≡ out.old.items) }
{
    let before = out.len();
    let written = put_parts(out, width, state);
    whole_or_nothing(out, before, written)
}

// Appends the state behind a blank, or a first part of that where memory runs out.
fn put_parts(out: &mut Vec<u8>, width: u16, state: u32) -> Result<(), NoMemory>
    requires { 0 < width }
    ensures ok { OnOk result (out.new.items ≡ out.old.items ++ spec.state_text width state) }
    ensures err { OnErr result (Begins out.old.items out.new.items) }
{
    let cell = state / 9;
    let width = u32::from(width);
    put(out, b" ")?;
    put_number(out, u64::from(cell % width))?;
    put(out, b",")?;
    put_number(out, u64::from(cell / width))?;
    put(out, b":")?;
    put(out, arrival_text(state % 9))
}
