//! Strokes over cells.

ghost use Rattle.std.specs.Prelude.{◌≡◌, ◌++◌, ◌*◌, ◌≤◌, ◌<◌, ◌==◌, ◌||◌, OnOk, [], ◌∷◌, codes, decimal};
ghost use Rattle.std.specs.Prelude.{length};
ghost use Rattle.std.specs.List.{list_any};
ghost use Rattle.map_text.specs.Writing.{rows_of};
ghost use Rattle.picture.specs.Grounds.{is_of, runs_of};
ghost use Rattle.picture.specs.Picture as spec;
ghost use Rattle.picture.specs.Strokes.{run_before};

use crate::NoMemory;
use crate::kinds::DrawnGround;
use itoa::Buffer;
use text_line::{put, put_number};

/// Appends the stroke over so many cells from a column on, in the row whose number is written so.
fn put_stroke(out: &mut Vec<u8>, x: usize, number: &[u8], long: usize) -> Result<(), NoMemory>
    ensures { OnOk result (out.new.items ≡
        out.old.items ++ spec.stroke_over number.now (record { from = x; long = long })) }
{
    put_byte(out, b'M')?;
    put_number(out, x as u64)?;
    put_byte(out, b' ')?;
    put(out, number)?;
    put_long(out, long)
}

/// Appends the length of a stroke.
fn put_long(out: &mut Vec<u8>, long: usize) -> Result<(), NoMemory>
    ensures { OnOk result (out.new.items ≡ out.old.items ++ (codes "h" ++ decimal long)) }
{
    put_byte(out, b'h')?;
    put_short(out, long)
}

/// Appends a number that mostly has one digit.
fn put_short(out: &mut Vec<u8>, n: usize) -> Result<(), NoMemory>
    ensures { OnOk result (out.new.items ≡ out.old.items ++ decimal n) }
{
    if n < 10 {
        put_byte(out, b'0' + n as u8)
    } else {
        put_number(out, n as u64)
    }
}

/// Appends the byte.
#[inline]
fn put_byte(out: &mut Vec<u8>, byte: u8) -> Result<(), NoMemory>
    ensures { OnOk result (out.new.items ≡ out.old.items ++ byte ∷ []) }
{
    out.push(byte)?;
    Ok(())
}

/// Appends the stroke over so many cells that end before a column, if there are any.
fn put_run(out: &mut Vec<u8>, end: usize, number: &[u8], long: usize) -> Result<(), NoMemory>
    requires { long ≤ end }
    ensures { OnOk result (out.new.items ≡ out.old.items ++ run_before number.now end long) }
{
    if long == 0 {
        return Ok(());
    }
    put_stroke(out, end - long, number, long)
}

/// Whether a row has a cell of the ground. Every byte is read, since a loop without an exit is compiled
/// to vectors.
fn has_ground(kind: DrawnGround, row: &[u8]) -> bool
    ensures { result ≡ list_any (is_of kind) row.now }
{
    let bytes = kind.bytes();
    let mut found = false;
    for byte in row {
        found |= is_either(*byte, bytes);
    }
    found
}

/// Whether the byte is one of two.
#[inline]
fn is_either(byte: u8, bytes: (u8, u8)) -> bool
    ensures { result ≡ (byte == bytes.0 || byte == bytes.1) }
{
    byte == bytes.0 || byte == bytes.1
}

/// Appends the strokes over the longest runs of the ground's cells in the row of this number.
fn put_row(out: &mut Vec<u8>, kind: DrawnGround, y: usize, row: &[u8]) -> Result<(), NoMemory>
    ensures { OnOk result (out.new.items ≡ out.old.items ++ spec.row_strokes kind y row.now) }
{
    if !has_ground(kind, row) {
        return Ok(());
    }
    let mut digits = Buffer::new();
    put_runs(out, kind, digits.format(y).as_bytes(), row)
}

/// The same for the row whose number is written so.
fn put_runs(out: &mut Vec<u8>, kind: DrawnGround, number: &[u8], row: &[u8]) -> Result<(), NoMemory>
    ensures { OnOk result (out.new.items ≡
        out.old.items ++ spec.texts_of (spec.stroke_over number.now) (runs_of kind row.now)) }
{
    let bytes = kind.bytes();
    let mut long = 0;
    for (x, byte) in row.iter().enumerate() {
        if is_either(*byte, bytes) {
            long += 1;
        } else {
            put_run(out, x, number, long)?;
            long = 0;
        }
    }
    put_run(out, row.len(), number, long)
}

/// Appends the strokes over the longest runs of the ground's cells, row by row.
pub(crate) fn put_strokes(
    out: &mut Vec<u8>,
    kind: DrawnGround,
    cells: &[u8],
    width: usize,
    height: usize,
) -> Result<(), NoMemory>
    requires { length cells.now ≡ height * width }
    ensures { OnOk result (out.new.items ≡
        out.old.items ++ spec.strokes_from kind 0 (rows_of height width cells.now)) }
{
    let mut left = cells;
    for y in 0..height {
        let (row, others) = left.split_at(width);
        put_row(out, kind, y, row)?;
        left = others;
    }
    Ok(())
}

/// Appends a stroke over the cell of each state, in order.
pub(crate) fn put_states(out: &mut Vec<u8>, width: u16, states: &[u32]) -> Result<(), NoMemory>
    requires { 0 < width }
    ensures { OnOk result (out.new.items ≡
        out.old.items ++ spec.texts_of (spec.state_stroke width) states.now) }
{
    for state in states {
        put_state(out, width as usize, *state as usize)?;
    }
    Ok(())
}

/// Appends a stroke over the cell of a state.
fn put_state(out: &mut Vec<u8>, width: usize, state: usize) -> Result<(), NoMemory>
    requires { 0 < width }
    ensures { OnOk result (out.new.items ≡ out.old.items ++ spec.state_stroke width state) }
{
    let cell = state / 9;
    let mut digits = Buffer::new();
    put_stroke(out, cell % width, digits.format(cell / width).as_bytes(), 1)
}
