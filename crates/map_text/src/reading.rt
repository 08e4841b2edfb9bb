//! Reading a map from its text.

ghost use Rattle.std.specs.Prelude.{◌≡◌, ◌≤◌, ◌^◌, length, map, not, position, Some, MatchResult};
ghost use Rattle.std.specs.List.{list_any};
ghost use Rattle.text_line.specs.Lines.{lines_of};
ghost use Rattle.text_line.specs.Reading.{IsRightReading, Judges};
ghost use Rattle.map_text.specs.declared.fault.MapFault.TheVariants.{NoMemory};
ghost use Rattle.map_text.specs.Map.{is_terrain as terrain};
ghost use Rattle.map_text.specs.Spelling.{Spells};
ghost use Rattle.map_text.specs.Faults as spec;
ghost use Rattle.map_text.specs.Faults.{bytes_of, side_on as named_side, side_fault, row_fault};
ghost use Rattle.map_text.specs.Faults.{map_of, BreaksFirst, Tells, plain};
ghost use Rattle.map_text.specs.Progress.{StandsAfterHeader};

use crate::bytes::Bytes;
use crate::fault::MapFault;
use crate::map::MapText;
use std::alloc::Global;
use text_line::{Fields, Line, Lines, number};

/// The largest side, in cells.
const MAX_SIDE: u32 = 4096;

/// The map that a text of at most 2^26 bytes spells, or the fault of its first broken line.
///
/// On one line the faults are looked for in the order M1, M2, M4, M3, M5, M6. The text is passed over
/// once, and memory is taken for the cells alone, once the header is read.
pub fn read_map(alloc: Global, text: &[u8]) -> Result<MapText, MapFault>
    requires { length text.now ≤ 2 ^ 26 }
    // What is read is spelled so, what is spelled so is read, and a fault is that of the first line that
    // breaks the grammar.
    ensures { IsRightReading NoMemory plain (Spells text.now) (BreaksFirst (lines_of text.now))
        (map_of text.now) result }
{
    read(alloc, text)
}

/// The same, whose clause is the one function of the text.
fn read(alloc: Global, text: &[u8]) -> Result<MapText, MapFault>
    requires { length text.now ≤ 2 ^ 26 }
    ensures { Tells result (map_of text.now) }
{
    let mut lines = Lines::of(text);
    let (height, width) = header(&mut lines)?;
    let mut cells = Vec::with_capacity(alloc, height as usize * width as usize)?;
    for row in 0..height {
        cells.extend_from_slice(row_of(lines.next(), width, row as u32 + 5)?)?;
    }
    for line in lines {
        if !line.bytes.is_empty() {
            return Err(MapFault::After { line: line.number });
        }
    }
    Ok(MapText {
        width,
        height,
        cells: Bytes::of(cells),
    })
}

/// The height and the width that the four header lines name.
fn header(lines: &mut Lines<'_>) -> Result<(u16, u16), MapFault>
    requires { lines.old.number ≡ 1 }
    ensures { MatchResult result
        (StandsAfterHeader lines.old.lines lines.new)
        (BreaksFirst lines.old.lines) }
{
    if !has_words(lines.next(), &[b"type", b"octile"]) {
        return Err(MapFault::Header { line: 1 });
    }
    let height = side(lines.next(), b"height", 2)?;
    let width = side(lines.next(), b"width", 3)?;
    if !has_words(lines.next(), &[b"map"]) {
        return Err(MapFault::Header { line: 4 });
    }
    Ok((height, width))
}

/// Whether the line is there and its fields are these words.
fn has_words(line: Option<Line<'_>>, words: &[&[u8]]) -> bool
    ensures { result ≡ spec.has_words (map (λ word. word.now) words.now) (bytes_of line.entry) }
{
    let Some(line) = line else {
        return false;
    };
    let mut fields = Fields::of(line.bytes);
    for word in words {
        match fields.next() {
            Some(field) if field == *word => {}
            _ => return false,
        }
    }
    fields.next().is_none()
}

/// The side that the line with this number names, if it is one of a map.
fn side(line: Option<Line<'_>>, word: &[u8], number: u32) -> Result<u16, MapFault>
    ensures { let named = named_side word.now (bytes_of line.entry) in
        Judges result (side_fault number named) (λ side. named ≡ Some side) }
{
    match side_on(line, word) {
        None => Err(MapFault::Header { line: number }),
        Some(side) if 1 <= side && side <= MAX_SIDE => Ok(side as u16),
        Some(_) => Err(MapFault::Side { line: number }),
    }
}

/// The side that a line names, whatever its size: its fields are the word and the side.
fn side_on(line: Option<Line<'_>>, word: &[u8]) -> Option<u32>
    ensures { result ≡ named_side word.now (bytes_of line.entry) }
{
    let mut fields = Fields::of(line?.bytes);
    if fields.next()? != word {
        return None;
    }
    let side = fields.next()?;
    if fields.next().is_some() {
        return None;
    }
    number(side)
}

/// The row that the line with this number is.
fn row_of<'a>(line: Option<Line<'a>>, width: u16, number: u32) -> Result<&'a [u8], MapFault>
    ensures { let bytes = bytes_of line.entry in
        Judges result (row_fault number width bytes) (λ row. bytes ≡ Some row.now) }
{
    let Some(Line { bytes, .. }) = line else {
        return Err(MapFault::Missing { line: number });
    };
    if bytes.len() != width as usize {
        return Err(MapFault::Short { line: number });
    }
    match place_of_stranger(bytes) {
        None => Ok(bytes),
        Some(place) => Err(MapFault::Byte {
            line: number,
            column: place as u32 + 1,
        }),
    }
}

/// Where the first byte that is no terrain stands, if there is one.
fn place_of_stranger(row: &[u8]) -> Option<usize>
    ensures { result ≡ position (λ byte. not (terrain byte)) row.now }
{
    if !has_stranger(row) {
        return None;
    }
    row.iter().position(|byte| !is_terrain(*byte))
}

/// Whether a byte is no terrain. Every byte is read, since a loop without an exit is compiled to
/// vectors: nearly all rows are right, and this takes a twentieth of the time of a search.
fn has_stranger(row: &[u8]) -> bool
    ensures { result ≡ list_any (λ byte. not (terrain byte)) row.now }
{
    let mut found = false;
    for byte in row {
        found |= !is_terrain(*byte);
    }
    found
}

/// Whether the byte is a byte of terrain.
fn is_terrain(byte: u8) -> bool
    ensures { result ≡ terrain byte }
{
    byte == b'.'
        || byte == b'G'
        || byte == b'S'
        || byte == b'@'
        || byte == b'O'
        || byte == b'T'
        || byte == b'W'
}
