//! Writing table files.

ghost use Rattle.std.specs.Prelude.{◌≡◌, ◌*◌, ◌++◌, None, OnOk, OnErr, flat_map, length};
ghost use Rattle.grid_moves.specs.Grid.{GridData};
ghost use Rattle.plus_tables.specs.Tables.{AreTablesOf, IsWhole};
ghost use Rattle.table_file.specs.Encoding as spec;
ghost use Rattle.table_file.specs.Encoding.{AreOfOneMap, encoding, size_of};
ghost use Rattle.table_file.specs.Faults.{table_fault_of};
ghost use Rattle.table_file.specs.Written.{file_of};
ghost use Rattle.text_line.specs.Writing.{Begins};

use crate::NoMemory;
use crate::encoding::{HEAD_SIZE, entry_bytes, head_bytes};
use grid_moves::Corner;
use plus_tables::Tables;
use text_line::whole_or_nothing;

/// Appends the encoding of two tables: those of the land grid and of the water grid of a map under this rule.
///
/// Room is asked for once, and each entry is passed once.
pub fn write_tables(
    land: &Tables,
    water: &Tables,
    corner: Corner,
    out: &mut Vec<u8>,
) -> Result<(), NoMemory>
    ensures text { (first second : GridData) → AreTablesOf land.now first → AreTablesOf water.now second
        → AreOfOneMap first second → first.corner ≡ corner
        → OnOk result (out.new.items ≡ out.old.items ++ encoding corner first second) }
    // It has 13 bytes, and 32 for each cell.
    ensures size { (first second : GridData) → length (encoding corner first second) ≡ size_of first }
    // It is loaded back.
    ensures right { (first second : GridData) → first.corner ≡ corner
        → table_fault_of first second (encoding corner first second) ≡ None }
    // For want of memory nothing is appended.
    ensures err { OnErr result (out.new.items ≡ out.old.items) }
{
    let before = out.len();
    let written = put_file(land, water, corner, out);
    whole_or_nothing(out, before, written)
}

// Appends the file, or a first part of it where memory runs out.
fn put_file(
    land: &Tables,
    water: &Tables,
    corner: Corner,
    out: &mut Vec<u8>,
) -> Result<(), NoMemory>
    ensures ok { OnOk result (out.new.items ≡ out.old.items ++ file_of corner land.now water.now) }
    ensures err { OnErr result (Begins out.old.items out.new.items) }
    ensures land { IsWhole land.now }
    ensures water { IsWhole water.now }
{
    let (first, second) = (land.entries(), water.entries());
    out.reserve(HEAD_SIZE + 2 * (first.len() + second.len()))?;
    put_head(corner, land.width(), land.height(), out)?;
    put_entries(first, land.height() as usize * land.width() as usize, out)?;
    put_entries(
        second,
        water.height() as usize * water.width() as usize,
        out,
    )
}

// Appends the head.
fn put_head(corner: Corner, width: u16, height: u16, out: &mut Vec<u8>) -> Result<(), NoMemory>
    ensures ok { OnOk result (out.new.items ≡ out.old.items ++ spec.head_bytes corner width height) }
    ensures err { OnErr result (out.new.items ≡ out.old.items) }
{
    let head = head_bytes(corner, width, height);
    out.extend_from_slice(head.as_slice())
}

// Appends the entries of so many cells.
fn put_entries(entries: &[i16], cells: usize, out: &mut Vec<u8>) -> Result<(), NoMemory>
    requires { length entries.now ≡ cells * 8 }
    ensures ok { OnOk result (out.new.items ≡ out.old.items ++ flat_map spec.entry_bytes entries.now) }
    ensures err { OnErr result (Begins out.old.items out.new.items) }
{
    let mut left = entries;
    for _done in 0..cells {
        let (cell, others) = left.split_at(8);
        let bytes = cell_bytes(cell);
        out.extend_from_slice(bytes.as_slice())?;
        left = others;
    }
    Ok(())
}

// The bytes of the eight entries of a cell.
#[inline(always)]
fn cell_bytes(cell: &[i16]) -> [u8; 16]
    requires { length cell.now ≡ 8 }
    ensures { result ≡ flat_map spec.entry_bytes cell.now }
{
    let mut bytes = [0; 16];
    fill_entries(cell, &mut bytes[..]);
    bytes
}

/// Fills the bytes with those of the entries, two for each: for who writes a file in pieces. A file is its
/// head (`head_bytes`), the entries of the land grid's tables, and those of the water grid's.
#[inline(always)]
pub fn fill_entries(entries: &[i16], bytes: &mut [u8])
    requires { length bytes.old ≡ 2 * length entries.now }
    ensures { bytes.new ≡ flat_map spec.entry_bytes entries.now }
{
    for (at, entry) in entries.iter().enumerate() {
        let [low, high] = entry_bytes(*entry);
        bytes[2 * at] = low;
        bytes[2 * at + 1] = high;
    }
}
