//! The tables of a map as bytes, which go out in pieces.

ghost use Rattle.std.specs.Prelude.{◌≡◌, ◌≤◌, ◌*◌, ◌++◌, flat_map, length, IfOk};
ghost use Rattle.plus_tables.specs.Tables.{AreTablesOf};
ghost use Rattle.table_file.specs.Encoding.{entry_bytes};
ghost use Rattle.grid_answers.specs.Encoded.{IsEncoded};
ghost use Rattle.line_work.specs.Sending.{Sends, SendsWhole};

use crate::NoMemory;
use grid_moves::{Corner, Layers, Terrain};
use io_edge::Sink;
use line_work::{Stop, send};
use plus_tables::Tables;
use std::alloc::Global;
use table_file::{fill_entries, head_bytes};

/// At most so many entries are written at a time.
const PIECE: usize = 1 << 15;

/// The bytes of a piece.
const ROOM: usize = 2 * PIECE;

/// The tables of a map's two grids, the rule, and room for the bytes of a piece: once this is made no more
/// memory is asked for.
#[derive(Drop)]
pub struct TableFile {
    pub land: Tables,
    pub water: Tables,
    pub corner: Corner,
    pub room: Vec<u8>,
}

/// The tables of two grids, and room for a piece of their file. Of a map of 4096 by 4096 they take 0.54 GB.
pub fn file_of(alloc: Global, layers: &Layers) -> Result<TableFile, NoMemory>
    ensures land { IfOk result (λ file. AreTablesOf file.land layers.now.land) }
    ensures water { IfOk result (λ file. AreTablesOf file.water layers.now.water) }
    ensures corner { IfOk result (λ file. file.corner ≡ layers.now.land.corner) }
    ensures room { IfOk result (λ file. length file.room.items ≡ 65536) }
{
    Ok(TableFile {
        land: Tables::build(alloc, layers.land())?,
        water: Tables::build(alloc, layers.water())?,
        corner: layers.land().corner(),
        room: vec![in alloc; 0u8; ROOM]?,
    })
}

// Writes the bytes of a piece of the entries.
fn send_piece<O: Sink>(entries: &[i16], room: &mut [u8], out: &mut O) -> Result<(), Stop>
    requires { 2 * length entries.now ≤ length room.old }
    ensures sent { Sends (O.outflow out.old) (O.outflow out.new) (flat_map entry_bytes entries.now) result }
    ensures later { (O.outflow out.old).faults ≤ (O.outflow out.new).faults }
    ensures room { length room.new ≡ length room.old }
{
    let bytes = &mut room[..2 * entries.len()];
    fill_entries(entries, bytes);
    send(out, bytes)
}

// Writes the bytes of the entries, a piece at a time.
fn send_entries<O: Sink>(entries: &[i16], room: &mut [u8], out: &mut O) -> Result<(), Stop>
    requires { length room.old ≡ 65536 }
    ensures sent { Sends (O.outflow out.old) (O.outflow out.new) (flat_map entry_bytes entries.now) result }
    ensures later { (O.outflow out.old).faults ≤ (O.outflow out.new).faults }
    ensures room { length room.new ≡ length room.old }
{
    let mut done = 0;
    while done < entries.len() {
        let count = PIECE.min(entries.len() - done);
        send_piece(&entries[done..done + count], room, out)?;
        done += count;
    }
    Ok(())
}

// Writes the head, and the bytes of the entries of both grids.
fn send_parts<O: Sink>(
    head: &[u8],
    land: &[i16],
    water: &[i16],
    room: &mut [u8],
    out: &mut O,
) -> Result<(), Stop>
    requires { length room.old ≡ 65536 }
    ensures { Sends (O.outflow out.old) (O.outflow out.new)
        (head.now ++ (flat_map entry_bytes land.now ++ flat_map entry_bytes water.now)) result }
{
    send(out, head)?;
    send_entries(land, room, out)?;
    send_entries(water, room, out)
}

/// Writes the table file, in pieces through its room.
pub fn write_file<O: Sink>(file: &mut TableFile, out: &mut O) -> Result<u8, Stop>
    requires { length file.old.room.items ≡ 65536 }
    ensures { SendsWhole (IsEncoded file.old) (O.outflow out.old) (O.outflow out.new) result }
{
    let head = head_bytes(file.corner, file.land.width(), file.land.height());
    let (land, water) = (file.land.entries(), file.water.entries());
    send_parts(head.as_slice(), land, water, file.room.as_mut_slice(), out)?;
    Ok(0)
}
