//! Reading table files.

ghost use Rattle.std.specs.Prelude.{◌≡◌, ◌≢◌, ◌+◌, ◌*◌, ◌<◌, ◌≤◌, IfErr, IfOk, None, OnOk, Some, [], ◌∷◌};
ghost use Rattle.std.specs.Prelude.{bytes_eq, drop, length, option_map, slice_index, take, if◌then◌else◌};
ghost use Rattle.grid_moves.specs.Grid.{AreSides, GridData, is_ground};
ghost use Rattle.grid_moves.specs.declared.Ground.TheVariants.{Water};
ghost use Rattle.plus_tables.specs.Tables.{AreTablesOf};
ghost use Rattle.table_file.specs.declared.fault.TableFault.TheVariants.{NoMemory};
ghost use Rattle.table_file.specs.Encoding.{AreOfOneMap, encoding, entry_for, entry_bytes as entry_spec};
ghost use Rattle.table_file.specs.Encoding.{head_bytes as head_spec};
ghost use Rattle.table_file.specs.Faults.{Differs, Tells, entry_fault, first_wrong, frame_fault};
ghost use Rattle.table_file.specs.Faults.{table_fault_of};
ghost use Rattle.table_file.specs.Order.{cells_from, spots_on};
ghost use Rattle.table_file.specs.Reading as spec;

use crate::encoding::{HEAD_SIZE, entry_bytes, head_bytes};
use crate::fault::TableFault;
use grid_moves::{ALL_DIRS, Cell, Corner, Grid, Ground, Terrain};
use plus_tables::Tables;
use std::alloc::Global;

/// The tables of a map's land grid and water grid, where the text is their encoding, or else how it differs.
///
/// The grids are those of one map under one corner rule. The tables are built from the grids and compared
/// with the text, land first; where the head or the length is wrong, nothing is built.
pub fn load(
    alloc: Global,
    text: &[u8],
    land: &Grid,
    water: &Grid,
) -> Result<(Tables, Tables), TableFault>
    requires { AreOfOneMap land.now water.now }
    // What is loaded are the tables of the grids.
    ensures land { IfOk result (λ tables. AreTablesOf tables.0 land.now) }
    ensures water { IfOk result (λ tables. AreTablesOf tables.1 water.now) }
    // Only their encoding is loaded, and a fault is the first way in which a text differs from it.
    ensures found { OnOk result (text.now ≡ encoding land.now.corner land.now water.now) }
    ensures first { IfErr result (λ fault. fault ≢ NoMemory
        → Differs land.now water.now text.now fault) }
    // All of this as one function of the text.
    ensures exact { Tells result (table_fault_of land.now water.now text.now) }
{
    judged(alloc, text, land, water)
}

// The same, whose clause on the text is the one function of it.
fn judged(
    alloc: Global,
    text: &[u8],
    land: &Grid,
    water: &Grid,
) -> Result<(Tables, Tables), TableFault>
    requires { AreOfOneMap land.now water.now }
    ensures land { IfOk result (λ tables. AreTablesOf tables.0 land.now) }
    ensures water { IfOk result (λ tables. AreTablesOf tables.1 water.now) }
    ensures exact { Tells result (table_fault_of land.now water.now text.now) }
{
    let body = body_of(text, land)?;
    let first = compared(alloc, land, Ground::Land, body)?;
    let (_land_bytes, behind) = body.split_at(body.len() / 2);
    let second = compared(alloc, water, Ground::Water, behind)?;
    Ok((first, second))
}

// Whether the text begins with this head.
fn has_head(text: &[u8], corner: Corner, width: u16, height: u16) -> bool
    ensures { result ≡ bytes_eq (head_spec corner width height) (take 13 text.now) }
{
    let head = head_bytes(corner, width, height);
    text.starts_with(head.as_slice())
}

// The bytes of the entries, where the head and the length are right.
fn body_of<'a>(text: &'a [u8], land: &Grid) -> Result<&'a [u8], TableFault>
    ensures right { IfOk result (λ body. (frame_fault land.now text.now ≡ None)
        × (body.now ≡ drop 13 text.now)
        × (length body.now ≡ 32 * (land.now.height * land.now.width))) }
    ensures wrong { IfErr result (λ fault. frame_fault land.now text.now ≡ Some fault) }
{
    let (width, height) = (land.width(), land.height());
    if !has_head(text, land.corner(), width, height) {
        return Err(TableFault::Head);
    }
    if text.len() != HEAD_SIZE + 32 * (height as usize * width as usize) {
        return Err(TableFault::Length);
    }
    let (_head, body) = text.split_at(HEAD_SIZE);
    Ok(body)
}

// The tables of one of a map's grids, where the bytes begin with its entries, or else the first that differs.
fn compared(alloc: Global, grid: &Grid, layer: Ground, bytes: &[u8]) -> Result<Tables, TableFault>
    requires { 16 * (grid.now.height * grid.now.width) ≤ length bytes.now }
    ensures tables { IfOk result (λ tables. AreTablesOf tables grid.now) }
    ensures exact { (land water : GridData) → grid.now ≡ (if is_ground Water layer then water else land)
        → Tells result (option_map entry_fault (first_wrong (entry_for land water)
        (spots_on layer (cells_from grid.now.width 0 (grid.now.height * grid.now.width))) bytes.now)) }
{
    let tables = Tables::build(alloc, grid)?;
    match first_other(tables.entries(), bytes) {
        None => Ok(tables),
        Some(place) => Err(fault_at(layer, tables.width(), tables.height(), place)),
    }
}

// Whether the two bytes at the place of an entry are those of this one.
#[inline(always)]
fn is_at(bytes: &[u8], at: usize, entry: i16) -> bool
    requires { 2 * at + 1 < length bytes.now }
    ensures { result ≡ bytes_eq (slice_index bytes.now (2 * at) ∷ slice_index bytes.now (2 * at + 1) ∷ [])
        (entry_spec entry) }
{
    let [low, high] = entry_bytes(entry);
    bytes[2 * at] == low && bytes[2 * at + 1] == high
}

// The place of the first entry whose bytes are others, from 0.
fn first_other(entries: &[i16], bytes: &[u8]) -> Option<usize>
    requires { 2 * length entries.now ≤ length bytes.now }
    ensures { result ≡ spec.first_other 0 entries.now bytes.now }
{
    for (at, entry) in entries.iter().enumerate() {
        if !is_at(bytes, at, *entry) {
            return Some(at);
        }
    }
    None
}

// The fault that the entry at this place, from 0, of a grid's tables is the first that differs.
fn fault_at(layer: Ground, width: u16, height: u16, place: usize) -> TableFault
    requires sides { AreSides width height }
    requires inside { place < height * width * 8 }
    ensures { result ≡ entry_fault (spec.spot_of layer width place) }
{
    let number = place / 8;
    TableFault::Entry {
        ground: layer,
        cell: Cell {
            x: (number % width as usize) as u16,
            y: (number / width as usize) as u16,
        },
        dir: ALL_DIRS[place % 8],
    }
}
