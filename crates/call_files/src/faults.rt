//! The lines of refused words and texts.

ghost use Rattle.std.specs.Prelude.{◌≡◌, ◌≢◌, ◌++◌, IfOk, codes, decimal};
ghost use Rattle.map_text.specs.declared.fault.MapFault.TheVariants.{NoMemory as no_map_memory};
ghost use Rattle.scen_text.specs.declared.fault.ScenFault.TheVariants.{NoMemory as no_scen_memory};
ghost use Rattle.script_text.specs.declared.fault.ScriptFault.TheVariants.{NoMemory as no_script_memory};
ghost use Rattle.potential_check.specs.declared.fault.CertFault.TheVariants.{NoMemory as no_cert_memory};
ghost use Rattle.table_file.specs.declared.fault.TableFault.TheVariants.{Entry, NoMemory as no_tables_memory};
ghost use Rattle.walk_judge.specs.declared.fault.WalkFault.TheVariants.{NoMemory as no_walks_memory};
ghost use Rattle.call_files.specs.FaultLines as spec;

use crate::NoMemory;
use cell_lines::dir_text;
use grid_moves::{Cell, Dir, Ground};
use map_text::MapFault;
use potential_check::CertFault;
use scen_text::ScenFault;
use script_text::ScriptFault;
use std::alloc::Global;
use table_file::TableFault;
use text_line::{put, put_number};
use walk_judge::WalkFault;

/// The line of a refused list of words, by the number of its bad word, counted from 1.
pub fn word_line(alloc: Global, number: u32) -> Result<Vec<u8>, NoMemory>
    ensures { IfOk result (λ line. line.items ≡ spec.word_line number) }
{
    let mut line = Vec::new(alloc);
    put(&mut line, b"jps: word ")?;
    put_number(&mut line, u64::from(number))?;
    put(&mut line, b"\n")?;
    Ok(line)
}

/// The line of a text of this kind that is too long.
pub fn long_line(alloc: Global, kind: &[u8]) -> Result<Vec<u8>, NoMemory>
    ensures { IfOk result (λ line. line.items ≡ spec.long_line kind.now) }
{
    let mut line = Vec::new(alloc);
    put(&mut line, b"jps: ")?;
    put(&mut line, kind)?;
    put(&mut line, b" long\n")?;
    Ok(line)
}

/// The line of a map of more cells than a call takes.
pub fn large_line(alloc: Global) -> Result<Vec<u8>, NoMemory>
    ensures { IfOk result (λ line. line.items ≡ spec.large_line) }
{
    let mut line = Vec::new(alloc);
    put(&mut line, b"jps: map large\n")?;
    Ok(line)
}

// The line of a fault by its name, in this line of a text of this kind.
fn fault_line(alloc: Global, kind: &[u8], name: &[u8], number: u32) -> Result<Vec<u8>, NoMemory>
    ensures { IfOk result (λ line. line.items ≡ spec.fault_line kind.now name.now number) }
{
    let mut line = Vec::new(alloc);
    put(&mut line, b"jps: ")?;
    put(&mut line, kind)?;
    put(&mut line, b" ")?;
    put(&mut line, name)?;
    put(&mut line, b" line ")?;
    put_number(&mut line, u64::from(number))?;
    put(&mut line, b"\n")?;
    Ok(line)
}

// The line of a map's byte that is no terrain.
fn map_byte_line(alloc: Global, number: u32, column: u32) -> Result<Vec<u8>, NoMemory>
    ensures { IfOk result (λ line. line.items ≡ codes "jps: map M5 line " ++ decimal number ++ codes
        " column " ++ decimal column ++ codes "\n") }
{
    let mut line = Vec::new(alloc);
    put(&mut line, b"jps: map M5 line ")?;
    put_number(&mut line, u64::from(number))?;
    put(&mut line, b" column ")?;
    put_number(&mut line, u64::from(column))?;
    put(&mut line, b"\n")?;
    Ok(line)
}

/// The line of a refused map.
pub fn map_line(alloc: Global, fault: MapFault) -> Result<Vec<u8>, NoMemory>
    ensures { IfOk result (λ line. (fault ≢ no_map_memory) × (line.items ≡ spec.map_line fault)) }
{
    match fault {
        MapFault::Header { line } => fault_line(alloc, b"map", b"M1", line),
        MapFault::Side { line } => fault_line(alloc, b"map", b"M2", line),
        MapFault::Short { line } => fault_line(alloc, b"map", b"M3", line),
        MapFault::Missing { line } => fault_line(alloc, b"map", b"M4", line),
        MapFault::Byte { line, column } => map_byte_line(alloc, line, column),
        MapFault::After { line } => fault_line(alloc, b"map", b"M6", line),
        MapFault::NoMemory => Err(NoMemory),
    }
}

/// The line of a refused scenario.
pub fn scen_line(alloc: Global, fault: ScenFault) -> Result<Vec<u8>, NoMemory>
    ensures { IfOk result (λ line. (fault ≢ no_scen_memory) × (line.items ≡ spec.scen_line fault)) }
{
    match fault {
        ScenFault::Version { line } => fault_line(alloc, b"scen", b"C1", line),
        ScenFault::Fields { line } => fault_line(alloc, b"scen", b"C2", line),
        ScenFault::Number { line } => fault_line(alloc, b"scen", b"C3", line),
        ScenFault::Length { line } => fault_line(alloc, b"scen", b"C4", line),
        ScenFault::NoMemory => Err(NoMemory),
    }
}

/// The line of a refused script.
pub fn script_line(alloc: Global, fault: ScriptFault) -> Result<Vec<u8>, NoMemory>
    ensures { IfOk result (λ line. (fault ≢ no_script_memory) × (line.items ≡ spec.script_line fault)) }
{
    match fault {
        ScriptFault::Line { line } => fault_line(alloc, b"script", b"T1", line),
        ScriptFault::Long { line } => fault_line(alloc, b"script", b"T2", line),
        ScriptFault::NoMemory => Err(NoMemory),
    }
}

/// The line of a refused certificate's text.
pub fn cert_line(alloc: Global, fault: CertFault) -> Result<Vec<u8>, NoMemory>
    ensures { IfOk result (λ line. (fault ≢ no_cert_memory) × (line.items ≡ spec.cert_line fault)) }
{
    match fault {
        CertFault::Line { line } => fault_line(alloc, b"cert", b"P1", line),
        CertFault::Order { line } => fault_line(alloc, b"cert", b"P2", line),
        CertFault::NoMemory => Err(NoMemory),
    }
}

// The name of a grid.
fn layer_text(layer: Ground) -> &'static [u8]
    ensures { result.now ≡ spec.layer_text layer }
{
    match layer {
        Ground::Land => b"land",
        Ground::Water => b"water",
        Ground::Blocked => b"blocked",
    }
}

// The line of a table file's entry that is another.
fn entry_line(alloc: Global, layer: Ground, cell: Cell, dir: Dir) -> Result<Vec<u8>, NoMemory>
    ensures { IfOk result (λ line. line.items ≡ spec.tables_line (Entry layer cell dir)) }
{
    let mut line = Vec::new(alloc);
    put(&mut line, b"jps: tables F3 ")?;
    put(&mut line, layer_text(layer))?;
    put(&mut line, b" ")?;
    put_number(&mut line, u64::from(cell.x))?;
    put(&mut line, b",")?;
    put_number(&mut line, u64::from(cell.y))?;
    put(&mut line, b" ")?;
    put(&mut line, dir_text(dir))?;
    put(&mut line, b"\n")?;
    Ok(line)
}

// A line of the program's own.
fn line_of(alloc: Global, text: &[u8]) -> Result<Vec<u8>, NoMemory>
    ensures { IfOk result (λ line. line.items ≡ text.now) }
{
    let mut line = Vec::new(alloc);
    put(&mut line, text)?;
    Ok(line)
}

/// The line of a refused table file.
pub fn tables_line(alloc: Global, fault: TableFault) -> Result<Vec<u8>, NoMemory>
    ensures { IfOk result (λ line. (fault ≢ no_tables_memory) × (line.items ≡ spec.tables_line fault)) }
{
    match fault {
        TableFault::Head => line_of(alloc, b"jps: tables F1\n"),
        TableFault::Length => line_of(alloc, b"jps: tables F2\n"),
        TableFault::Entry { ground, cell, dir } => entry_line(alloc, ground, cell, dir),
        TableFault::NoMemory => Err(NoMemory),
    }
}

/// The line of refused walks.
pub fn walks_line(alloc: Global, fault: WalkFault) -> Result<Vec<u8>, NoMemory>
    ensures { IfOk result (λ line. (fault ≢ no_walks_memory) × (line.items ≡ spec.walks_line fault)) }
{
    match fault {
        WalkFault::Line { line } => fault_line(alloc, b"walks", b"K1", line),
        WalkFault::Count { line } => fault_line(alloc, b"walks", b"K2", line),
        WalkFault::NoMemory => Err(NoMemory),
    }
}
