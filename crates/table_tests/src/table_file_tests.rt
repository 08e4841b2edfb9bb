//! The files of a map of three cells in a row and of one of two free cells that touch, byte by byte.

use grid_moves::{Cell, Corner, Dir, Grid, Ground, Layers};
use plus_tables::Tables;
use std::alloc::Global;
use std::process::Abort;
use std::test::Fail;
use table_file::{NoMemory, TableFault, load, write_tables};

fn joined(alloc: Global, parts: &[&[u8]]) -> Result<Vec<u8>, NoMemory> {
    let mut text = Vec::new(alloc);
    for part in parts {
        text.extend_from_slice(part)?;
    }
    Ok(text)
}

// Two moves lead to the east, one to each side, two to the west; there is no water.
fn three_cells(alloc: Global) -> Result<Vec<u8>, NoMemory> {
    let parts = [
        b"JPSPLUS1\x00\x03\x00\x01\x00".as_slice(),
        b"\x00\x00\x00\x00\xfe\xff\x00\x00\x00\x00\x00\x00\x00\x00\x00\x00",
        b"\x00\x00\x00\x00\xff\xff\x00\x00\x00\x00\x00\x00\xff\xff\x00\x00",
        b"\x00\x00\x00\x00\x00\x00\x00\x00\x00\x00\x00\x00\xfe\xff\x00\x00",
        [0; 48].as_slice(),
    ];
    joined(alloc, &parts)
}

// On the map `.@/@.`, where two blocked cells may be passed between, one move leads each way.
fn two_that_touch(alloc: Global) -> Result<Vec<u8>, NoMemory> {
    let parts = [
        b"JPSPLUS1\x02\x02\x00\x02\x00".as_slice(),
        b"\x00\x00\x00\x00\x00\x00\xff\xff\x00\x00\x00\x00\x00\x00\x00\x00",
        [0; 32].as_slice(),
        b"\x00\x00\x00\x00\x00\x00\x00\x00\x00\x00\x00\x00\x00\x00\xff\xff",
        [0; 64].as_slice(),
    ];
    joined(alloc, &parts)
}

// A place, the byte that is put there, if the text has it, and the length that the text is cut to.
type Change = (usize, u8, usize);

fn changed(alloc: Global, change: Change) -> Result<Vec<u8>, NoMemory> {
    let (place, byte, length) = change;
    let mut text = three_cells(alloc)?;
    text.push(0)?;
    if place < text.len() {
        text[place] = byte;
    }
    text.truncate(length);
    Ok(text)
}

// What is written of the tables that are built.
fn written(alloc: Global, layers: &Layers, corner: Corner) -> Result<Vec<u8>, NoMemory> {
    let (land, water) = layers.both();
    let (first, second) = (Tables::build(alloc, land)?, Tables::build(alloc, water)?);
    let mut out = Vec::new(alloc);
    write_tables(&first, &second, corner, &mut out)?;
    Ok(out)
}

#[test]
fn each_byte_of_small_files(rt: HostRuntime) -> Result<(), Fail> {
    let layers = Layers::of_cells(rt.alloc(), 3, 1, b"...", Corner::Never)?;
    let out = written(rt.alloc(), &layers, Corner::Never)?;
    assert_eq!(rt; out.as_slice(), three_cells(rt.alloc())?.as_slice());
    let layers = Layers::of_cells(rt.alloc(), 2, 2, b".@@.", Corner::Both)?;
    let out = written(rt.alloc(), &layers, Corner::Both)?;
    assert_eq!(rt; out.as_slice(), two_that_touch(rt.alloc())?.as_slice());
    Ok(())
}

// The tables of a grid are these.
fn compare(alloc: Global, rt: &impl Abort, grid: &Grid, tables: &Tables) -> Result<(), Fail> {
    let built = Tables::build(alloc, grid)?;
    assert_eq!(rt; tables.entries(), built.entries());
    Ok(())
}

#[test]
fn a_small_file_is_loaded(rt: HostRuntime) -> Result<(), Fail> {
    let text = three_cells(rt.alloc())?;
    let layers = Layers::of_cells(rt.alloc(), 3, 1, b"...", Corner::Never)?;
    let (land, water) = layers.both();
    let tables = load(rt.alloc(), text.as_slice(), land, water)?;
    compare(rt.alloc(), &rt, land, &tables.0)?;
    compare(rt.alloc(), &rt, water, &tables.1)
}

// What the text with such a change is refused as, for the map under this rule.
fn refusal(alloc: Global, change: Change, corner: Corner) -> Result<(), TableFault> {
    let text = changed(alloc, change)?;
    let layers = Layers::of_cells(alloc, 3, 1, b"...", corner)?;
    let (land, water) = layers.both();
    let _tables = load(alloc, text.as_slice(), land, water)?;
    Ok(())
}

fn entry(ground: Ground, x: u16, dir: Dir) -> TableFault {
    TableFault::Entry {
        ground,
        cell: Cell { x, y: 0 },
        dir,
    }
}

#[test]
fn the_first_difference_is_named(rt: HostRuntime) {
    let never = Corner::Never;
    for (change, corner, answer) in [
        ((0, b'J', 109), never, Ok(())),
        ((17, 0xfd, 109), never, Err(entry(Ground::Land, 0, Dir::E))),
        ((108, 1, 109), never, Err(entry(Ground::Water, 2, Dir::NW))),
        ((17, 0xfd, 108), never, Err(TableFault::Length)),
        ((0, b'J', 110), never, Err(TableFault::Length)),
        ((0, b'J', 13), never, Err(TableFault::Length)),
        ((0, b'J', 12), never, Err(TableFault::Head)),
        ((11, 2, 109), never, Err(TableFault::Head)),
        ((0, b'J', 109), Corner::One, Err(TableFault::Head)),
        ((8, 1, 109), Corner::One, Ok(())),
        ((8, 2, 109), Corner::One, Err(TableFault::Head)),
        ((8, 2, 109), Corner::Both, Ok(())),
        ((8, 1, 109), Corner::Both, Err(TableFault::Head)),
        ((8, 3, 109), Corner::Both, Err(TableFault::Head)),
    ] {
        assert!(rt; refusal(rt.alloc(), change, corner) == answer, "{change:?}");
    }
}

#[test]
fn faults_of_tables_are_printed_by_their_codes(rt: HostRuntime) -> Result<(), Fail> {
    let entry = TableFault::Entry {
        ground: Ground::Water,
        cell: Cell { x: 1, y: 2 },
        dir: Dir::NE,
    };
    for (fault, text) in [
        (TableFault::Head, "F1"),
        (TableFault::Length, "F2"),
        (entry, "F3 Water Cell { x: 1, y: 2 } NE"),
        (TableFault::NoMemory, "memory"),
    ] {
        let printed = format!(in rt.alloc(); "{fault}")?;
        assert_eq!(rt; printed.as_str(), text);
    }
    Ok(())
}
