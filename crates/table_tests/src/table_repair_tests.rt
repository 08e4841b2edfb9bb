//! Edits of small maps.

ghost use Rattle.std.specs.Prelude.{◌≡◌, ◌*◌, ◌<◌, ◌≤◌, IfOk, length, true};
ghost use Rattle.grid_moves.specs.Grid.{is_inside};
ghost use Rattle.plus_tables.specs.Tables.{AreTablesOf};

use grid_moves::{Cell, Corner, Grid, NoMemory, Terrain};
use plus_tables::Tables;
use std::alloc::Global;
use std::marker::Brand;
use std::process::Abort;
use std::sync::ledger::{Blank, Ledger};
use std::test::Fail;
use steps::Steps;
use table_repair::Repairer;

// Changes a cell of a grid and mends its tables; says how many entries changed.
fn edit<L: Ledger>(
    grid: &mut Grid,
    tables: &mut Tables,
    c: Cell,
    free: bool,
    steps: &mut Steps<L>,
) -> u64
    requires inside { is_inside grid.old c ≡ true }
    requires tables { AreTablesOf tables.old grid.old }
    ensures tables { AreTablesOf tables.new grid.new }
    ensures width { grid.new.width ≡ grid.old.width }
    ensures height { grid.new.height ≡ grid.old.height }
{
    let repairer = Repairer::new(grid.width(), grid.height());
    grid.set(c, free);
    repairer.repair(tables, grid, c, steps)
}

// The number of changed entries and the entries are these.
fn compare(rt: &impl Abort, found: (u64, &[i16]), expected: (u64, &[i16])) {
    assert_eq!(rt; found.0, expected.0);
    assert_eq!(rt; found.1, expected.1);
}

// Blocks the middle of the map `...`, and frees it: with all free, the entries are these.
fn block_and_free<L: Ledger>(
    alloc: Global,
    rt: &impl Abort,
    corner: Corner,
    open: &[i16],
    blank: Blank,
) -> Result<(), NoMemory>
    requires name { blank.name ≡ L.name }
    requires parts { blank.parts ≡ L.parts }
    requires some { 0 < L.parts }
{
    let mut steps = Steps::<L>::new(blank);
    let mut grid = Grid::of_cells(alloc, 3, 1, b"...", corner)?;
    let mut tables = Tables::build(alloc, &grid)?;
    let middle = Cell { x: 1, y: 0 };
    let changed = edit(&mut grid, &mut tables, middle, false, &mut steps);
    compare(rt, (changed, tables.entries()), (4, [0; 24].as_slice()));
    let changed = edit(&mut grid, &mut tables, middle, true, &mut steps);
    compare(rt, (changed, tables.entries()), (4, open));
    Ok(())
}

// On squared paper: from (0,0) two moves to the right, from (1,0) one to each side, from (2,0) two to
// the left. With the middle blocked no move is left.
#[test]
fn the_middle_of_a_row(rt: HostRuntime) -> Result<(), Fail> {
    let open = [
        0, 0, -2, 0, 0, 0, 0, 0, 0, 0, -1, 0, 0, 0, -1, 0, 0, 0, 0, 0, 0, 0, -2, 0,
    ];
    for corner in [Corner::Never, Corner::One, Corner::Both] {
        block_and_free::<Brand>(rt.alloc(), &rt, corner, &open, Blank::new(1))?;
    }
    Ok(())
}

// The next word of a fixed generator.
fn next_word(state: &mut u64) -> u32 {
    *state = state
        .wrapping_mul(6364136223846793005)
        .wrapping_add(1442695040888963407);
    (*state >> 33) as u32
}

// So many cells, about so many of a hundred blocked.
fn mixed_cells(
    alloc: Global,
    count: usize,
    percent: u32,
    state: &mut u64,
) -> Result<Vec<u8>, NoMemory>
    ensures { IfOk result (λ cells. length cells.items ≡ count) }
{
    let mut cells = Vec::new(alloc);
    for _ in 0..count {
        cells.push(if next_word(state) % 100 < percent {
            b'@'
        } else {
            b'.'
        })?;
    }
    Ok(cells)
}

// At how many places the numbers differ.
fn places_apart(one: &[i16], other: &[i16]) -> usize {
    one.iter().zip(other).filter(|(a, b)| a != b).count()
}

// Changes a cell; says whether the mended tables are then those that are built afresh, and as many entries
// changed as the repair said.
fn edit_agrees<L: Ledger>(
    alloc: Global,
    grid: &mut Grid,
    tables: &mut Tables,
    c: Cell,
    steps: &mut Steps<L>,
) -> Result<bool, NoMemory>
    requires inside { is_inside grid.old c ≡ true }
    requires tables { AreTablesOf tables.old grid.old }
    ensures tables { AreTablesOf tables.new grid.new }
    ensures width { grid.new.width ≡ grid.old.width }
    ensures height { grid.new.height ≡ grid.old.height }
{
    let before = Vec::from_slice(alloc, tables.entries())?;
    let free = !grid.free(c);
    let changed = edit(grid, tables, c, free, steps);
    let fresh = Tables::build(alloc, grid)?;
    let apart = places_apart(before.as_slice(), fresh.entries());
    Ok(tables.entries() == fresh.entries() && changed == apart as u64)
}

// Edits a square map of mixed cells so often; says whether each edit agrees.
fn edits_agree<L: Ledger>(
    alloc: Global,
    side: u16,
    percent: u32,
    edits: u32,
    corner: Corner,
    blank: Blank,
) -> Result<bool, NoMemory>
    requires some_side { 1 ≤ side }
    requires short_side { side ≤ 4096 }
    requires name { blank.name ≡ L.name }
    requires parts { blank.parts ≡ L.parts }
    requires some { 0 < L.parts }
{
    let mut steps = Steps::<L>::new(blank);
    let mut state = 18;
    let cells = mixed_cells(alloc, side as usize * side as usize, percent, &mut state)?;
    let mut grid = Grid::of_cells(alloc, side, side, &cells, corner)?;
    let mut tables = Tables::build(alloc, &grid)?;
    for _ in 0..edits {
        let x = (next_word(&mut state) % u32::from(side)) as u16;
        let y = (next_word(&mut state) % u32::from(side)) as u16;
        if !edit_agrees(alloc, &mut grid, &mut tables, Cell { x, y }, &mut steps)? {
            return Ok(false);
        }
    }
    Ok(true)
}

#[test]
fn five_hundred_edits(rt: HostRuntime) -> Result<(), Fail> {
    for corner in [Corner::Never, Corner::One, Corner::Both] {
        assert!(rt; edits_agree::<Brand>(rt.alloc(), 64, 25, 500, corner, Blank::new(1))?);
    }
    Ok(())
}

// In an open map more walks begin in a line than keep abreast.
#[test]
fn edits_of_an_open_map(rt: HostRuntime) -> Result<(), Fail> {
    for corner in [Corner::Never, Corner::One, Corner::Both] {
        assert!(rt; edits_agree::<Brand>(rt.alloc(), 300, 0, 10, corner, Blank::new(1))?);
    }
    Ok(())
}
