//! Entries and jumps that were counted on squared paper.

ghost use Rattle.std.specs.Prelude.{◌≡◌, ◌<◌, true, IsTrue};
ghost use Rattle.grid_moves.specs.Grid.{AreCells, is_free};
ghost use Rattle.plus_tables.specs.Tables.{AreTablesOf, is_on};

use grid_moves::{Cell, Corner, Dir, Grid, NoMemory, Terrain};
use plus_tables::{PlusJumps, Tables};
use pruning::JumpSource;
use std::alloc::Global;
use std::marker::Brand;
use std::process::Abort;
use std::sync::ledger::{Blank, Ledger};
use std::test::Fail;
use steps::Steps;

// A cell, a direction and the table entry for them under each rule.
type Row = ((u16, u16), Dir, [i16; 3]);

fn entry_of<L: Ledger>(tables: &Tables, at: Cell, d: Dir, blank: Blank) -> i16
    requires on { is_on tables.now at ≡ true }
    requires name { blank.name ≡ L.name }
    requires parts { blank.parts ≡ L.parts }
    requires some { 0 < L.parts }
{
    let mut steps = Steps::<L>::new(blank);
    tables.entry(at, d, &mut steps)
}

// The tables of a map have the entries of the rows, under each rule.
fn check_entries(
    alloc: Global,
    rt: &impl Abort,
    width: u16,
    height: u16,
    cells: &[u8],
    rows: &[Row],
) -> Result<(), NoMemory>
    requires { AreCells width height cells.now }
{
    for (i, corner) in [Corner::Never, Corner::One, Corner::Both]
        .iter()
        .enumerate()
    {
        let grid = Grid::of_cells(alloc, width, height, cells, *corner)?;
        let tables = Tables::build(alloc, &grid)?;
        for ((x, y), d, entries) in rows {
            assert!(rt; *x < tables.width() && *y < tables.height());
            let entry = entry_of::<Brand>(&tables, Cell { x: *x, y: *y }, *d, Blank::new(1));
            assert_eq!(rt; entry, entries[i], "rule {i}, {d:?} from {x},{y}");
        }
    }
    Ok(())
}

// On `...../.@...`: to the mark behind the wall, or above it where a corner may be cut, and to the border.
#[test]
fn entries_beside_a_wall(rt: HostRuntime) -> Result<(), Fail> {
    let rows = [
        ((0, 0), Dir::E, [2, 1, 1]),
        ((1, 0), Dir::E, [1, -3, -3]),
        ((2, 0), Dir::E, [-2, -2, -2]),
        ((4, 0), Dir::W, [4, 3, 3]),
        ((0, 0), Dir::SE, [0, 0, 0]),
        ((1, 0), Dir::SE, [0, -1, -1]),
        ((2, 0), Dir::SE, [-1, -1, -1]),
        ((1, 1), Dir::E, [0, 0, 0]),
    ];
    check_entries(rt.alloc(), &rt, 5, 2, b"......@...", &rows)?;
    Ok(())
}

// On `..@/.@.` a way leads between two blocked cells, from (1,0) to (2,1): where both may be passed (1,0) is
// marked for E and NE, though it is the last cell of its row.
#[test]
fn entries_between_two_walls(rt: HostRuntime) -> Result<(), Fail> {
    let rows = [
        ((0, 0), Dir::E, [-1, -1, 1]),
        ((0, 1), Dir::NE, [0, -1, 1]),
        ((1, 0), Dir::E, [0, 0, 0]),
        ((1, 0), Dir::SE, [0, 0, -1]),
        ((2, 1), Dir::NW, [0, 0, 1]),
    ];
    check_entries(rt.alloc(), &rt, 3, 2, b"..@.@.", &rows)?;
    Ok(())
}

// After how many moves a jump stops.
fn stop_of<L: Ledger>(tables: &Tables, at: Cell, d: Dir, goal: Cell, blank: Blank) -> Option<u16>
    requires stands { (g : _) × AreTablesOf tables.now g × IsTrue (is_free g at) × IsTrue (is_free g goal) }
    requires name { blank.name ≡ L.name }
    requires parts { blank.parts ≡ L.parts }
    requires some { 0 < L.parts }
{
    let mut steps = Steps::<L>::new(blank);
    PlusJumps { tables }.stop(at, d, goal, &mut steps)
}

// A jump to the southeast with this goal stops after so many moves.
fn check_stop(rt: &impl Abort, grid: &Grid, tables: &Tables, at: Cell, goal: Cell, stop: u16)
    requires { AreTablesOf tables.now grid.now }
{
    assert!(rt; grid.free(at) && grid.free(goal));
    let found = stop_of::<Brand>(tables, at, Dir::SE, goal, Blank::new(1));
    assert_eq!(rt; found, Some(stop));
}

// On `..@./..../..../....` a mark stands before the goal on its own diagonal; the goal is seen from (2,2)
// along a row, and from (1,1) not past the mark.
#[test]
fn goals_and_marks(rt: HostRuntime) -> Result<(), Fail> {
    let grid = Grid::of_cells(rt.alloc(), 4, 4, b"..@.............", Corner::Never)?;
    let tables = Tables::build(rt.alloc(), &grid)?;
    let (next, goal) = (Cell { x: 1, y: 1 }, Cell { x: 3, y: 3 });
    check_stop(&rt, &grid, &tables, Cell { x: 0, y: 0 }, goal, 1);
    check_stop(&rt, &grid, &tables, next, goal, 2);
    check_stop(&rt, &grid, &tables, next, Cell { x: 3, y: 2 }, 1);
    Ok(())
}

// On `.@./@.@/.@.`, where two blocked cells may be passed between, a mark stands before the goal.
#[test]
fn marks_between_blocked_cells(rt: HostRuntime) -> Result<(), Fail> {
    let grid = Grid::of_cells(rt.alloc(), 3, 3, b".@.@.@.@.", Corner::Both)?;
    let tables = Tables::build(rt.alloc(), &grid)?;
    let (next, goal) = (Cell { x: 1, y: 1 }, Cell { x: 2, y: 2 });
    check_stop(&rt, &grid, &tables, Cell { x: 0, y: 0 }, goal, 1);
    check_stop(&rt, &grid, &tables, next, goal, 1);
    Ok(())
}
