//! Small maps by hand. The tests of `components` stand here too,
//! as a crate is proved once more with its tests.

ghost use Rattle.std.specs.Prelude.{◌≡◌, IfOk, length};
ghost use Rattle.grid_moves.specs.Grid.{AreCells, AreSides};

use crate::nearest;
use components::{Components, NoMemory};
use grid_moves::{Cell, Corner, Grid, Terrain};
use std::alloc::Global;
use std::test::Fail;

const RULES: [Corner; 3] = [Corner::Never, Corner::One, Corner::Both];

fn cell(x: u16, y: u16) -> Cell {
    Cell { x, y }
}

// Whether the labels of a grid stay fresh where a cell is blocked.
fn stay_fresh(alloc: Global, grid: &Grid, at: Cell) -> Result<bool, NoMemory> {
    let mut p = Components::of(alloc, grid)?;
    if at.x >= p.width() || at.y >= p.height() {
        return Ok(false);
    }
    p.set(at, false);
    Ok(p.is_fresh())
}

// The same on a map of these sides.
fn stay_fresh_on(
    alloc: Global,
    width: u16,
    height: u16,
    cells: &[u8],
    at: Cell,
    corner: Corner,
) -> Result<bool, NoMemory>
    requires { AreCells width height cells.now }
{
    let grid = Grid::of_cells(alloc, width, height, cells, corner)?;
    stay_fresh(alloc, &grid, at)
}

// The answers are for the rules in their order. Under the first two a corner joins two cells beside it only
// where it is free, and a cell on a corner is joined with the middle over one beside it; under the third both
// ends of a diagonal are joined as they stand.
#[test]
fn labels_stay_fresh_where_nothing_parts(rt: HostRuntime) -> Result<(), Fail> {
    for (cells, fresh) in [
        (b".........", [true, true, true]),
        (b"....@....", [true, true, true]),
        (b"@@@@.@@@@", [true, true, true]),
        (b"@.@...@.@", [false, false, true]),
        (b".@.@.@.@.", [true, true, false]),
        (b"...@.@...", [false, false, false]),
        (b"...@.@@@@", [true, true, true]),
        (b"..@..@@@@", [true, true, true]),
        (b"@.@..@@@@", [false, false, true]),
        (b"......@.@", [false, false, true]),
        (b"...@..@..", [true, true, true]),
        (b"..@@.@@@.", [true, true, false]),
    ] {
        for i in 0..3 {
            assert_eq!(rt;
                stay_fresh_on(rt.alloc(), 3, 3, cells, cell(1, 1), RULES[i])?,
                fresh[i],
                "{cells:?} {i}"
            );
        }
    }
    Ok(())
}

// The door above a room is closed: there is another one below it; there is none; there is a gap at a corner,
// which the third rule alone lets pass; and the one below leads to where no way around leads.
#[test]
fn another_door_keeps_labels_fresh(rt: HostRuntime) -> Result<(), Fail> {
    for (cells, fresh) in [
        (
            b"........@@.@@..@...@..@...@..@@.@@........",
            [true, true, true],
        ),
        (
            b"........@@.@@..@...@..@...@..@@@@@........",
            [false, false, false],
        ),
        (
            b"........@@.@@..@...@..@...@..@@@@.........",
            [false, false, true],
        ),
        (
            b"........@@.@@..@...@@@@...@..@@.@@........",
            [false, false, false],
        ),
    ] {
        for i in 0..3 {
            assert_eq!(rt;
                stay_fresh_on(rt.alloc(), 7, 6, cells, cell(3, 1), RULES[i])?,
                fresh[i],
                "{cells:?} {i}"
            );
        }
    }
    Ok(())
}

// A wall of one column with doors at both borders, with one of them, and a map's corner beside a block.
#[test]
fn doors_at_borders_are_closed(rt: HostRuntime) -> Result<(), Fail> {
    for (cells, at, fresh) in [
        (b"....@..@..@....", cell(1, 0), [true, true, true]),
        (b"....@..@..@....", cell(1, 4), [true, true, true]),
        (b"....@..@..@..@.", cell(1, 0), [false, false, false]),
        (b"....@..........", cell(0, 0), [true, true, true]),
        (b"....@..@..@.@..", cell(2, 0), [false, false, true]),
    ] {
        for i in 0..3 {
            assert_eq!(rt;
                stay_fresh_on(rt.alloc(), 3, 5, cells, at, RULES[i])?,
                fresh[i],
                "{cells:?} {at:?} {i}"
            );
        }
    }
    Ok(())
}

// So many bytes of open land.
fn open_land(alloc: Global, n: usize) -> Result<Vec<u8>, NoMemory>
    ensures { IfOk result (λ v. length v.items ≡ n) }
{
    vec![in alloc; b'.'; n]
}

// Two halls with a wall of one column between them, and doors in the first row and in one more.
fn halls(
    alloc: Global,
    width: u16,
    height: u16,
    door: u16,
    corner: Corner,
) -> Result<Grid, NoMemory>
    requires { AreSides width height }
{
    let cells = open_land(alloc, height as usize * width as usize)?;
    let mut grid = Grid::of_cells(alloc, width, height, &cells, corner)?;
    let x = width / 2;
    for y in 1..height {
        if y != door && x < grid.width() && y < grid.height() {
            grid.set(Cell { x, y }, false);
        }
    }
    Ok(grid)
}

// The door in the first row is closed. From one side of it to the other the way along the walls, through the
// farther door, is 4002 steps long in the narrow halls, or too long.
#[test]
fn a_door_far_away_is_not_found(rt: HostRuntime) -> Result<(), Fail> {
    for (width, height, door, fresh) in [
        (256, 200, 20, true),
        (256, 200, 199, true),
        (3, 4096, 2000, true),
        (3, 4096, 4095, false),
    ] {
        for corner in RULES {
            let grid = halls(rt.alloc(), width, height, door, corner)?;
            assert_eq!(rt;
                stay_fresh(rt.alloc(), &grid, cell(width / 2, 0))?,
                fresh,
                "{width} {door}"
            );
        }
    }
    Ok(())
}

// The nearest cell on a map of these sides.
fn found(
    alloc: Global,
    width: u16,
    height: u16,
    cells: &[u8],
    start: Cell,
    goal: Cell,
) -> Result<Option<Cell>, NoMemory>
    requires { AreCells width height cells.now }
{
    let grid = Grid::of_cells(alloc, width, height, cells, Corner::Never)?;
    let p = Components::of(alloc, &grid)?;
    if goal.x >= p.width() || goal.y >= p.height() {
        return Ok(None);
    }
    Ok(Some(nearest(&p, start, goal)))
}

// Beside a wall, on it, reached, and behind it: a straight move off goes before a diagonal one, the lesser
// number only where both are as far.
#[test]
fn estimates_go_before_numbers(rt: HostRuntime) -> Result<(), Fail> {
    for (start, goal, wanted) in [
        (cell(0, 0), cell(4, 1), cell(0, 1)),
        (cell(2, 0), cell(3, 1), cell(3, 0)),
        (cell(2, 0), cell(4, 2), cell(4, 2)),
        (cell(0, 0), cell(1, 2), cell(0, 2)),
        (cell(4, 1), cell(0, 0), cell(2, 0)),
    ] {
        let cell = found(rt.alloc(), 5, 3, b".@....@.@..@...", start, goal)?;
        assert_eq!(rt; cell, Some(wanted), "from {start:?} to {goal:?}");
    }
    Ok(())
}

// The cell five columns and rows off lies on the fifth ring, and costs more than six columns.
#[test]
fn a_wider_ring_may_be_nearer(rt: HostRuntime) -> Result<(), Fail> {
    let cells = b"@@@@@@.@@@@@@.@@@@@@.@@@@@@.@@@@@@.@@@@@..";
    let cell = found(rt.alloc(), 7, 6, cells, cell(5, 5), cell(0, 0))?;
    assert_eq!(rt; cell, Some(Cell { x: 6, y: 0 }));
    Ok(())
}
