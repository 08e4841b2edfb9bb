//! Jumps over bits, and where they begin, against plain ones, with walls at every place of two blocks.

ghost use Rattle.std.specs.Prelude.{◌≡◌, IsTrue};
ghost use Rattle.grid_moves.specs.Grid.{AreSides, is_inside};
ghost use Rattle.bit_grid.specs.Bits.{AreBitsOf};

use crate::jump_calls::{starts_of, stop_of};
use crate::paper::RULES;
use bit_grid::BitGrid;
use grid_moves::{ALL_DIRS, Cell, Corner, Dir, Grid, NoMemory, Terrain};
use jump_block::BlockJumps;
use jump_plain::PlainJumps;
use std::alloc::Global;
use std::marker::Brand;
use std::sync::ledger::Blank;
use std::test::Fail;

// Whether a jump over the bits stops where a plain one does, if one can begin there.
fn is_alike(grid: &Grid, bits: &BitGrid, at: Cell, d: Dir, goal: Cell) -> bool
    requires { AreBitsOf bits.now grid.now }
{
    if !grid.free(at) || !grid.free(goal) {
        return true;
    }
    let block = BlockJumps { bits };
    let plain = PlainJumps { terrain: grid };
    stop_of::<BlockJumps<'_>, Brand>(&block, at, d, goal, Blank::new(1))
        == stop_of::<PlainJumps<'_, Grid>, Brand>(&plain, at, d, goal, Blank::new(1))
}

// Whether a search over the bits starts in the directions of one over plain jumps, if it can start there.
fn starts_alike(grid: &Grid, bits: &BitGrid, at: Cell) -> bool
    requires { AreBitsOf bits.now grid.now }
{
    if !grid.free(at) {
        return true;
    }
    let block = BlockJumps { bits };
    let plain = PlainJumps { terrain: grid };
    let (dirs, _word) = starts_of::<PlainJumps<'_, Grid>, Brand>(&plain, at, Blank::new(1));
    let (list, word) = starts_of::<BlockJumps<'_>, Brand>(&block, at, Blank::new(1));
    list.as_slice() == dirs.as_slice() && word.as_slice() == dirs.as_slice()
}

// Whether the directions at a start and the jumps in all directions are alike at these cells.
fn are_alike(grid: &Grid, bits: &BitGrid, cells: &[Cell], goal: Cell) -> bool
    requires { AreBitsOf bits.now grid.now }
{
    for at in cells {
        if !starts_alike(grid, bits, *at) {
            return false;
        }
        for d in ALL_DIRS {
            if !is_alike(grid, bits, *at, d, goal) {
                return false;
            }
        }
    }
    true
}

// Makes a cell free, or blocked, in the grid and in its bits.
#[tactic(auto, using(bit_grid::proofs::Showing::on_map))]
fn set_in_both(grid: &mut Grid, bits: &mut BitGrid, c: Cell, free: bool)
    requires bits { AreBitsOf bits.old grid.old }
    requires inside { IsTrue (is_inside grid.old c) }
    ensures bits { AreBitsOf bits.new grid.new }
    ensures width { grid.new.width ≡ grid.old.width }
    ensures height { grid.new.height ≡ grid.old.height }
{
    grid.set(c, free);
    bits.set(c, free);
}

// Whether they are while two free cells, which may be one, are blocked.
fn are_alike_at_walls(
    grid: &mut Grid,
    bits: &mut BitGrid,
    walls: (Cell, Cell),
    cells: &[Cell],
    goal: Cell,
) -> bool
    requires { AreBitsOf bits.old grid.old }
    ensures { AreBitsOf bits.new grid.new }
{
    let (wall, other) = walls;
    if !grid.free(wall) || !grid.free(other) {
        return false;
    }
    set_in_both(grid, bits, wall, false);
    set_in_both(grid, bits, other, false);
    let alike = are_alike(grid, bits, cells, goal);
    set_in_both(grid, bits, wall, true);
    set_in_both(grid, bits, other, true);
    alike
}

// A cell of lines that run along the rows, or along the columns.
fn on_line(rows: bool, place: u16, line: u16) -> Cell {
    let (x, y) = if rows { (place, line) } else { (line, place) };
    Cell { x, y }
}

// Whether they are on three rows, or on three columns, with a wall at every place of each; and with one ahead
// in the middle and one beside the cell before it: the way between them is free where two blocked cells may
// be passed between.
fn are_alike_on_lines(
    alloc: Global,
    width: u16,
    height: u16,
    corner: Corner,
) -> Result<bool, NoMemory>
    requires { AreSides width height }
{
    let rows = height < width;
    let length = width.max(height);
    let open = vec![in alloc; b'.'; width as usize * height as usize]?;
    let mut grid = Grid::of_cells(alloc, width, height, &open, corner)?;
    let mut bits = BitGrid::of_grid(alloc, &grid)?;
    let goal = on_line(rows, 700, 2);
    for place in 0..length {
        let before = place.saturating_sub(1);
        let cells = [
            on_line(rows, 0, 1),
            on_line(rows, length - 1, 1),
            on_line(rows, before.saturating_sub(1), 1),
            on_line(rows, before, 1),
            on_line(rows, place + 1, 1),
        ];
        for line in 0..3u16 {
            let wall = on_line(rows, place, line);
            let ahead = (on_line(rows, before, line), on_line(rows, place, 1));
            let behind = (wall, on_line(rows, before, 1));
            for walls in [(wall, wall), ahead, behind] {
                if !are_alike_at_walls(&mut grid, &mut bits, walls, &cells, goal) {
                    return Ok(false);
                }
            }
        }
    }
    Ok(true)
}

#[test]
fn walls_at_every_place_of_three_rows(rt: HostRuntime) -> Result<(), Fail> {
    for corner in RULES {
        assert!(rt; are_alike_on_lines(rt.alloc(), 1026, 3, corner)?);
    }
    Ok(())
}

#[test]
fn walls_at_every_place_of_three_columns(rt: HostRuntime) -> Result<(), Fail> {
    for corner in RULES {
        assert!(rt; are_alike_on_lines(rt.alloc(), 3, 1026, corner)?);
    }
    Ok(())
}
