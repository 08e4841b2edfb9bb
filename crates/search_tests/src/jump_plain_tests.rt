//! Jumps on maps on squared paper.

ghost use Rattle.std.specs.Prelude.{◌≡◌, ◌<◌, IfOk, length};
ghost use Rattle.grid_moves.specs.Grid.{AreCells};

use crate::jump_calls::{starts_of, stop_of};
use crate::paper::{RULES, cell};
use grid_moves::{Cell, Corner, Dir, Grid, NoMemory, Terrain};
use jump_plain::PlainJumps;
use std::alloc::Global;
use std::marker::Brand;
use std::process::Abort;
use std::sync::ledger::Blank;
use std::test::Fail;

// A jump from a cell in a direction, the goal that it looks for, and after how many moves it stops, under
// each rule.
#[derive(Clone, Copy)]
struct Row {
    at: Cell,
    d: Dir,
    goal: Cell,
    stop: [Option<u16>; 3],
}

fn stops(at: (u16, u16), d: Dir, goal: (u16, u16), stop: [Option<u16>; 3]) -> Row {
    let (at, goal) = (cell(at.0, at.1), cell(goal.0, goal.1));
    Row { at, d, goal, stop }
}

// Where a jump on a grid stops, if its cells are free.
fn stop_on(grid: &Grid, row: Row) -> Option<Option<u16>> {
    let (at, goal) = (row.at, row.goal);
    if !grid.free(at) || !grid.free(goal) {
        return None;
    }
    let jumps = PlainJumps { terrain: grid };
    Some(stop_of::<PlainJumps<'_, Grid>, Brand>(&jumps, at, row.d, goal, Blank::new(1)))
}

// The jumps on a map stop as the rows say, under each rule.
fn check(
    alloc: Global,
    rt: &impl Abort,
    width: u16,
    height: u16,
    cells: &[u8],
    rows: &[Row],
) -> Result<(), NoMemory>
    requires { AreCells width height cells.now }
{
    for (i, corner) in RULES.iter().enumerate() {
        let grid = Grid::of_cells(alloc, width, height, cells, *corner)?;
        for (k, row) in rows.iter().enumerate() {
            let stop = stop_on(&grid, *row);
            assert_eq!(rt; stop, Some(row.stop[i]), "rule {i}, row {k}");
        }
    }
    Ok(())
}

// On `.../.@./...`: round the pillar, and past its corner where that may be cut.
#[test]
fn round_a_pillar(rt: HostRuntime) -> Result<(), Fail> {
    let rows = [
        stops((0, 0), Dir::E, (2, 2), [Some(2), Some(1), Some(1)]),
        stops((0, 0), Dir::S, (2, 2), [Some(2), Some(1), Some(1)]),
        stops((2, 0), Dir::S, (2, 2), [Some(2), Some(1), Some(1)]),
        stops((0, 0), Dir::SE, (2, 2), [None, None, None]),
        stops((1, 0), Dir::SE, (2, 2), [None, Some(1), Some(1)]),
        stops((0, 1), Dir::SE, (2, 2), [None, Some(1), Some(1)]),
        stops((1, 2), Dir::E, (2, 2), [Some(1), Some(1), Some(1)]),
    ];
    check(rt.alloc(), &rt, 3, 3, b"....@....", &rows)?;
    Ok(())
}

// On `...../.@...`: to the mark behind the wall, or above it where a corner may be cut, and past it.
#[test]
fn beside_a_wall(rt: HostRuntime) -> Result<(), Fail> {
    let rows = [
        stops((0, 0), Dir::E, (0, 1), [Some(2), Some(1), Some(1)]),
        stops((1, 0), Dir::E, (0, 1), [Some(1), None, None]),
        stops((2, 0), Dir::E, (0, 1), [None, None, None]),
        stops((4, 0), Dir::W, (0, 1), [Some(4), Some(3), Some(3)]),
        stops((0, 0), Dir::SE, (0, 1), [None, None, None]),
        stops((1, 0), Dir::SE, (0, 1), [None, None, None]),
        stops((2, 0), Dir::SE, (0, 1), [None, None, None]),
    ];
    check(rt.alloc(), &rt, 5, 2, b"......@...", &rows)?;
    Ok(())
}

// On `..@/.@.` and on `.@/@.`: between two blocked cells, from the end of a run and from the start, where
// that is a move.
#[test]
fn between_two_walls(rt: HostRuntime) -> Result<(), Fail> {
    let rows = [
        stops((0, 0), Dir::E, (2, 1), [None, None, Some(1)]),
        stops((1, 0), Dir::E, (2, 1), [None, None, None]),
        stops((1, 0), Dir::SE, (2, 1), [None, None, Some(1)]),
        stops((2, 1), Dir::W, (0, 0), [None, None, None]),
        stops((2, 1), Dir::NW, (0, 0), [None, None, Some(1)]),
    ];
    check(rt.alloc(), &rt, 3, 2, b"..@.@.", &rows)?;
    let rows = [stops((0, 0), Dir::SE, (1, 1), [None, None, Some(1)])];
    check(rt.alloc(), &rt, 2, 2, b".@@.", &rows)?;
    Ok(())
}

// On `......./....@..` the goal stands before the mark. On `..../..@.` its row is met where the way to it
// is closed. On `..@./..../..../....` a mark stands before it on its own diagonal. Where a corner may be cut
// a mark stands one cell before.
#[test]
fn goals_and_marks(rt: HostRuntime) -> Result<(), Fail> {
    let rows = [
        stops((0, 0), Dir::E, (3, 0), [Some(3), Some(3), Some(3)]),
        stops((0, 0), Dir::E, (0, 1), [Some(5), Some(4), Some(4)]),
    ];
    check(rt.alloc(), &rt, 7, 2, b"...........@..", &rows)?;
    let rows = [
        stops((0, 0), Dir::E, (3, 1), [Some(3), Some(2), Some(2)]),
        stops((3, 0), Dir::S, (3, 1), [Some(1), Some(1), Some(1)]),
        stops((0, 0), Dir::SE, (3, 1), [None, None, None]),
    ];
    check(rt.alloc(), &rt, 4, 2, b"......@.", &rows)?;
    let rows = [
        stops((0, 0), Dir::SE, (3, 3), [Some(1), Some(1), Some(1)]),
        stops((1, 1), Dir::SE, (3, 3), [Some(2), Some(2), Some(2)]),
    ];
    check(rt.alloc(), &rt, 4, 4, b"..@.............", &rows)?;
    Ok(())
}

// A jump stops past the blocked cell, one move beyond the cell above it, or above it where a corner may be
// cut.
fn past_or_above(above: u16) -> [Option<u16>; 3] {
    [above.checked_add(1), Some(above), Some(above)]
}

// Two rows of 1025 columns, blocked at one cell of the second.
fn corridor(alloc: Global, blocked: usize) -> Result<Vec<u8>, NoMemory>
    requires { blocked < 1025 }
    ensures { IfOk result (λ cells. length cells.items ≡ 2050) }
{
    let mut cells = vec![in alloc; b'.'; 2050]?;
    cells[1025 + blocked] = b'@';
    Ok(cells)
}

// In long rows: to the cell past the blocked one, from either side, or above it where a corner may be cut.
#[test]
fn along_a_corridor(rt: HostRuntime) -> Result<(), Fail> {
    for (blocked, from_left, from_right) in [(511, 511, 513), (512, 512, 512), (1023, 1023, 1)] {
        let cells = corridor(rt.alloc(), blocked)?;
        let rows = [
            stops((0, 0), Dir::E, (0, 1), past_or_above(from_left)),
            stops((1024, 0), Dir::W, (0, 1), past_or_above(from_right)),
        ];
        check(rt.alloc(), &rt, 1025, 2, &cells, &rows)?;
    }
    Ok(())
}

// On `../..` three moves lead out of a corner.
#[test]
fn out_of_a_corner(rt: HostRuntime) -> Result<(), Fail> {
    for corner in RULES {
        let grid = Grid::of_cells(rt.alloc(), 2, 2, b"....", corner)?;
        let at = cell(0, 0);
        assert!(rt; grid.free(at));
        let jumps = PlainJumps { terrain: &grid };
        let (dirs, _word) = starts_of::<PlainJumps<'_, Grid>, Brand>(&jumps, at, Blank::new(1));
        assert_eq!(rt; dirs.len(), 3);
    }
    Ok(())
}
