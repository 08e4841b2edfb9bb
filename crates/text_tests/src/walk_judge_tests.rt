//! Walks round a pillar, judged by hand.

ghost use Rattle.walk_judge.specs.Claims.{IsFit};

use grid_moves::{Cell, Corner, Grid, Terrain};
use root2_cost::Cost;
use std::alloc::Global;
use std::test::Fail;
use walk_judge::*;

fn cost(a: u32, b: u32) -> Cost {
    Cost { a, b }
}

fn cell(x: u16, y: u16) -> Cell {
    Cell { x, y }
}

// How what is claimed of the walks from the upper left cell is judged.
fn judged(alloc: Global, grid: &Grid, to: Cell, claimed: &Claimed) -> Result<Judged, NoMemory>
    requires { IsFit claimed.now }
{
    let from = cell(0, 0);
    if grid.free(from) {
        judge_walk(alloc, grid, from, to, claimed)
    } else {
        Err(NoMemory)
    }
}

// On the map `.../.@./...`, from the upper left cell to the lower right one: along two sides, point by
// point, through the pillar, none, with two steps back, to another goal, from another start, standing
// still, off the map, past the pillar's corner, and with the goal passed.
#[test]
fn claimed_walks_are_judged(rt: HostRuntime) -> Result<(), Fail> {
    let grid = Grid::of_cells(rt.alloc(), 3, 3, b"....@....", Corner::Never)?;
    let least = cost(4, 0);
    for (line, answer) in [
        (b"0,0 2,0 2,2".as_slice(), Judged::Least(least)),
        (b"0,0 1,0 2,0 2,1 2,2", Judged::Least(least)),
        (b"0,0 1,1 2,2", Judged::BadWalk(1)),
        (b"none", Judged::Exists(least)),
        (b"0,0 1,0 0,0 2,0 2,2", Judged::Longer(cost(6, 0), least)),
        (b"0,0 2,0", Judged::BadWalk(2)),
        (b"1,0 2,0 2,2", Judged::BadWalk(0)),
        (b"0,0 2,0 2,0 2,2", Judged::BadWalk(2)),
        (b"0,0 9999,0 2,2", Judged::BadWalk(1)),
        (b"0,0 1,0 2,1 2,2", Judged::BadWalk(2)),
        (b"0,0 2,0 2,2 1,2", Judged::BadWalk(4)),
    ] {
        assert!(rt; line.len() < 100);
        for claimed in &read_walks(rt.alloc(), line, 1)? {
            assert_eq!(rt; judged(rt.alloc(), &grid, cell(2, 2), claimed)?, answer);
        }
    }
    Ok(())
}

// Between two blocked cells, and to a blocked one.
#[test]
fn none_is_right_where_no_walk_leads(rt: HostRuntime) -> Result<(), Fail> {
    let grid = Grid::of_cells(rt.alloc(), 2, 2, b".@@.", Corner::One)?;
    for claimed in &read_walks(rt.alloc(), b"none", 1)? {
        assert_eq!(rt;
            judged(rt.alloc(), &grid, cell(1, 1), claimed)?,
            Judged::NoWalk
        );
        assert_eq!(rt;
            judged(rt.alloc(), &grid, cell(1, 0), claimed)?,
            Judged::NoWalk
        );
    }
    for claimed in &read_walks(rt.alloc(), b"0,0 1,1", 1)? {
        assert_eq!(rt;
            judged(rt.alloc(), &grid, cell(1, 1), claimed)?,
            Judged::BadWalk(1)
        );
    }
    Ok(())
}

#[test]
fn what_is_claimed_is_read(rt: HostRuntime) -> Result<(), Fail> {
    let text = b"\n0,0 0002,0\t2,10 \r\n \t\r\n none \n";
    let walks = read_walks(rt.alloc(), text, 2)?;
    let points = [cell(0, 0), cell(2, 0), cell(2, 10)];
    match walks.as_slice() {
        [Claimed::Walk(read), Claimed::None] => {
            assert_eq!(rt; read.as_slice(), points.as_slice());
        }
        _ => assert!(rt; false),
    }
    Ok(())
}

#[test]
fn the_first_broken_line_is_named(rt: HostRuntime) {
    for (text, entries, fault) in [
        (
            b"none\n\nnone\n".as_slice(),
            3,
            WalkFault::Count { line: 4 },
        ),
        (b"none\nnone", 3, WalkFault::Count { line: 3 }),
        (b"", 1, WalkFault::Count { line: 1 }),
        (b"none\n\n1;1\n", 1, WalkFault::Count { line: 3 }),
        (b"none\n0,0 1;1\n", 6, WalkFault::Line { line: 2 }),
        (b"0,0 00001,1\n", 1, WalkFault::Line { line: 1 }),
        (b"0,0 none\n", 1, WalkFault::Line { line: 1 }),
        (b"0,0 1,1\r\r\n", 1, WalkFault::Line { line: 1 }),
    ] {
        assert!(rt; text.len() < 100);
        let read = read_walks(rt.alloc(), text, entries);
        assert!(rt; matches!(read, Err(named) if named == fault), "{fault}");
    }
}
