//! The worked rows: maps of three by three and two by two cells, by hand.

use crate::paper::{RULES, cell};
use grid_moves::{Cell, Corner, Grid, Terrain};
use plain_search::{Listed, NoMemory, least};
use root2_cost::Cost;
use std::alloc::Global;
use std::test::Fail;

// Whether the search finds this: points, cost and taken states, or no walk and the taken states.
fn is_answer(
    alloc: Global,
    grid: &Grid,
    from: Cell,
    to: Cell,
    walk: Option<(&[Cell], Cost)>,
    states: &[u32],
) -> Result<bool, NoMemory> {
    if !grid.free(from) || !grid.free(to) {
        return Ok(false);
    }
    match least(alloc, grid, from, to)? {
        Listed::Found {
            points,
            cost,
            taken,
            ..
        } => Ok(walk == Some((points.as_slice(), cost)) && taken.as_slice() == states),
        Listed::None { taken, .. } => Ok(walk.is_none() && taken.as_slice() == states),
    }
}

// Round the pillar in the middle: the cells 0, 1, 3, 2, 5, 6, 7, 8 are taken.
#[test]
fn the_pillar_is_passed(rt: HostRuntime) -> Result<(), Fail> {
    let grid = Grid::of_cells(rt.alloc(), 3, 3, b"....@....", Corner::Never)?;
    let points = [cell(0, 0), cell(2, 0), cell(2, 2)];
    let walk = Some((points.as_slice(), Cost { a: 4, b: 0 }));
    let states = [8, 17, 35, 26, 53, 62, 71, 80];
    assert!(rt; is_answer(rt.alloc(), &grid, cell(0, 0), cell(2, 2), walk, &states)?);
    Ok(())
}

// Two cells that touch at a corner: a walk leads between the others where both may be passed.
#[test]
fn no_walk_leads_past_two_corners(rt: HostRuntime) -> Result<(), Fail> {
    for corner in [Corner::Never, Corner::One] {
        let grid = Grid::of_cells(rt.alloc(), 2, 2, b".@@.", corner)?;
        assert!(rt; is_answer(rt.alloc(), &grid, cell(0, 0), cell(1, 1), None, &[8])?);
    }
    let grid = Grid::of_cells(rt.alloc(), 2, 2, b".@@.", Corner::Both)?;
    let points = [cell(0, 0), cell(1, 1)];
    let walk = Some((points.as_slice(), Cost { a: 0, b: 1 }));
    assert!(rt; is_answer(rt.alloc(), &grid, cell(0, 0), cell(1, 1), walk, &[8, 35])?);
    Ok(())
}

// On `.../...` the cells (1,0) and (1,1) offer the goal at one cost. The first of them was taken first.
#[test]
fn the_earlier_of_equal_offers_stands(rt: HostRuntime) -> Result<(), Fail> {
    let (from, to) = (cell(0, 0), cell(2, 1));
    let points = [from, cell(1, 0), to];
    let walk = Some((points.as_slice(), Cost { a: 1, b: 1 }));
    for corner in RULES {
        let grid = Grid::of_cells(rt.alloc(), 3, 2, b"......", corner)?;
        assert!(rt; is_answer(rt.alloc(), &grid, from, to, walk, &[8, 17, 44, 53])?);
    }
    Ok(())
}

// Of the nine cells round the pillar, (0,0), (1,0) and (0,1) have sums below the least cost of 4.
#[test]
fn lists_are_those_counted_by_hand(rt: HostRuntime) -> Result<(), Fail> {
    let grid = Grid::of_cells(rt.alloc(), 3, 3, b"....@....", Corner::Never)?;
    let (from, to) = (cell(0, 0), cell(2, 2));
    assert!(rt; grid.free(from) && grid.free(to));
    let entries = [
        (cell(0, 0), Cost { a: 0, b: 0 }),
        (cell(1, 0), Cost { a: 1, b: 0 }),
        (cell(0, 1), Cost { a: 1, b: 0 }),
    ];
    match least(rt.alloc(), &grid, from, to)? {
        Listed::Found { closed, .. } => {
            assert_eq!(rt; closed.as_slice(), entries.as_slice());
        }
        Listed::None { .. } => assert!(rt; false, "a walk leads round the pillar"),
    }
    Ok(())
}
