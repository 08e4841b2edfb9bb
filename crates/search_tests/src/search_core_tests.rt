//! Searches over plain jumps on maps on squared paper.

ghost use Rattle.std.specs.Prelude.{◌≡◌, ◌<◌};

use crate::paper::cell;
use grid_moves::{Cell, Corner, Grid, Terrain};
use jump_plain::PlainJumps;
use root2_cost::Cost;
use search_core::{Layout, NoMemory, search};
use std::alloc::Global;
use std::marker::Brand;
use std::sync::ledger::{Blank, Ledger};
use std::test::Fail;
use steps::Steps;

// Whether the search finds this, with a counter of its own.
fn finds_it<L: Ledger>(
    alloc: Global,
    grid: &Grid,
    layout: Layout,
    to: Cell,
    walk: Option<(&[Cell], Cost)>,
    states: &[u32],
    blank: Blank,
) -> Result<bool, NoMemory>
    requires name { blank.name ≡ L.name }
    requires parts { blank.parts ≡ L.parts }
    requires some { 0 < L.parts }
{
    let from = cell(0, 0);
    if !grid.free(from) || !grid.free(to) {
        return Ok(false);
    }
    let mut steps = Steps::<L>::new(blank);
    let jumps = PlainJumps { terrain: grid };
    let found = search(alloc, &jumps, layout, from, to, &mut steps)?;
    let same = match &found.walk {
        Some(wanted) => walk == Some((wanted.points.as_slice(), wanted.cost)),
        None => walk.is_none(),
    };
    Ok(same && found.taken.as_slice() == states)
}

// Whether the search from the upper left cell finds this: points, cost and the numbers of the taken
// states, or no walk and these numbers.
fn is_answer(
    alloc: Global,
    grid: &Grid,
    to: Cell,
    walk: Option<(&[Cell], Cost)>,
    states: &[u32],
) -> Result<bool, NoMemory> {
    finds_it::<Brand>(
        alloc,
        grid,
        Layout::ByArrival,
        to,
        walk,
        states,
        Blank::new(1),
    )
}

// The same with one state for each cell, where it is named by the number of the arrival that it has when
// it is taken.
fn is_answer_by_cell(
    alloc: Global,
    grid: &Grid,
    to: Cell,
    walk: Option<(&[Cell], Cost)>,
    states: &[u32],
) -> Result<bool, NoMemory> {
    finds_it::<Brand>(alloc, grid, Layout::ByCell, to, walk, states, Blank::new(1))
}

// Round the pillar in the middle. The state that offers the goal first is (2,0), but (0,2) is taken
// before the goal, whose arrival from there has the lesser number.
#[test]
fn the_pillar_is_passed(rt: HostRuntime) -> Result<(), Fail> {
    let grid = Grid::of_cells(rt.alloc(), 3, 3, b"....@....", Corner::Never)?;
    let points = [cell(0, 0), cell(0, 2), cell(2, 2)];
    let walk = Some((points.as_slice(), Cost { a: 4, b: 0 }));
    assert!(rt; is_answer(rt.alloc(), &grid, cell(2, 2), walk, &[8, 20, 58, 74])?);
    let points = [cell(0, 0), cell(0, 1), cell(1, 2), cell(2, 2)];
    let walk = Some((points.as_slice(), Cost { a: 2, b: 1 }));
    let states = [8, 11, 31, 48, 66, 74];
    for corner in [Corner::One, Corner::Both] {
        let grid = Grid::of_cells(rt.alloc(), 3, 3, b"....@....", corner)?;
        assert!(rt; is_answer(rt.alloc(), &grid, cell(2, 2), walk, &states)?);
    }
    Ok(())
}

// On `.../.@./.../@@.` two states at (2,2) offer the goal at one cost. The one that came from (0,2) was
// taken first, and a later equal offer does not replace its own.
#[test]
fn the_earlier_of_equal_offers_stands(rt: HostRuntime) -> Result<(), Fail> {
    let grid = Grid::of_cells(rt.alloc(), 3, 4, b"....@....@@.", Corner::Never)?;
    let points = [cell(0, 0), cell(0, 2), cell(2, 2), cell(2, 3)];
    let walk = Some((points.as_slice(), Cost { a: 5, b: 0 }));
    let states = [8, 58, 20, 74, 76, 103];
    assert!(rt; is_answer(rt.alloc(), &grid, cell(2, 3), walk, &states)?);
    Ok(())
}

// With one state for each cell the goal keeps the arrival from (2,0), which is taken first: that from (0,2)
// costs as much, and comes later.
#[test]
fn the_first_arrival_of_a_cell_stays(rt: HostRuntime) -> Result<(), Fail> {
    let grid = Grid::of_cells(rt.alloc(), 3, 3, b"....@....", Corner::Never)?;
    let points = [cell(0, 0), cell(2, 0), cell(2, 2)];
    let walk = Some((points.as_slice(), Cost { a: 4, b: 0 }));
    assert!(rt; is_answer_by_cell(rt.alloc(), &grid, cell(2, 2), walk, &[8, 20, 58, 76])?);
    Ok(())
}

// On the map above (2,2) is taken once, come to from (0,2).
#[test]
fn a_cell_that_is_come_to_twice_is_taken_once(rt: HostRuntime) -> Result<(), Fail> {
    let grid = Grid::of_cells(rt.alloc(), 3, 4, b"....@....@@.", Corner::Never)?;
    let points = [cell(0, 0), cell(0, 2), cell(2, 2), cell(2, 3)];
    let walk = Some((points.as_slice(), Cost { a: 5, b: 0 }));
    assert!(rt; is_answer_by_cell(rt.alloc(), &grid, cell(2, 3), walk, &[8, 58, 20, 74, 103])?);
    Ok(())
}

// Two cells that touch at a corner.
#[test]
fn no_jump_leads_past_two_corners(rt: HostRuntime) -> Result<(), Fail> {
    for corner in [Corner::Never, Corner::One] {
        let grid = Grid::of_cells(rt.alloc(), 2, 2, b".@@.", corner)?;
        assert!(rt; is_answer(rt.alloc(), &grid, cell(1, 1), None, &[8])?);
        let grid = Grid::of_cells(rt.alloc(), 3, 2, b"..@.@.", corner)?;
        assert!(rt; is_answer(rt.alloc(), &grid, cell(2, 1), None, &[8])?);
    }
    Ok(())
}

// A jump leads past them where both may be passed: on `.@/@.` from the start, on `..@/.@.` from the end of a
// run, which is marked.
#[test]
fn a_jump_leads_past_two_corners(rt: HostRuntime) -> Result<(), Fail> {
    let grid = Grid::of_cells(rt.alloc(), 2, 2, b".@@.", Corner::Both)?;
    let points = [cell(0, 0), cell(1, 1)];
    let walk = Some((points.as_slice(), Cost { a: 0, b: 1 }));
    assert!(rt; is_answer(rt.alloc(), &grid, cell(1, 1), walk, &[8, 30])?);
    let grid = Grid::of_cells(rt.alloc(), 3, 2, b"..@.@.", Corner::Both)?;
    let points = [cell(0, 0), cell(1, 0), cell(2, 1)];
    let walk = Some((points.as_slice(), Cost { a: 1, b: 1 }));
    assert!(rt; is_answer(rt.alloc(), &grid, cell(2, 1), walk, &[8, 11, 48])?);
    Ok(())
}
