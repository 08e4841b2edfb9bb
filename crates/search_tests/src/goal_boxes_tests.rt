//! Boxes and runs on small maps, by hand.

ghost use Rattle.std.specs.Prelude.{◌≡◌, ◌<◌};

use crate::paper::{RULES, cell};
use goal_boxes::{Area, Boxes, CellBoxes, Found, NoMemory, boxed_query, boxed_search, boxes_of};
use grid_moves::{Cell, Corner, Dir, Grid, Terrain};
use root2_cost::Cost;
use std::alloc::Global;
use std::marker::Brand;
use std::sync::ledger::{Blank, Ledger};
use std::test::Fail;
use steps::Steps;

fn area(x0: u16, y0: u16, x1: u16, y1: u16) -> Option<Area> {
    Some(Area { x0, y0, x1, y1 })
}

// Whether these are the boxes of a cell.
fn are_boxes(alloc: Global, grid: &Grid, c: Cell, boxes: CellBoxes) -> Result<bool, NoMemory> {
    if !grid.free(c) {
        return Ok(false);
    }
    Ok(boxes_of(alloc, grid, c)? == boxes)
}

// Whether this was found: points and cost, or no walk, and the taken states.
fn is_wanted(found: &Found, walk: Option<(&[Cell], Cost)>, states: &[u32]) -> bool {
    let same = match &found.walk {
        Some(wanted) => walk == Some((wanted.points.as_slice(), wanted.cost)),
        None => walk.is_none(),
    };
    same && found.taken.as_slice() == states
}

// Whether the search from the upper left cell finds this by kept boxes, and by passes.
fn finds_it<L: Ledger>(
    alloc: Global,
    grid: &Grid,
    to: Cell,
    walk: Option<(&[Cell], Cost)>,
    states: &[u32],
    blank: Blank,
) -> Result<bool, NoMemory>
    requires name { blank.name ≡ L.name }
    requires parts { blank.parts ≡ L.parts }
    requires some { 0 < L.parts }
{
    let from = cell(0, 0);
    if !grid.free(from) || !grid.free(to) {
        return Ok(false);
    }
    let boxes = Boxes::build(alloc, grid)?;
    let kept = boxed_search(alloc, grid, &boxes, from, to)?;
    let mut passes = Steps::<L>::new(blank);
    let by_passes = boxed_query(alloc, grid, from, to, &mut passes)?;
    Ok(is_wanted(&kept, walk, states) && is_wanted(&by_passes, walk, states))
}

// The same, with a counter of its own.
fn is_answer(
    alloc: Global,
    grid: &Grid,
    to: Cell,
    walk: Option<(&[Cell], Cost)>,
    states: &[u32],
) -> Result<bool, NoMemory> {
    finds_it::<Brand>(alloc, grid, to, walk, states, Blank::new(1))
}

// From the upper left of the open map of three by three cells. To (2,1) and to (1,2) least walks begin both
// ways, so each of them lies in two boxes.
#[test]
fn boxes_of_a_corner_overlap(rt: HostRuntime) -> Result<(), Fail> {
    let (e, se, s) = (area(1, 0, 2, 1), area(1, 1, 2, 2), area(0, 1, 1, 2));
    let boxes = CellBoxes {
        areas: [None, None, e, se, s, None, None, None],
    };
    for corner in RULES {
        let grid = Grid::of_cells(rt.alloc(), 3, 3, b".........", corner)?;
        assert!(rt; are_boxes(rt.alloc(), &grid, cell(0, 0), boxes)?);
    }
    Ok(())
}

// On `...@/.@@./....` the goal lies in the box downwards alone: the run goes round, and the cells to the
// right of the start are never offered. Where two blocked cells may be passed between, the run goes right and
// through the gap.
#[test]
fn moves_away_from_the_goal_are_left_out(rt: HostRuntime) -> Result<(), Fail> {
    let (map, to) = (b"...@.@@.....", cell(3, 1));
    let grid = Grid::of_cells(rt.alloc(), 4, 3, map, Corner::Never)?;
    let points = [cell(0, 0), cell(0, 2), cell(3, 2), to];
    let walk = Some((points.as_slice(), Cost { a: 6, b: 0 }));
    let states = [8, 44, 80, 89, 98, 107, 71];
    assert!(rt; is_answer(rt.alloc(), &grid, to, walk, &states)?);
    let grid = Grid::of_cells(rt.alloc(), 4, 3, map, Corner::Both)?;
    let points = [cell(0, 0), cell(2, 0), to];
    let walk = Some((points.as_slice(), Cost { a: 2, b: 1 }));
    assert!(rt; is_answer(rt.alloc(), &grid, to, walk, &[8, 17, 26, 71])?);
    Ok(())
}

// Two cells that touch at a corner have no boxes, and no walk, unless two blocked cells may be passed
// between.
#[test]
fn a_walk_leads_past_two_corners(rt: HostRuntime) -> Result<(), Fail> {
    let points = [cell(0, 0), cell(1, 1)];
    let walk = Some((points.as_slice(), Cost { a: 0, b: 1 }));
    for (corner, southeast, walk, states) in [
        (Corner::One, None, None, [8].as_slice()),
        (Corner::Both, area(1, 1, 1, 1), walk, [8, 35].as_slice()),
    ] {
        let grid = Grid::of_cells(rt.alloc(), 2, 2, b".@@.", corner)?;
        let boxes = Boxes::build(rt.alloc(), &grid)?;
        assert!(rt; boxes.width() == 2 && boxes.height() == 2);
        assert!(rt; boxes.area(Cell { x: 0, y: 0 }, Dir::SE) == southeast);
        assert!(rt; is_answer(rt.alloc(), &grid, cell(1, 1), walk, states)?);
    }
    Ok(())
}
