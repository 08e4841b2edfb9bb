//! Walks on squared paper.

ghost use Rattle.std.specs.Prelude.{◌≡◌, IfOk};

use crate::paper::cell;
use grid_moves::{Cell, Corner, Grid};
use path_points::{BadAt, Cells, NoMemory, Points, check_walk, unfold};
use root2_cost::Cost;
use std::alloc::Global;
use std::test::Fail;

fn points_of(alloc: Global, cells: &[Cell]) -> Result<Points, NoMemory>
    ensures { IfOk result (λ points. points ≡ cells.now) }
{
    let mut points = Points::new(alloc);
    for c in cells {
        points.push(*c)?;
    }
    Ok(points)
}

// On squared paper: two steps up a diagonal, two along a row.
#[test]
fn segments_are_filled_cell_by_cell(rt: HostRuntime) -> Result<(), Fail> {
    let points = points_of(rt.alloc(), &[cell(0, 3), cell(2, 1), cell(4, 1)])?;
    let mut walk = Cells::new(rt.alloc());
    for c in [cell(0, 3), cell(1, 2), cell(2, 1), cell(3, 1), cell(4, 1)] {
        walk.push(c)?;
    }
    assert!(rt; points.lined());
    assert_eq!(rt; unfold(rt.alloc(), &points)?.as_slice(), walk.as_slice());
    Ok(())
}

// On the map `.../.@./...`: round the pillar, through it, with no point, from the pillar, by a
// knight's move, with a point twice, past a corner; and past the corner where that is allowed.
#[test]
fn the_first_bad_point_is_named(rt: HostRuntime) -> Result<(), Fail> {
    let grid = Grid::of_cells(rt.alloc(), 3, 3, b"....@....", Corner::Never)?;
    for (cells, answer) in [
        (
            [cell(0, 0), cell(2, 0), cell(2, 2)].as_slice(),
            Ok(Cost { a: 4, b: 0 }),
        ),
        ([cell(0, 0), cell(2, 2)].as_slice(), Err(BadAt(1))),
        ([].as_slice(), Err(BadAt(0))),
        ([cell(1, 1), cell(1, 2)].as_slice(), Err(BadAt(0))),
        (
            [cell(0, 0), cell(2, 0), cell(1, 2)].as_slice(),
            Err(BadAt(2)),
        ),
        (
            [cell(0, 0), cell(0, 2), cell(0, 2)].as_slice(),
            Err(BadAt(2)),
        ),
        (
            [cell(0, 0), cell(1, 0), cell(2, 1)].as_slice(),
            Err(BadAt(2)),
        ),
    ] {
        assert!(rt; cells.len() < 4);
        let points = points_of(rt.alloc(), cells)?;
        assert_eq!(rt; check_walk(&grid, &points), answer, "{cells:?}");
    }
    let grid = Grid::of_cells(rt.alloc(), 3, 3, b"....@....", Corner::One)?;
    let past_the_corner = points_of(rt.alloc(), &[cell(1, 0), cell(2, 1)])?;
    assert_eq!(rt;
        check_walk(&grid, &past_the_corner),
        Ok(Cost { a: 0, b: 1 })
    );
    Ok(())
}
