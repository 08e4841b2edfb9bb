//! Certificates of small maps, by hand.

use grid_moves::{Cell, Corner, Grid, Terrain};
use potential_make::certificate;
use std::test::Fail;

// Round the pillar in the middle of nine cells: (0,0), (1,0) and (0,1) are below the least cost of 4.
#[test]
fn the_pillar_has_three_values(rt: HostRuntime) -> Result<(), Fail> {
    let grid = Grid::of_cells(rt.alloc(), 3, 3, b"....@....", Corner::Never)?;
    let (from, to) = (Cell { x: 0, y: 0 }, Cell { x: 2, y: 2 });
    assert!(rt; grid.free(from) && grid.free(to));
    let text = certificate(rt.alloc(), &grid, from, to)?;
    let lines = b"jps-cert 1\nsize 3 3\nends 0 0 2 2\nleast 4 0\npoints 0,0 2,0 2,2\n\
        value 0 0 0 0\nvalue 1 0 1 0\nvalue 0 1 1 0\nend\n";
    assert_eq!(rt; text.as_slice(), lines.as_slice());
    Ok(())
}

#[test]
fn a_cell_between_corners_is_alone(rt: HostRuntime) -> Result<(), Fail> {
    let grid = Grid::of_cells(rt.alloc(), 2, 2, b".@@.", Corner::Never)?;
    let (from, to) = (Cell { x: 0, y: 0 }, Cell { x: 1, y: 1 });
    assert!(rt; grid.free(from) && grid.free(to));
    let text = certificate(rt.alloc(), &grid, from, to)?;
    let lines = b"jps-cert 1\nsize 2 2\nends 0 0 1 1\nnone\nin 0 0\nend\n";
    assert_eq!(rt; text.as_slice(), lines.as_slice());
    Ok(())
}
