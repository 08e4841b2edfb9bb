//! Passes over small maps, and lists of least costs, with values by hand.

use crate::paper::{RULES, cell};
use cost_waves::{CostWaves, NoMemory};
use grid_moves::{Cell, Corner, Grid, Terrain};
use plain_search::least_to_all;
use root2_cost::Cost;
use std::alloc::Global;
use std::test::Fail;

// Bits of directions.
const N: u8 = 1;

const E: u8 = 4;

const SE: u8 = 8;

const S: u8 = 16;

const SW: u8 = 32;

const W: u8 = 64;

const NW: u8 = 128;

// A least walk has so many moves of each kind, and begins so.
fn at(a: u32, b: u32, firsts: u8) -> (Option<Cost>, u8) {
    (Some(Cost { a, b }), firsts)
}

const NOWHERE: (Option<Cost>, u8) = (None, 0);

// Whether after a pass from a cell these are the costs and first directions of all cells, and the costs those
// that are listed.
fn are_found<const WIDTH: usize, const HEIGHT: usize>(
    alloc: Global,
    waves: &mut CostWaves,
    grid: &Grid,
    from: Cell,
    rows: &[[(Option<Cost>, u8); WIDTH]; HEIGHT],
) -> Result<bool, NoMemory> {
    let (width, height) = (grid.width(), grid.height());
    if waves.width() != width || waves.height() != height || !grid.free(from) {
        return Ok(false);
    }
    if usize::from(width) != WIDTH || usize::from(height) != HEIGHT {
        return Ok(false);
    }
    waves.pass(grid, from)?;
    let listed = least_to_all(alloc, grid, from)?;
    let mut k: usize = 0;
    for y in 0..height {
        for x in 0..width {
            let (c, known) = (Cell { x, y }, rows[usize::from(y)][usize::from(x)]);
            if (waves.cost(c), waves.first_dirs(c)) != known || listed.get(k) != Some(&known.0) {
                return Ok(false);
            }
            k = k.saturating_add(1);
        }
    }
    Ok(k == listed.len())
}

// From the upper left to beyond the pillar: with no corner cut, and past its corners by the same memory. Its
// far corner is reached both ways.
#[test]
fn least_walks_part_at_a_pillar(rt: HostRuntime) -> Result<(), Fail> {
    let mut waves = CostWaves::new(rt.alloc(), 3, 3)?;
    let round = [
        [at(0, 0, 0), at(1, 0, E), at(2, 0, E)],
        [at(1, 0, S), NOWHERE, at(3, 0, E)],
        [at(2, 0, S), at(3, 0, S), at(4, 0, E | S)],
    ];
    let past = [
        [at(0, 0, 0), at(1, 0, E), at(2, 0, E)],
        [at(1, 0, S), NOWHERE, at(1, 1, E)],
        [at(2, 0, S), at(1, 1, S), at(2, 1, E | S)],
    ];
    for (corner, rows) in RULES.into_iter().zip([round, past, past]) {
        let grid = Grid::of_cells(rt.alloc(), 3, 3, b"....@....", corner)?;
        assert!(rt; are_found(rt.alloc(), &mut waves, &grid, cell(0, 0), &rows)?);
    }
    Ok(())
}

// On `..@/.@.` the lower right is reached between two walls, where both may be passed.
#[test]
fn a_walk_leads_between_two_walls(rt: HostRuntime) -> Result<(), Fail> {
    let mut waves = CostWaves::new(rt.alloc(), 3, 2)?;
    for (corner, last) in RULES.into_iter().zip([NOWHERE, NOWHERE, at(1, 1, E)]) {
        let grid = Grid::of_cells(rt.alloc(), 3, 2, b"..@.@.", corner)?;
        let first = [at(0, 0, 0), at(1, 0, E), NOWHERE];
        let rows = [first, [at(1, 0, S), NOWHERE, last]];
        assert!(rt; are_found(rt.alloc(), &mut waves, &grid, cell(0, 0), &rows)?);
    }
    Ok(())
}

// On open ground a straight and a diagonal move may come in either order.
#[test]
fn moves_come_in_either_order(rt: HostRuntime) -> Result<(), Fail> {
    let mut waves = CostWaves::new(rt.alloc(), 4, 2)?;
    let rows = [
        [at(2, 0, W), at(1, 0, W), at(0, 0, 0), at(1, 0, E)],
        [at(1, 1, W | SW), at(0, 1, SW), at(1, 0, S), at(0, 1, SE)],
    ];
    for corner in RULES {
        let grid = Grid::of_cells(rt.alloc(), 4, 2, b"........", corner)?;
        assert!(rt; are_found(rt.alloc(), &mut waves, &grid, cell(2, 0), &rows)?);
    }
    Ok(())
}

// On `..@./..@.` the last column is free, and cut off. A map of one cell has no move.
#[test]
fn nothing_is_known_of_a_part_cut_off(rt: HostRuntime) -> Result<(), Fail> {
    let mut waves = CostWaves::new(rt.alloc(), 4, 2)?;
    let rows = [
        [at(0, 1, NW), at(1, 0, N), NOWHERE, NOWHERE],
        [at(1, 0, W), at(0, 0, 0), NOWHERE, NOWHERE],
    ];
    for corner in RULES {
        let grid = Grid::of_cells(rt.alloc(), 4, 2, b"..@...@.", corner)?;
        assert!(rt; are_found(rt.alloc(), &mut waves, &grid, cell(1, 1), &rows)?);
    }
    let grid = Grid::of_cells(rt.alloc(), 1, 1, b".", Corner::Never)?;
    let mut waves = CostWaves::new(rt.alloc(), 1, 1)?;
    let alone = [[at(0, 0, 0)]];
    assert!(rt; are_found(rt.alloc(), &mut waves, &grid, cell(0, 0), &alone)?);
    Ok(())
}
