//! First moves on small maps, by hand.

ghost use Rattle.std.specs.Prelude.{◌≡◌, ◌<◌, ◌*◌, nat_le};

use crate::paper::{RULES, cell};
use cost_waves::CostWaves;
use first_moves::{Moves, NoMemory, Row, Run, follow_by_pass};
use grid_moves::{Cell, Corner, Dir, Grid, Terrain};
use path_points::Walk;
use root2_cost::Cost;
use std::alloc::Global;
use std::marker::Brand;
use std::sync::ledger::{Blank, Ledger};
use std::test::Fail;
use steps::Steps;

fn is_small(grid: &Grid) -> bool
    ensures { result ≡ nat_le (grid.now.height * grid.now.width) 16384 }
{
    usize::from(grid.height()) * usize::from(grid.width()) <= 16384
}

// Whether the row of a free cell has these runs.
fn has_runs(
    alloc: Global,
    grid: &Grid,
    s: Cell,
    runs: &[(u32, Option<Dir>)],
) -> Result<bool, NoMemory> {
    if !is_small(grid) || !grid.free(s) {
        return Ok(false);
    }
    let mut waves = CostWaves::new(alloc, grid.width(), grid.height())?;
    let row = Row::of(alloc, &mut waves, grid, s)?;
    for i in 0..row.runs() {
        if runs.get(i as usize).copied() != Some(row.run_at(i)) {
            return Ok(false);
        }
    }
    Ok(row.runs() as usize == runs.len())
}

// Whether this was found: points and their cost, or nothing.
fn is_wanted(found: &Option<Walk>, wanted: Option<(&[Cell], Cost)>) -> bool {
    match (found, wanted) {
        (Some(walk), Some((cells, cost))) => walk.points.as_slice() == cells && walk.cost == cost,
        (None, None) => true,
        _ => false,
    }
}

// Whether following first moves leads over these points at this cost, or nowhere: those that are kept, and
// those that one pass tells.
fn leads_over<L: Ledger>(
    alloc: Global,
    grid: &Grid,
    from: Cell,
    to: Cell,
    wanted: Option<(&[Cell], Cost)>,
    blank: Blank,
) -> Result<bool, NoMemory>
    requires name { blank.name ≡ L.name }
    requires parts { blank.parts ≡ L.parts }
    requires some { 0 < L.parts }
{
    if !is_small(grid) || !grid.free(from) || !grid.free(to) {
        return Ok(false);
    }
    let mut steps = Steps::<L>::new(blank);
    let moves = Moves::build(alloc, grid)?;
    let found = moves.follow(alloc, grid, from, to, &mut steps)?;
    let by_pass = follow_by_pass(alloc, grid, from, to, &mut steps)?;
    Ok(is_wanted(&found, wanted) && is_wanted(&by_pass, wanted))
}

// From the upper left of an open map; and where two blocked cells touch, no move leads anywhere, unless both
// may be passed.
#[test]
fn rows_are_cut_into_runs(rt: HostRuntime) -> Result<(), Fail> {
    let runs = [
        (0, None),
        (1, Some(Dir::E)),
        (3, Some(Dir::S)),
        (4, Some(Dir::SE)),
        (5, Some(Dir::E)),
        (6, Some(Dir::S)),
        (7, Some(Dir::SE)),
    ];
    for corner in RULES {
        let grid = Grid::of_cells(rt.alloc(), 3, 3, b".........", corner)?;
        assert!(rt; has_runs(rt.alloc(), &grid, cell(0, 0), &runs)?);
    }
    let grid = Grid::of_cells(rt.alloc(), 2, 2, b".@@.", Corner::One)?;
    assert!(rt; has_runs(rt.alloc(), &grid, cell(0, 0), &[(0, None)])?);
    let grid = Grid::of_cells(rt.alloc(), 2, 2, b".@@.", Corner::Both)?;
    let runs = [(0, None), (3, Some(Dir::SE))];
    assert!(rt; has_runs(rt.alloc(), &grid, cell(0, 0), &runs)?);
    Ok(())
}

// Round the pillar east comes before south, also where its corners may be passed. Nothing leads to a cell cut
// off.
#[test]
fn first_moves_lead_along_least_walks(rt: HostRuntime) -> Result<(), Fail> {
    let (from, to) = (cell(0, 0), cell(2, 2));
    let grid = Grid::of_cells(rt.alloc(), 3, 3, b"....@....", Corner::Never)?;
    let round = [from, cell(2, 0), to];
    let wanted = Some((round.as_slice(), Cost { a: 4, b: 0 }));
    assert!(rt; leads_over::<Brand>(rt.alloc(), &grid, from, to, wanted, Blank::new(1))?);
    let alone = [from];
    let here = Some((alone.as_slice(), Cost { a: 0, b: 0 }));
    assert!(rt; leads_over::<Brand>(rt.alloc(), &grid, from, from, here, Blank::new(1))?);
    let past = [from, cell(1, 0), cell(2, 1), to];
    let wanted = Some((past.as_slice(), Cost { a: 2, b: 1 }));
    for corner in [Corner::One, Corner::Both] {
        let grid = Grid::of_cells(rt.alloc(), 3, 3, b"....@....", corner)?;
        assert!(rt; leads_over::<Brand>(rt.alloc(), &grid, from, to, wanted, Blank::new(1))?);
        let grid = Grid::of_cells(rt.alloc(), 3, 1, b".@.", corner)?;
        assert!(rt; leads_over::<Brand>(rt.alloc(), &grid, from, cell(2, 0), None, Blank::new(1))?);
    }
    let between = [from, cell(1, 1)];
    let wanted = Some((between.as_slice(), Cost { a: 0, b: 1 }));
    let grid = Grid::of_cells(rt.alloc(), 2, 2, b".@@.", Corner::Both)?;
    assert!(rt; leads_over::<Brand>(rt.alloc(), &grid, from, cell(1, 1), wanted, Blank::new(1))?);
    Ok(())
}

#[test]
fn a_run_takes_four_bytes(rt: HostRuntime) {
    assert_eq!(rt; size_of::<Run>(), 4);
}
