//! The rule on maps on squared paper, and a source of jumps that stands for one grid.

ghost use Rattle.std.specs.Prelude.{◌≡◌, Some, codes};
ghost use Rattle.grid_moves.specs.declared.Corner.TheVariants.{Never};
ghost use Rattle.grid_moves.specs.Grid.{grid_of};

use crate::jump_calls::starts_of;
use grid_moves::{Cell, Corner, Dir, Grid, Terrain};
use pruning::{Arrival, JumpSource, Packed, allowed, forced};
use std::marker::Brand;
use std::sync::ledger::{Blank, Ledger};
use std::test::Fail;
use steps::Steps;

// On the map `.../.@./...`, where no corner is cut: along the pillar, and past it.
#[test]
fn round_a_pillar(rt: HostRuntime) -> Result<(), Fail> {
    let grid = Grid::of_cells(rt.alloc(), 3, 3, b"....@....", Corner::Never)?;
    let along = allowed(&grid, Cell { x: 1, y: 0 }, Arrival::By(Dir::E));
    assert_eq!(rt; along.as_slice(), [Dir::E].as_slice());
    let past = allowed(&grid, Cell { x: 2, y: 0 }, Arrival::By(Dir::E));
    assert_eq!(rt; past.as_slice(), [Dir::S].as_slice());
    Ok(())
}

// On the map `...../.@...`, where no corner is cut: behind the wall the way down is forced, above it nothing.
#[test]
fn behind_a_wall(rt: HostRuntime) -> Result<(), Fail> {
    let grid = Grid::of_cells(rt.alloc(), 5, 2, b"......@...", Corner::Never)?;
    assert!(rt; !forced(&grid, Cell { x: 1, y: 0 }, Dir::E));
    assert!(rt; forced(&grid, Cell { x: 2, y: 0 }, Dir::E));
    Ok(())
}

// Where a corner may be cut: after a diagonal move past a pillar, its component and a quarter round the
// pillar's other corner; where the search starts, all legal moves.
#[test]
fn round_a_corner(rt: HostRuntime) -> Result<(), Fail> {
    for corner in [Corner::One, Corner::Both] {
        let grid = Grid::of_cells(rt.alloc(), 3, 3, b"....@....", corner)?;
        let past = allowed(&grid, Cell { x: 2, y: 1 }, Arrival::By(Dir::SE));
        assert_eq!(rt; past.as_slice(), [Dir::S, Dir::SW].as_slice());
        let start = allowed(&grid, Cell { x: 0, y: 0 }, Arrival::Start);
        assert_eq!(rt; start.as_slice(), [Dir::E, Dir::S].as_slice());
    }
    Ok(())
}

// On the map `...../.@...`, where a corner may be cut: above the wall the way past it is forced.
#[test]
fn beyond_a_wall(rt: HostRuntime) -> Result<(), Fail> {
    for corner in [Corner::One, Corner::Both] {
        let grid = Grid::of_cells(rt.alloc(), 5, 2, b"......@...", corner)?;
        assert!(rt; forced(&grid, Cell { x: 1, y: 0 }, Dir::E));
        assert!(rt; !forced(&grid, Cell { x: 2, y: 0 }, Dir::E));
    }
    Ok(())
}

// On the maps `..@/.@.` and `.@/@.`: the way between two blocked cells is forced, and is one where two may be
// passed between.
#[test]
fn between_two_walls(rt: HostRuntime) -> Result<(), Fail> {
    let grid = Grid::of_cells(rt.alloc(), 3, 2, b"..@.@.", Corner::Both)?;
    let (at, end) = (Cell { x: 0, y: 0 }, Cell { x: 1, y: 0 });
    assert!(rt; forced(&grid, end, Dir::E));
    let past = allowed(&grid, end, Arrival::By(Dir::E));
    assert_eq!(rt; past.as_slice(), [Dir::SE].as_slice());
    let grid = Grid::of_cells(rt.alloc(), 2, 2, b".@@.", Corner::Both)?;
    let start = allowed(&grid, at, Arrival::Start);
    assert_eq!(rt; start.as_slice(), [Dir::SE].as_slice());
    for corner in [Corner::Never, Corner::One] {
        let grid = Grid::of_cells(rt.alloc(), 3, 2, b"..@.@.", corner)?;
        assert!(rt; !forced(&grid, end, Dir::E));
        let past = allowed(&grid, end, Arrival::By(Dir::E));
        assert_eq!(rt; past.len(), 0);
    }
    Ok(())
}

// The map of one free cell, where no jump begins. Each call counts one step.
struct Alone;

impl JumpSource for Alone {
    ghost StandsFor = { λ _ g. g ≡ grid_of 1 1 (codes ".") Never };

    ghost most = { λ _. Some (record { stop = 1; allowed = 1 }) };

    ghost fewest = { λ _. record { stop = 1; allowed = 1 } };

    fn width(&self) -> u16 {
        1
    }

    fn height(&self) -> u16 {
        1
    }

    fn stop<L: Ledger>(
        &self,
        _at: Cell,
        _d: Dir,
        _goal: Cell,
        steps: &mut Steps<L>,
    ) -> Option<u16> {
        steps.tick();
        None
    }

    fn allowed_word<L: Ledger>(&self, _at: Cell, _by: Arrival, steps: &mut Steps<L>) -> Packed {
        steps.tick();
        Packed::new()
    }
}

// No move is legal on the map `.`.
#[test]
fn a_source_for_one_grid(rt: HostRuntime) {
    let at = Cell { x: 0, y: 0 };
    let (dirs, word) = starts_of::<Alone, Brand>(&Alone, at, Blank::new(1));
    assert_eq!(rt; (dirs.len(), word.len()), (0, 0));
}
