//! Directions, what lies ahead of a cell, and costs of moves.

ghost use Rattle.std.specs.Prelude.{◌≡◌, ◌<◌, unwrap_or};
ghost use Rattle.grid_moves.specs.Move as spec;
ghost use Rattle.grid_moves.specs.Points as points;
ghost use Rattle.grid_moves.specs.Around.{IsBefore};

use crate::{Cell, Dir};
use root2_cost::{Cost, octile};

/// What a move between two neighbours costs: 1 straight, √2 diagonal.
pub fn move_cost(from: Cell, to: Cell) -> Cost
    ensures { result ≡ spec.move_cost from to }
{
    if from.x == to.x || from.y == to.y {
        Cost { a: 1, b: 0 }
    } else {
        Cost { a: 0, b: 1 }
    }
}

/// The octile distance of two cells, which no walk between them undercuts.
pub fn estimate(from: Cell, to: Cell) -> Cost
    ensures { result ≡ points.estimate from to }
{
    octile(
        u32::from(from.x.abs_diff(to.x)),
        u32::from(from.y.abs_diff(to.y)),
    )
}

/// The number of a direction in their order, clockwise from north, from 0.
pub fn dir_number(d: Dir) -> u8
    ensures { result ≡ spec.dir_number d }
{
    match d {
        Dir::N => 0,
        Dir::NE => 1,
        Dir::E => 2,
        Dir::SE => 3,
        Dir::S => 4,
        Dir::SW => 5,
        Dir::W => 6,
        Dir::NW => 7,
    }
}

/// The direction of a number in their order, if it has one.
#[inline(always)]
pub fn dir_of_number(number: usize) -> Option<Dir>
    ensures { result ≡ spec.dir_of_number number }
{
    match number {
        0 => Some(Dir::N),
        1 => Some(Dir::NE),
        2 => Some(Dir::E),
        3 => Some(Dir::SE),
        4 => Some(Dir::S),
        5 => Some(Dir::SW),
        6 => Some(Dir::W),
        7 => Some(Dir::NW),
        _ => None,
    }
}

/// The direction back.
pub fn opposite(d: Dir) -> Dir
    ensures { result ≡ spec.opposite d }
{
    match d {
        Dir::N => Dir::S,
        Dir::NE => Dir::SW,
        Dir::E => Dir::W,
        Dir::SE => Dir::NW,
        Dir::S => Dir::N,
        Dir::SW => Dir::NE,
        Dir::W => Dir::E,
        Dir::NW => Dir::SE,
    }
}

// The column that lies ahead, if there is one.
fn column_ahead(d: Dir, x: u16) -> Option<u16>
    requires { x < 65535 }
    ensures { result ≡ spec.column_ahead d x }
{
    match d {
        Dir::N | Dir::S => Some(x),
        Dir::NE | Dir::E | Dir::SE => Some(x + 1),
        Dir::SW | Dir::W | Dir::NW => x.checked_sub(1),
    }
}

// The row that lies ahead, if there is one.
fn row_ahead(d: Dir, y: u16) -> Option<u16>
    requires { y < 65535 }
    ensures { result ≡ spec.row_ahead d y }
{
    match d {
        Dir::E | Dir::W => Some(y),
        Dir::SE | Dir::S | Dir::SW => Some(y + 1),
        Dir::N | Dir::NE | Dir::NW => y.checked_sub(1),
    }
}

/// The cell that lies ahead, if there is one. It may lie outside the map, to the right or below.
pub fn cell_ahead(d: Dir, c: Cell) -> Option<Cell>
    requires column { c.x < 65535 }
    requires row { c.y < 65535 }
    ensures { result ≡ spec.ahead d c }
{
    let x = column_ahead(d, c.x)?;
    let y = row_ahead(d, c.y)?;
    Some(Cell { x, y })
}

/// The column or row before this one; before 0 it is 65535, which no map has.
#[inline(always)]
pub fn before(n: u16) -> u16
    ensures value { result ≡ unwrap_or (spec.before n) 65535 }
    ensures is { IsBefore n result }
{
    n.wrapping_sub(1)
}

/// The cell that lies ahead. Before the first column or row it has the column or row 65535, at which no
/// cell is free.
#[inline(always)]
pub fn beyond(c: Cell, d: Dir) -> Cell
    requires column { c.x < 65535 }
    requires row { c.y < 65535 }
    ensures { result ≡ spec.beyond d c }
{
    let (left, right) = (before(c.x), c.x + 1);
    let (up, down) = (before(c.y), c.y + 1);
    match d {
        Dir::N => Cell { x: c.x, y: up },
        Dir::NE => Cell { x: right, y: up },
        Dir::E => Cell { x: right, y: c.y },
        Dir::SE => Cell { x: right, y: down },
        Dir::S => Cell { x: c.x, y: down },
        Dir::SW => Cell { x: left, y: down },
        Dir::W => Cell { x: left, y: c.y },
        Dir::NW => Cell { x: left, y: up },
    }
}
