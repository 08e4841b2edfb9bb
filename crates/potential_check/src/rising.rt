//! The first legal move that rises by more than its cost.
//!
//! The cells are passed over once, row by row. Each row's part of the list is read by three hands: one
//! in the row itself, and one in the row above and below. So no cell is looked up, and no memory is
//! taken.

ghost use Rattle.std.specs.Prelude.{◌≡◌, ◌+◌, ◌<◌, true, false, Some, None, IfNone};
ghost use Rattle.root2_cost.specs.Rank.{rank_of};
ghost use Rattle.grid_moves.specs.Grid.{GridData, IsGrid, is_free};
ghost use Rattle.grid_moves.specs.Move.{all_dirs, move_cost};
ghost use Rattle.grid_moves.specs.Around.{IsBefore, if_open};
ghost use Rattle.potential_check.specs.Heights.{are_low};
ghost use Rattle.potential_check.specs.Moves.{first_in_row, first_failing};
ghost use Rattle.potential_check.specs.Rising as spec;
ghost use Rattle.potential_check.specs.Rising.{AreHills, RowsReach, Takes, climbs, first_steep, height_at};
ghost use Rattle.potential_check.specs.Rising.{towards};

use crate::heights::Heights;
use grid_moves::{Cell, Grid, Terrain, before, move_cost, moves_around};

/// The heights of one column in three rows.
#[derive(Clone, Copy)]
pub(crate) struct Column {
    above: i64,
    here: i64,
    below: i64,
}

/// The heights of three rows, from a column on.
#[derive(Clone, Copy)]
pub(crate) struct Rows<'a> {
    above: Heights<'a>,
    here: Heights<'a>,
    below: Heights<'a>,
}

/// A grid and the heights of its cells.
#[derive(Clone, Copy)]
pub(crate) struct Hills<'a> {
    pub grid: &'a Grid,
    pub heights: Heights<'a>,
}

// Whether a move of this cost from a height to another rises by more. A sum above all heights is not below
// one.
#[inline(always)]
fn is_steep(from: i64, cost: u64, to: i64) -> bool
    ensures { result ≡ spec.is_steep from cost to }
{
    match from.checked_add_unsigned(cost) {
        Some(most) => most < to,
        None => false,
    }
}

// Whether a move from u to the cell would rise by more than its cost.
#[inline(always)]
fn would_climb(u: Cell, v: Cell, from: i64, to: i64) -> bool
    ensures { result ≡ spec.is_steep from (rank_of (move_cost u v)) to }
{
    is_steep(from, move_cost(u, v).rank(), to)
}

// Whether a move in some direction would rise by more than its cost, were it legal. Most often none would,
// and the cells around need not be read.
#[inline(always)]
fn may_climb(u: Cell, left: Column, middle: Column, right: Column) -> bool
    requires column { u.x < 65535 }
    requires row { u.y < 65535 }
    ensures { (g : GridData) → result ≡ false
        → first_steep g u middle.here (towards left middle right) all_dirs ≡ None }
{
    let from = middle.here;
    let (west, east) = (before(u.x), u.x + 1);
    let (north, south) = (before(u.y), u.y + 1);
    let n = would_climb(u, Cell { x: u.x, y: north }, from, middle.above);
    let ne = would_climb(u, Cell { x: east, y: north }, from, right.above);
    let e = would_climb(u, Cell { x: east, y: u.y }, from, right.here);
    let se = would_climb(u, Cell { x: east, y: south }, from, right.below);
    let s = would_climb(u, Cell { x: u.x, y: south }, from, middle.below);
    let sw = would_climb(u, Cell { x: west, y: south }, from, left.below);
    let w = would_climb(u, Cell { x: west, y: u.y }, from, left.here);
    let nw = would_climb(u, Cell { x: west, y: north }, from, left.above);
    n | ne | e | se | s | sw | w | nw
}

// The cell, if the move to it from u is legal and rises by more than its cost.
#[inline(always)]
fn steep_move(legal: bool, u: Cell, v: Cell, from: i64, to: i64) -> Option<Cell>
    ensures { result ≡ spec.steep_move u from to (if_open legal v) }
{
    if legal && is_steep(from, move_cost(u, v).rank(), to) {
        Some(v)
    } else {
        None
    }
}

// The first cell, by direction, to which a legal move rises by more than its cost.
#[inline(always)]
fn first_steep_from(g: &Grid, u: Cell, left: Column, middle: Column, right: Column) -> Option<Cell>
    requires free { is_free g.now u ≡ true }
    requires whole { IsGrid g.now }
    ensures { result ≡ first_steep g.now u middle.here (towards left middle right) all_dirs }
{
    if may_climb(u, left, middle, right) {
        first_steep_around(g, u, left, middle, right)
    } else {
        None
    }
}

// The same by the cells around.
#[inline(never)]
fn first_steep_around(
    g: &Grid,
    u: Cell,
    left: Column,
    middle: Column,
    right: Column,
) -> Option<Cell>
    requires free { is_free g.now u ≡ true }
    requires whole { IsGrid g.now }
    ensures { result ≡ first_steep g.now u middle.here (towards left middle right) all_dirs }
{
    let a = moves_around(g, u);
    let from = middle.here;
    steep_move(a.n, u, Cell { x: u.x, y: a.up }, from, middle.above)
        .or(steep_move(
            a.ne,
            u,
            Cell {
                x: a.right,
                y: a.up,
            },
            from,
            right.above,
        ))
        .or(steep_move(a.e, u, Cell { x: a.right, y: u.y }, from, right.here))
        .or(steep_move(
            a.se,
            u,
            Cell {
                x: a.right,
                y: a.down,
            },
            from,
            right.below,
        ))
        .or(steep_move(a.s, u, Cell { x: u.x, y: a.down }, from, middle.below))
        .or(steep_move(
            a.sw,
            u,
            Cell {
                x: a.left,
                y: a.down,
            },
            from,
            left.below,
        ))
        .or(steep_move(a.w, u, Cell { x: a.left, y: u.y }, from, left.here))
        .or(steep_move(a.nw, u, Cell { x: a.left, y: a.up }, from, left.above))
}

impl<'a> Rows<'a> {
    // The heights of a column, and the rows after it.
    #[inline(always)]
    fn take(self, x: u16, y: u16) -> (Column, Rows<'a>)
        requires above { are_low self.above ≡ true }
        requires here { are_low self.here ≡ true }
        requires below { are_low self.below ≡ true }
        requires row { y < 65535 }
        ensures above { (up : _) → IsBefore y up
            → Takes self.entry.above (record { x = x; y = up }) result.0.above result.1.above }
        ensures here { Takes self.entry.here (record { x = x; y = y }) result.0.here result.1.here }
        ensures below { Takes self.entry.below (record { x = x; y = y + 1 }) result.0.below result.1.below }
    {
        let (above, above_rest) = self.above.take(Cell { x, y: before(y) });
        let (here, here_rest) = self.here.take(Cell { x, y });
        let (below, below_rest) = self.below.take(Cell { x, y: y + 1 });
        let column = Column { above, here, below };
        let rest = Rows {
            above: above_rest,
            here: here_rest,
            below: below_rest,
        };
        (column, rest)
    }
}

impl<'a> Hills<'a> {
    // The first move from row y that rises by more than its cost, by the column that it leaves and
    // then by direction. Where there is none, the next row's heights are left.
    fn first_in_row(&self, rows: &mut Rows<'a>, y: u16) -> Option<(Cell, Cell)>
        requires hills { AreHills self.now }
        requires rows { RowsReach self.now y 0 rows.old }
        requires row { y < self.now.grid.now.height }
        ensures first { result
            ≡ first_in_row self.now.grid.now (climbs (height_at self.now)) y 0 self.now.grid.now.width }
        ensures next { IfNone result (RowsReach self.now (y + 1) 0 rows.new) }
    {
        let (mut left, begun) = rows.take(before(0), y);
        let (mut middle, mut rest) = begun.take(0, y);
        for x in 0..self.grid.width() {
            let (right, after) = rest.take(x + 1, y);
            let u = Cell { x, y };
            if self.grid.free(u) {
                if let Some(v) = first_steep_from(self.grid, u, left, middle, right) {
                    return Some((u, v));
                }
            }
            rest = after;
            left = middle;
            middle = right;
        }
        *rows = Rows {
            above: rows.here,
            here: rows.below,
            below: rest.below,
        };
        None
    }

    /// The first move that rises by more than its cost, by the number of the cell that it leaves and
    /// then by direction.
    pub(crate) fn first_climb(&self) -> Option<(Cell, Cell)>
        requires { AreHills self.now }
        ensures { result ≡ first_failing self.now.grid.now (climbs (height_at self.now)) }
    {
        let mut rows = self.first_rows();
        for y in 0..self.grid.height() {
            if let Some(found) = self.first_in_row(&mut rows, y) {
                return Some(found);
            }
        }
        None
    }

    // The rows around the first row, above which there is nothing.
    fn first_rows(&self) -> Rows<'a>
        requires { AreHills self.now }
        ensures { RowsReach self.now 0 0 result }
    {
        let mut below = self.heights;
        for x in 0..self.grid.width() {
            let (_, after) = below.take(Cell { x, y: 0 });
            below = after;
        }
        Rows {
            above: self.heights.ended(),
            here: self.heights,
            below,
        }
    }
}
