//! Scans along a straight run, to its first mark or its end.
//!
//! A scan carries along which cells at its sides are free. A neighbour is forced where a side opens, which
//! is blocked at one cell and free at the next. Where no corner is cut the mark is the next cell's:
//!
//! ```text
//! # n        . # n
//! u v        . u v
//! ```
//!
//! Where one may be, the mark is `u`'s, from which the forced neighbour `n` lies diagonally ahead; where two
//! blocked cells may be passed between, the last cell of a run can have one, too, with `v` blocked.
//!
//! Both sides are kept in one byte, so that one test tells whether any of them opens.

ghost use Rattle.std.specs.Prelude.{◌≡◌, ◌+◌, ◌-◌, ◌&&◌, false, true};
ghost use Rattle.grid_moves.specs.Grid.{IsGrid, is_free};
ghost use Rattle.grid_moves.specs.Move.{may_slip};
ghost use Rattle.pruning.specs.Turns.{is_diagonal};
ghost use Rattle.jump_plain.specs.Beside as besides;
ghost use Rattle.jump_plain.specs.Reach as spec;

use crate::beside::{Sides, straight_by};
use grid_moves::{Cell, Corner, Dir, Terrain, may_cut, may_slip};

/// How far a scan along a straight run reaches.
#[derive(Clone, Copy)]
pub struct Reach {
    /// The number of moves to the first marked cell, or, where no cell of the run is marked, of the run.
    pub moves: u16,
    /// Whether it ends at a marked cell.
    pub marked: bool,
}

// How many moves past a cell the mark stands that the move on from it shows.
#[inline(always)]
fn mark_ahead(rule: Corner) -> u16
    ensures { result ≡ spec.mark_ahead rule }
{
    if may_cut(rule) { 0 } else { 1 }
}

// The sides with which a scan begins. Where a corner may be cut, the first move would show a mark of the
// cell where the scan stands, which is not looked for: so both count as free.
#[inline(always)]
fn first_sides<T: Terrain>(t: &T, rule: Corner, at: Cell, d: Dir) -> Sides
    requires free { is_free (T.grid t.now) at ≡ true }
    requires whole { IsGrid (T.grid t.now) }
    ensures { result ≡ spec.first_sides rule (T.grid t.now) at d }
{
    if may_cut(rule) {
        Sides {
            right: true,
            left: true,
        }
    } else {
        Sides::of(t, at, d)
    }
}

// Which sides are free, by bits: 1 for the right one, 2 for the left one.
#[inline(always)]
fn free_bits(sides: Sides) -> u8
    ensures { result ≡ spec.free_bits sides }
{
    u8::from(sides.right) | (u8::from(sides.left) << 1)
}

// Which are not, given which are.
#[inline(always)]
fn shut_bits(free: u8) -> u8
    ensures { result ≡ 255 - free }
{
    !free
}

// Whether a side that was shut at one cell is free at the next.
#[inline(always)]
fn opens(shut: u8, free: u8) -> bool
    ensures { (u v : Sides) → shut ≡ spec.shut_bits u → free ≡ spec.free_bits v
        → result ≡ besides.opens u v }
{
    free & shut != 0
}

// Whether the last cell of a run, given which sides are shut there, has a mark, which lies between two
// blocked cells.
#[inline(always)]
fn ends_marked<T: Terrain>(t: &T, at: Cell, d: Dir, shut: u8) -> bool
    requires free { is_free (T.grid t.now) at ≡ true }
    requires whole { IsGrid (T.grid t.now) }
    ensures { (u : Sides) → shut ≡ spec.shut_bits u → result
        ≡ (may_slip (T.grid t.now).corner && besides.opens u (besides.sides_ahead (T.grid t.now) at d)) }
{
    may_slip(t.corner()) && opens(shut, free_bits(Sides::ahead(t, at, d)))
}

/// Scans along the legal run from a free cell in a straight direction, given its place and the sides to begin
/// with: to the first cell with a forced neighbour, or else to the run's end.
/// The cell itself is not looked at.
#[inline(always)]
pub fn scan_with<T: Terrain>(t: &T, place: usize, at: Cell, d: Dir, sides: Sides) -> Reach
    requires given { place ≡ T.place_of t.now at }
    requires straight { is_diagonal d ≡ false }
    requires free { is_free (T.grid t.now) at ≡ true }
    requires whole { IsGrid (T.grid t.now) }
    requires sides { sides ≡ spec.first_sides (T.grid t.now).corner (T.grid t.now) at d }
    ensures { result ≡ spec.reach_of (T.grid t.now) at d }
{
    let mut shut = shut_bits(free_bits(sides));
    let mut cell = at;
    let mut place = place;
    let mut moves = 0;
    'run: while let Some(next) = straight_by(t, place, cell, d) {
        place = t.place_ahead(place, cell, d);
        let free = free_bits(Sides::by(t, place, next, d));
        if opens(shut, free) {
            return Reach {
                moves: moves + mark_ahead(t.corner()),
                marked: true,
            };
        }
        cell = next;
        shut = shut_bits(free);
        moves += 1;
    }
    Reach {
        moves,
        marked: ends_marked(t, cell, d, shut),
    }
}

/// The same, where the sides are read first.
#[inline(always)]
pub fn scan<T: Terrain>(t: &T, at: Cell, d: Dir) -> Reach
    requires straight { is_diagonal d ≡ false }
    requires free { is_free (T.grid t.now) at ≡ true }
    requires whole { IsGrid (T.grid t.now) }
    ensures { result ≡ spec.reach_of (T.grid t.now) at d }
{
    let sides = first_sides(t, t.corner(), at, d);
    scan_with(t, t.place(at), at, d, sides)
}
