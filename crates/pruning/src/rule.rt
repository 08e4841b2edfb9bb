//! The pruning rule: in which directions a search goes on, and where a neighbour is forced.
//!
//! A search that came on to `x` turns to a side only where a wall `#` makes it: else a walk that
//! turned earlier is as short. In the drawings it comes from the left, or from the lower left.
//!
//! ```text
//! no corner is cut      a corner may be cut      a corner may be cut, after a diagonal
//! # n .                 . # n                    n . .
//! > x .                 > x .                    # x .
//!                                                / . .
//! ```
//!
//! Where no corner is cut (Harabor and Grastien, SoCS 2012) the wall stands behind `x` on that side, and
//! after a diagonal move nothing is forced. Where one blocked cell may be passed (AAAI 2011) it stands at
//! the side of `x`, and after a diagonal move behind it; `n` is forced. So it is where two may be: which
//! turns are kept hangs on whether a corner may be cut alone; the rest of the rule is which moves are legal.

ghost use Rattle.std.specs.Prelude.{◌≡◌, ◌+◌, ◌≤◌, ◌<◌, ◌∷◌, IsTrue, false, List, filter, length};
ghost use Rattle.grid_moves.specs.Grid.{IsGrid, is_free};
ghost use Rattle.grid_moves.specs.Move as moves;
ghost use Rattle.grid_moves.specs.Ring as rings;
ghost use Rattle.pruning.specs.Turns as turns;
ghost use Rattle.pruning.specs.Allowed as spec;
ghost use Rattle.pruning.specs.Numbered as numbered;
ghost use Rattle.grid_moves.specs.Ruled as ruled;
ghost use Rattle.pruning.specs.Ring as pruned;
ghost use Rattle.pruning.specs.Marked as marks;
ghost use Rattle.pruning.specs.First as first;

use crate::Arrival;
use crate::packed::Packed;
use crate::turns::{Side, is_diagonal, quarter, rear, turn};
use arrayvec::ArrayVec;
use grid_moves::{
    Cell, Corner, Dir, Ring, Terrain, dir_number, dir_of_number, may_cut, rule_of_number,
};

/// Whether the directions are one.
#[inline(always)]
pub fn is_dir(d: Dir, e: Dir) -> bool
    ensures { result ≡ moves.is_dir d e }
{
    dir_number(d) == dir_number(e)
}

// Whether the cell in this direction is blocked.
#[inline(always)]
fn is_shut(ring: Ring, d: Dir) -> bool
    ensures { result ≡ rings.is_shut ring d }
{
    !ring.is_free(d)
}

// Whether a turn by an eighth to this side is kept.
#[inline(always)]
fn keeps_eighth(rule: Corner, ring: Ring, d: Dir, side: Side) -> bool
    ensures { result ≡ spec.keeps_eighth rule (rings.is_shut ring) d side }
{
    let wall = if may_cut(rule) {
        is_shut(ring, quarter(side, d))
    } else {
        is_shut(ring, rear(side, d))
    };
    is_diagonal(d) | wall
}

// Whether a turn by a quarter to this side is kept.
#[inline(always)]
fn keeps_quarter(rule: Corner, ring: Ring, d: Dir, side: Side) -> bool
    ensures { result ≡ spec.keeps_quarter rule (rings.is_shut ring) d side }
{
    let turns = if may_cut(rule) {
        is_diagonal(d)
    } else {
        !is_diagonal(d)
    };
    turns & is_shut(ring, rear(side, d))
}

// Whether `to` is a turn from `d` to this side, and is kept.
#[inline(always)]
fn is_kept_aside(rule: Corner, ring: Ring, d: Dir, to: Dir, side: Side) -> bool
    ensures { result ≡ spec.is_kept_aside rule (rings.is_shut ring) d to side }
{
    (is_dir(to, turn(side, d)) & keeps_eighth(rule, ring, d, side))
        | (is_dir(to, quarter(side, d)) & keeps_quarter(rule, ring, d, side))
}

// Whether pruning keeps this direction.
#[inline(always)]
fn is_kept(rule: Corner, ring: Ring, by: Arrival, to: Dir) -> bool
    ensures { result ≡ spec.is_kept rule (rings.is_shut ring) by to }
{
    match by {
        Arrival::Start => true,
        Arrival::By(d) => {
            is_dir(to, d)
                | is_kept_aside(rule, ring, d, to, Side::Right)
                | is_kept_aside(rule, ring, d, to, Side::Left)
        }
    }
}

// Whether the direction is allowed.
#[inline(always)]
fn is_allowed(rule: Corner, ring: Ring, by: Arrival, d: Dir) -> bool
    ensures { result ≡ pruned.is_allowed_on rule ring by d }
{
    is_kept(rule, ring, by, d) & ring.can_move(rule, d)
}

// Puts a direction before others, if it is allowed: a choice of two numbers, of which the compiler makes no
// branch, as the processor would seldom foresee it.
#[inline(always)]
fn put_allowed(rule: Corner, ring: Ring, by: Arrival, d: Dir, others: Packed) -> Packed
    requires room { length others < 8 }
    ensures kept { (ds : List Dir) → others ≡ filter (pruned.is_allowed_on rule ring by) ds
        → result ≡ filter (pruned.is_allowed_on rule ring by) (d ∷ ds) }
    ensures small { length result ≤ length others + 1 }
{
    let with_it = others.after(d);
    if is_allowed(rule, ring, by, d) {
        with_it
    } else {
        others
    }
}

/// How a search came to a cell, by the direction of its move, or `None` at the start.
#[inline(always)]
pub fn come_to(dir: Option<Dir>) -> Arrival
    ensures { result ≡ spec.come_to dir }
{
    match dir {
        Some(d) => Arrival::By(d),
        None => Arrival::Start,
    }
}

/// The arrival of this number: a direction's, or 8 for the start.
#[inline(always)]
pub(crate) fn arrival_of(number: usize) -> Arrival
    ensures { result ≡ numbered.arrival_of number }
{
    come_to(dir_of_number(number))
}

// All directions that are allowed, for a rule and an arrival that the compiler knows.
fn allowed_of<const RULE: usize, const BY: usize>(ring: Ring) -> Packed
    ensures { result ≡ filter
        (pruned.is_allowed_on (ruled.rule_of_number RULE) ring (numbered.arrival_of BY)) moves.all_dirs }
{
    let rule = rule_of_number(RULE);
    let by = arrival_of(BY);
    let nw = put_allowed(rule, ring, by, Dir::NW, Packed::new());
    let w = put_allowed(rule, ring, by, Dir::W, nw);
    let sw = put_allowed(rule, ring, by, Dir::SW, w);
    let s = put_allowed(rule, ring, by, Dir::S, sw);
    let se = put_allowed(rule, ring, by, Dir::SE, s);
    let e = put_allowed(rule, ring, by, Dir::E, se);
    let ne = put_allowed(rule, ring, by, Dir::NE, e);
    put_allowed(rule, ring, by, Dir::N, ne)
}

// The same, with code of its own for each arrival.
#[inline(always)]
fn allowed_by<const RULE: usize>(ring: Ring, by: Arrival) -> Packed
    ensures { result ≡ filter (pruned.is_allowed_on (ruled.rule_of_number RULE) ring by) moves.all_dirs }
{
    match by {
        Arrival::Start => allowed_of::<RULE, 8>(ring),
        Arrival::By(Dir::N) => allowed_of::<RULE, 0>(ring),
        Arrival::By(Dir::NE) => allowed_of::<RULE, 1>(ring),
        Arrival::By(Dir::E) => allowed_of::<RULE, 2>(ring),
        Arrival::By(Dir::SE) => allowed_of::<RULE, 3>(ring),
        Arrival::By(Dir::S) => allowed_of::<RULE, 4>(ring),
        Arrival::By(Dir::SW) => allowed_of::<RULE, 5>(ring),
        Arrival::By(Dir::W) => allowed_of::<RULE, 6>(ring),
        Arrival::By(Dir::NW) => allowed_of::<RULE, 7>(ring),
    }
}

/// All directions that are allowed, given which of the cells around are free: the kept ones in which the move
/// is legal. Each rule has code of its own.
#[inline(always)]
pub fn allowed_on(rule: Corner, ring: Ring, by: Arrival) -> Packed
    ensures { result ≡ filter (pruned.is_allowed_on rule ring by) moves.all_dirs }
{
    match rule {
        Corner::Never => allowed_by::<0>(ring, by),
        Corner::One => allowed_by::<1>(ring, by),
        Corner::Both => allowed_by::<2>(ring, by),
    }
}

// The allowed directions at a free cell, with each cell around it read once.
#[inline(always)]
fn allowed_around<T: Terrain>(t: &T, at: Cell, by: Arrival) -> Packed
    requires free { IsTrue (is_free (T.grid t.now) at) }
    requires whole { IsGrid (T.grid t.now) }
    ensures rule { result ≡ spec.allowed_dirs (T.grid t.now) at by }
{
    allowed_on(t.corner(), Ring::of(t, at), by)
}

/// The allowed directions at a free cell, in increasing order.
///
/// At the start these are the legal moves. After a move they are the same direction, after a diagonal
/// one its two components, and on each side the turns that a wall makes, as drawn above: where no
/// corner is cut, after a straight move, the side itself and the diagonal towards it; where one may be,
/// after a straight move the diagonal, and after a diagonal one the diagonal a quarter aside. Each where
/// the move is legal.
pub fn allowed<T: Terrain>(t: &T, at: Cell, by: Arrival) -> ArrayVec<Dir, 8>
    requires free { IsTrue (is_free (T.grid t.now) at) }
    ensures rule { result.items ≡ spec.allowed_dirs (T.grid t.now) at by }
{
    allowed_word(t, at, by).to_list()
}

/// The same in one word.
// (A search by either rule of states asks it, so the compiler would not put it in by itself.)
#[inline(always)]
pub fn allowed_word<T: Terrain>(t: &T, at: Cell, by: Arrival) -> Packed
    requires free { IsTrue (is_free (T.grid t.now) at) }
    ensures rule { result ≡ spec.allowed_dirs (T.grid t.now) at by }
{
    // (by the clause of `width` the grid is whole)
    let _whole = t.width();
    allowed_around(t, at, by)
}

// Whether a neighbour on this side is forced at a free cell after a move, with no branch on the cells around.
#[inline(always)]
fn is_forced_on(rule: Corner, ring: Ring, d: Dir, side: Side) -> bool
    ensures { result ≡ pruned.forced_beside rule ring d side }
{
    let aside = is_shut(ring, rear(side, d)) & ring.can_move(rule, quarter(side, d));
    let ahead = is_shut(ring, quarter(side, d)) & ring.can_move(rule, turn(side, d));
    match (may_cut(rule), is_diagonal(d)) {
        (true, true) => aside,
        (true, false) => ahead,
        (false, true) => false,
        (false, false) => aside,
    }
}

/// Whether a neighbour is forced at a free cell after a move in `d`, given which of the cells around are
/// free: `n` in the drawings above.
#[inline(always)]
pub fn forced_on(rule: Corner, ring: Ring, d: Dir) -> bool
    ensures { result ≡ pruned.forced_on rule ring d }
{
    is_forced_on(rule, ring, d, Side::Right) | is_forced_on(rule, ring, d, Side::Left)
}

// The same on a grid. The compiler knows the rule, and where it knows `d` too it leaves out the cells that
// are not asked for.
#[inline(always)]
fn forced_around<T: Terrain>(t: &T, rule: Corner, at: Cell, d: Dir) -> bool
    requires free { IsTrue (is_free (T.grid t.now) at) }
    requires whole { IsGrid (T.grid t.now) }
    requires rule { rule ≡ (T.grid t.now).corner }
    ensures { result ≡ marks.is_forced (T.grid t.now) at d }
{
    forced_on(rule, Ring::of(t, at), d)
}

// The same, with code of its own for each direction.
#[inline(always)]
fn forced_by<T: Terrain>(t: &T, rule: Corner, at: Cell, d: Dir) -> bool
    requires free { IsTrue (is_free (T.grid t.now) at) }
    requires whole { IsGrid (T.grid t.now) }
    requires rule { rule ≡ (T.grid t.now).corner }
    ensures { result ≡ marks.is_forced (T.grid t.now) at d }
{
    match d {
        Dir::N => forced_around(t, rule, at, Dir::N),
        Dir::NE => forced_around(t, rule, at, Dir::NE),
        Dir::E => forced_around(t, rule, at, Dir::E),
        Dir::SE => forced_around(t, rule, at, Dir::SE),
        Dir::S => forced_around(t, rule, at, Dir::S),
        Dir::SW => forced_around(t, rule, at, Dir::SW),
        Dir::W => forced_around(t, rule, at, Dir::W),
        Dir::NW => forced_around(t, rule, at, Dir::NW),
    }
}

/// Whether, after a move in `d` to this free cell, a neighbour is forced. For a straight `d` that is: whether
/// the cell is marked for it. A function of its own: where it is asked, which is seldom, its many reads would
/// keep the loop around from being inlined.
#[inline(never)]
pub fn forced<T: Terrain>(t: &T, at: Cell, d: Dir) -> bool
    requires free { IsTrue (is_free (T.grid t.now) at) }
    ensures forces { result ≡ marks.is_forced (T.grid t.now) at d }
    ensures marked { turns.is_diagonal d ≡ false → result ≡ first.is_marked (T.grid t.now) at d }
{
    // (by the clause of `width` the grid is whole)
    let _whole = t.width();
    match t.corner() {
        Corner::Never => forced_by(t, Corner::Never, at, d),
        Corner::One => forced_by(t, Corner::One, at, d),
        Corner::Both => forced_by(t, Corner::Both, at, d),
    }
}
