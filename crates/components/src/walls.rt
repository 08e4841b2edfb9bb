//! Ways along the walls beside a cell that is blocked.
//!
//! Where the cells around it do not show that those that it was linked with are joined, two walkers set out
//! from one of them, one with its right hand on the wall and one with its left, until they have come to all
//! others (border following: Rosenfeld, 1970). Cells beside one blocked part that are joined lie on one way
//! along its border, so the shorter way finds them, however wide the land is. Each walker takes a bounded
//! number of steps. It is proved that what they find is joined, and not that they find all that is.

ghost use Rattle.std.specs.Prelude.{◌≡◌, ◌<◌, ◌*◌, ◌||◌, length, true, false};
ghost use Rattle.grid_moves.specs.Grid.{AreSides};
ghost use Rattle.grid_moves.specs.Move.{beyond as cell_beyond, is_same};
ghost use Rattle.grid_moves.specs.Ring.{is_free_on};
ghost use Rattle.components.specs.Walls as spec;
ghost use Rattle.components.specs.Walls.{AreJoined, is_labelled};
ghost use Rattle.components.specs.Links.{Chain};
ghost use Rattle.components.specs.Meeting.{is_among, linked_dirs};
ghost use Rattle.components.specs.Stored.{labels_in};

use crate::around::{is_whole, ring_of};
use crate::shape::{Shape, label_at};
use grid_moves::{Cell, Dir, Ring, beyond, dir_number, dir_of_number};

/// How many steps a walker takes at most.
const MOST: u16 = 4096;

/// The hand that a walker keeps on the wall.
#[derive(Clone, Copy)]
enum Hand {
    Left,
    Right,
}

/// Where a walker stands, and the direction of its last step.
#[derive(Clone, Copy)]
struct Walker {
    at: Cell,
    heading: Dir,
    hand: Hand,
}

// The direction that lies so many eighths further, clockwise.
#[inline(always)]
fn turned(d: Dir, eighths: u8) -> Dir
    requires { eighths < 8 }
{
    let Some(turned) = dir_of_number((dir_number(d) + eighths) as usize % 8) else {
        return d;
    };
    turned
}

// The next direction away from the hand.
#[inline(always)]
fn away(hand: Hand, d: Dir) -> Dir {
    match hand {
        Hand::Left => turned(d, 1),
        Hand::Right => turned(d, 7),
    }
}

// The direction behind the hand, where a walker looks first.
#[inline(always)]
fn behind(hand: Hand, heading: Dir) -> Dir {
    match hand {
        Hand::Left => turned(heading, 5),
        Hand::Right => turned(heading, 3),
    }
}

// Whether a cell may be linked with its neighbour in this direction.
#[inline(always)]
fn may_link(eight: bool, d: Dir) -> bool
    ensures { result ≡ true → is_among d (linked_dirs eight) ≡ true }
{
    match d {
        Dir::N | Dir::E | Dir::S | Dir::W => true,
        Dir::NE | Dir::SE | Dir::SW | Dir::NW => eight,
    }
}

// The walker behind its next step: to the first cell with a label, from behind its hand away from it.
fn stepped(shape: Shape, labels: &[u32], walker: Walker) -> Walker
    requires sides { AreSides shape.width shape.height }
    requires whole { length labels.now ≡ shape.height * shape.width }
    requires column { walker.at.x < 65535 }
    requires row { walker.at.y < 65535 }
    ensures { (start : Cell) → Chain shape.eight (is_labelled (labels_in shape labels.now)) start walker.at
        → Chain shape.eight (is_labelled (labels_in shape labels.now)) start result.at }
{
    let mut d = behind(walker.hand, walker.heading);
    for _ in 0..8u8 {
        let to = beyond(walker.at, d);
        if may_link(shape.eight, d) && label_at(shape, labels, to) != 0 {
            return Walker {
                at: to,
                heading: d,
                hand: walker.hand,
            };
        }
        d = away(walker.hand, d);
    }
    walker
}

// No direction.
fn no_ring() -> Ring
    ensures { (d : _) → is_free_on result d ≡ false }
{
    Ring {
        n: false,
        ne: false,
        e: false,
        se: false,
        s: false,
        sw: false,
        w: false,
        nw: false,
    }
}

// Whether the cell around c in this direction was met, or is this one.
fn is_met(met: Ring, c: Cell, v: Cell, d: Dir) -> bool
    requires column { c.x < 65535 }
    requires row { c.y < 65535 }
    ensures { result ≡ (is_free_on met d || is_same (cell_beyond d c) v) }
{
    let around = beyond(c, d);
    met.is_free(d) | ((around.x == v.x) & (around.y == v.y))
}

// The cells around c that were met, with this one.
fn meet(met: Ring, c: Cell, v: Cell) -> Ring
    requires column { c.x < 65535 }
    requires row { c.y < 65535 }
    ensures { (d : _) → is_free_on result d ≡ (is_free_on met d || is_same (cell_beyond d c) v) }
{
    Ring {
        n: is_met(met, c, v, Dir::N),
        ne: is_met(met, c, v, Dir::NE),
        e: is_met(met, c, v, Dir::E),
        se: is_met(met, c, v, Dir::SE),
        s: is_met(met, c, v, Dir::S),
        sw: is_met(met, c, v, Dir::SW),
        w: is_met(met, c, v, Dir::W),
        nw: is_met(met, c, v, Dir::NW),
    }
}

// The same, at once where this one does not stand around c.
#[inline(always)]
fn pass(met: Ring, c: Cell, v: Cell) -> Ring
    requires column { c.x < 65535 }
    requires row { c.y < 65535 }
    ensures { (d : _) → is_free_on result d ≡ true
        → (is_free_on met d || is_same (cell_beyond d c) v) ≡ true }
{
    if v.x.abs_diff(c.x) > 1 || v.y.abs_diff(c.y) > 1 {
        return met;
    }
    meet(met, c, v)
}

// Whether this was met, where it is to be met.
#[inline(always)]
fn is_covered(wanted: bool, met: bool) -> bool
    ensures { result ≡ spec.is_covered wanted met }
{
    !wanted | met
}

// Whether all cells around that the middle is linked with were met, or stand beside one that was.
fn are_met(eight: bool, ring: Ring, met: Ring) -> bool
    ensures { result ≡ spec.are_met eight ring met }
{
    let straight = (is_covered(ring.n, met.n) & is_covered(ring.e, met.e))
        & (is_covered(ring.s, met.s) & is_covered(ring.w, met.w));
    let east = is_covered(ring.ne, met.ne | ring.n) & is_covered(ring.se, met.se | ring.s);
    let west = is_covered(ring.sw, met.sw | ring.s) & is_covered(ring.nw, met.nw | ring.n);
    straight & is_covered(eight, east & west)
}

// Whether walkers from this cell, in this direction beside c, come to all cells around c that it is linked
// with.
fn come_to_all(shape: Shape, labels: &[u32], c: Cell, ring: Ring, start: Cell, d: Dir) -> bool
    requires sides { AreSides shape.width shape.height }
    requires whole { length labels.now ≡ shape.height * shape.width }
    requires column { c.x < shape.width }
    requires row { c.y < shape.height }
    requires start { is_labelled (labels_in shape labels.now) start ≡ true }
    requires ring { (d : _) → is_free_on ring d ≡ is_labelled (labels_in shape labels.now) (cell_beyond d c) }
    ensures { result ≡ true → AreJoined shape.eight (is_labelled (labels_in shape labels.now)) c }
{
    let mut left = Walker {
        at: start,
        heading: away(Hand::Right, d),
        hand: Hand::Left,
    };
    let mut right = Walker {
        at: start,
        heading: away(Hand::Left, d),
        hand: Hand::Right,
    };
    let mut met = pass(no_ring(), c, start);
    for _ in 0..MOST {
        left = stepped(shape, labels, left);
        right = stepped(shape, labels, right);
        met = pass(met, c, left.at);
        met = pass(met, c, right.at);
        if are_met(shape.eight, ring, met) {
            return true;
        }
    }
    false
}

// A direction in which the cell around is free, a straight one where there is one.
fn first_on(ring: Ring) -> Dir {
    if ring.n {
        return Dir::N;
    }
    if ring.e {
        return Dir::E;
    }
    if ring.s {
        return Dir::S;
    }
    if ring.w {
        return Dir::W;
    }
    if ring.ne {
        return Dir::NE;
    }
    if ring.se {
        return Dir::SE;
    }
    Dir::SW
}

/// Whether it is shown that the cells that a blocked one was linked with are joined without it: by those
/// around it, or by ways along the walls. The cell has no label any more.
pub(crate) fn stays_joined(shape: Shape, labels: &[u32], c: Cell) -> bool
    requires sides { AreSides shape.width shape.height }
    requires whole { length labels.now ≡ shape.height * shape.width }
    requires column { c.x < shape.width }
    requires row { c.y < shape.height }
    ensures { result ≡ true → AreJoined shape.eight (is_labelled (labels_in shape labels.now)) c }
{
    let ring = ring_of(shape, labels, c);
    if is_whole(shape.eight, ring) {
        return true;
    }
    let d = first_on(ring);
    let start = beyond(c, d);
    if label_at(shape, labels, start) == 0 {
        return false;
    }
    come_to_all(shape, labels, c, ring, start, d)
}
