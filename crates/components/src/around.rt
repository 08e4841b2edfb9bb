//! Whether the cells around one are joined without it.
//!
//! Once around, from each cell that is linked to the next: where that way ends at one place at most, all
//! cells on it are joined (the crossing number of digital topology: Rutovitz, 1966; Yokoi, 1975).

ghost use Rattle.std.specs.Prelude.{◌≡◌, ◌*◌, ◌<◌, ◌≤◌, length, nat_eq, not};
ghost use Rattle.grid_moves.specs.Grid.{AreSides};
ghost use Rattle.grid_moves.specs.Move.{beyond as cell_beyond};
ghost use Rattle.grid_moves.specs.Ring.{is_free_on};
ghost use Rattle.joined_cells.specs.Joined.{label_of};
ghost use Rattle.components.specs.Around as spec;
ghost use Rattle.components.specs.Stored.{labels_in};

use crate::shape::{Shape, label_at};
use grid_moves::{Cell, Dir, Ring, beyond};

// Whether the neighbour in this direction has a label.
fn has_label(shape: Shape, labels: &[u32], c: Cell, d: Dir) -> bool
    requires sides { AreSides shape.width shape.height }
    requires whole { length labels.now ≡ shape.height * shape.width }
    requires column { c.x < shape.width }
    requires row { c.y < shape.height }
    ensures { result ≡ not (nat_eq (label_of (labels_in shape labels.now) (cell_beyond d c)) 0) }
{
    label_at(shape, labels, beyond(c, d)) != 0
}

/// Which of the cells around one have labels.
pub(crate) fn ring_of(shape: Shape, labels: &[u32], c: Cell) -> Ring
    requires sides { AreSides shape.width shape.height }
    requires whole { length labels.now ≡ shape.height * shape.width }
    requires column { c.x < shape.width }
    requires row { c.y < shape.height }
    ensures { (d : _) → is_free_on result d
        ≡ not (nat_eq (label_of (labels_in shape labels.now) (cell_beyond d c)) 0) }
{
    Ring {
        n: has_label(shape, labels, c, Dir::N),
        ne: has_label(shape, labels, c, Dir::NE),
        e: has_label(shape, labels, c, Dir::E),
        se: has_label(shape, labels, c, Dir::SE),
        s: has_label(shape, labels, c, Dir::S),
        sw: has_label(shape, labels, c, Dir::SW),
        w: has_label(shape, labels, c, Dir::W),
        nw: has_label(shape, labels, c, Dir::NW),
    }
}

// Whether one comes past the corner between two cells.
fn is_passed(eight: bool, corner: bool, one: bool, other: bool) -> bool
    ensures { result ≡ spec.is_passed eight corner one other }
{
    if eight {
        corner || one && other
    } else {
        corner && one && other
    }
}

// 1 where the way ends here, else 0.
fn ends(here: bool, next: bool) -> u8
    ensures is { result ≡ spec.ends here next }
    ensures few { result ≤ 1 }
{
    if here && !next { 1 } else { 0 }
}

/// Whether the cells that the middle is linked with are joined among themselves.
pub(crate) fn is_whole(eight: bool, ring: Ring) -> bool
    ensures { result ≡ spec.is_whole eight ring }
{
    let ne = is_passed(eight, ring.ne, ring.n, ring.e);
    let se = is_passed(eight, ring.se, ring.e, ring.s);
    let sw = is_passed(eight, ring.sw, ring.s, ring.w);
    let nw = is_passed(eight, ring.nw, ring.w, ring.n);
    let east = ends(ring.n, ne) + ends(ne, ring.e) + ends(ring.e, se) + ends(se, ring.s);
    let west = ends(ring.s, sw) + ends(sw, ring.w) + ends(ring.w, nw) + ends(nw, ring.n);
    east + west <= 1
}
