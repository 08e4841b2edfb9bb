//! How a cell that is freed comes to have the class of its neighbours.

ghost use Rattle.std.specs.Prelude.{◌≡◌, ℕ, ◌+◌, ◌<◌, ◌≤◌, length, slice_index};
ghost use Rattle.grid_moves.specs.Move.{beyond as cell_beyond};
ghost use Rattle.joined_cells.specs.Joined.{label_of};
ghost use Rattle.components.specs.Classes.{root_of};
ghost use Rattle.components.specs.Links.{Adds};
ghost use Rattle.components.specs.Meeting.{Gathers, HaveMet, linked_dirs};
ghost use Rattle.components.specs.Stored.{AreFit, AreStored, class_in, labels_in};

use crate::classes::unite;
use crate::shape::{Shape, label_at};
use grid_moves::{Cell, Dir, beyond, number_of};

// What a label comes to that meets the neighbour's in this direction: the neighbour's where it is none
// itself, else both are made one.
#[inline(always)]
fn meet(shape: Shape, c: Cell, d: Dir, label: u32, labels: &[u32], classes: &mut [u32]) -> u32
    requires fit { AreFit shape labels.now classes.old }
    requires column { c.x < shape.width }
    requires row { c.y < shape.height }
    requires label { label < length classes.old }
    ensures fit { AreFit shape labels.now classes.new }
    ensures label { result < length classes.new }
    ensures low { (most : ℕ) → ((k : ℕ) → slice_index labels.now k ≤ most) → label ≤ most → result ≤ most }
    ensures met { HaveMet (root_of classes.old) (root_of classes.new) label
        (label_of (labels_in shape labels.now) (cell_beyond d c)) result }
{
    let other = label_at(shape, labels, beyond(c, d));
    if label == 0 {
        return other;
    }
    if other == 0 || other == label {
        return label;
    }
    unite(classes, label, other);
    label
}

// A label of the class of all neighbours that a cell is linked with, 0 where there is none.
#[inline(always)]
fn gather(shape: Shape, c: Cell, labels: &[u32], classes: &mut [u32]) -> u32
    requires fit { AreFit shape labels.now classes.old }
    requires column { c.x < shape.width }
    requires row { c.y < shape.height }
    ensures fit { AreFit shape labels.now classes.new }
    ensures label { result < length classes.new }
    ensures low { (most : ℕ) → ((k : ℕ) → slice_index labels.now k ≤ most) → result ≤ most }
    ensures gathered { Gathers shape.eight c (label_of (labels_in shape labels.now)) (linked_dirs shape.eight)
        (root_of classes.old) (root_of classes.new) result }
{
    let label = meet(shape, c, Dir::N, 0, labels, classes);
    let label = meet(shape, c, Dir::E, label, labels, classes);
    let label = meet(shape, c, Dir::S, label, labels, classes);
    let label = meet(shape, c, Dir::W, label, labels, classes);
    if !shape.eight {
        return label;
    }
    let label = meet(shape, c, Dir::NE, label, labels, classes);
    let label = meet(shape, c, Dir::SE, label, labels, classes);
    let label = meet(shape, c, Dir::SW, label, labels, classes);
    meet(shape, c, Dir::NW, label, labels, classes)
}

/// Gives a cell without a label one: that of the neighbours that it is linked with, which become one class,
/// or a new one where there are none. Returns how many labels are used.
#[inline(always)]
pub(crate) fn add(shape: Shape, c: Cell, used: u32, labels: &mut [u32], classes: &mut [u32]) -> u32
    requires stored { AreStored shape used labels.old classes.old }
    requires column { c.x < shape.width }
    requires row { c.y < shape.height }
    requires blank { label_of (labels_in shape labels.old) c ≡ 0 }
    requires room { used + 1 < length classes.old }
    ensures stored { AreStored shape result labels.new classes.new }
    ensures adds { Adds shape.eight c (class_in shape labels.old classes.old)
        (class_in shape labels.new classes.new) }
    ensures few { result ≤ used + 1 }
{
    let label = gather(shape, c, labels, classes);
    let place = number_of(shape.width, c) as usize;
    if label != 0 {
        labels[place] = label;
        return used;
    }
    let new = used + 1;
    classes[new as usize] = new;
    labels[place] = new;
    new
}
