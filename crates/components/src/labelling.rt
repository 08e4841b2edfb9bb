//! All cells of a grid, labelled in one pass.

ghost use Rattle.std.specs.Prelude.{◌≡◌, ◌+◌, ◌*◌, ◌<◌, ◌≤◌, length};
ghost use Rattle.grid_moves.specs.Grid.{AreSides, IsGrid, is_free};
ghost use Rattle.components.specs.Classes.{IsForest};
ghost use Rattle.components.specs.Labelling.{is_free_before};
ghost use Rattle.components.specs.Links.{TellsLinked};
ghost use Rattle.components.specs.Stored.{AreStored, class_in};

use crate::classes::flatten;
use crate::meeting::add;
use crate::shape::Shape;
use grid_moves::{Cell, Terrain};

// Labels the free cells of a row, where those of the rows above are labelled.
// Returns how many labels are used.
fn label_row<T: Terrain>(
    t: &T,
    shape: Shape,
    y: u16,
    used: u32,
    labels: &mut [u32],
    classes: &mut [u32],
) -> u32
    requires width { shape.width ≡ (T.grid t.now).width }
    requires height { shape.height ≡ (T.grid t.now).height }
    requires row { y < (T.grid t.now).height }
    requires stored { AreStored shape used labels.old classes.old }
    requires few { used ≤ y * shape.width }
    requires told { TellsLinked shape.eight (is_free_before (T.grid t.now) y 0)
        (class_in shape labels.old classes.old) }
    ensures stored { AreStored shape result labels.new classes.new }
    ensures few { result ≤ (y + 1) * shape.width }
    ensures told { TellsLinked shape.eight (is_free_before (T.grid t.now) (y + 1) 0)
        (class_in shape labels.new classes.new) }
{
    let mut used = used;
    for x in 0..t.width() {
        let c = Cell { x, y };
        if t.free(c) {
            used = add(shape, c, used, labels, classes);
        }
    }
    used
}

// Labels the free cells of a grid, over labels that are all 0. Returns how many labels are used.
fn label_all<T: Terrain>(t: &T, shape: Shape, labels: &mut [u32], classes: &mut [u32]) -> u32
    requires width { shape.width ≡ (T.grid t.now).width }
    requires height { shape.height ≡ (T.grid t.now).height }
    requires stored { AreStored shape 0 labels.old classes.old }
    ensures stored { AreStored shape result labels.new classes.new }
    ensures grid { IsGrid (T.grid t.now) }
    ensures told { TellsLinked shape.eight (is_free (T.grid t.now)) (class_in shape labels.new classes.new) }
{
    let mut used = 0;
    for y in 0..t.height() {
        used = label_row(t, shape, y, used, labels, classes);
    }
    used
}

/// Labels the free cells of a grid anew. Returns how many labels are used.
pub(crate) fn relabel<T: Terrain>(
    t: &T,
    shape: Shape,
    labels: &mut [u32],
    classes: &mut [u32],
) -> u32
    requires width { shape.width ≡ (T.grid t.now).width }
    requires height { shape.height ≡ (T.grid t.now).height }
    requires sides { AreSides shape.width shape.height }
    requires whole { length labels.old ≡ shape.height * shape.width }
    requires room { length classes.old ≡ shape.height * shape.width + 1 }
    requires forest { IsForest classes.old }
    ensures stored { AreStored shape result labels.new classes.new }
    ensures grid { IsGrid (T.grid t.now) }
    ensures told { TellsLinked shape.eight (is_free (T.grid t.now)) (class_in shape labels.new classes.new) }
{
    labels.fill(0);
    let used = label_all(t, shape, labels, classes);
    flatten(classes);
    used
}
