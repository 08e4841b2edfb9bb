//! The labels of a grid's cells, as cells are blocked and freed.

ghost use Rattle.std.specs.Prelude.{◌≡◌, ◌<◌, ◌^◌, IfOk, length, replicate, true};
ghost use Rattle.grid_moves.specs.Grid.{AreSides, GridData, grid_with};
ghost use Rattle.joined_cells.specs.Joined.{are_joined, label_of};
ghost use Rattle.components.specs.Classes.{IsForest};
ghost use Rattle.components.specs.Kept.{AreFor, KeptLabels, Tells};

use crate::NoMemory;
use crate::classes::root;
use crate::labelling::relabel;
use crate::meeting::add;
use crate::shape::{Shape, label_at};
use crate::walls::stays_joined;
use grid_moves::{Cell, Corner, Terrain, may_slip, number_of};
use std::alloc::Global;
use std::marker::Model;

// So many numbers, all 0.
fn zeros(alloc: Global, n: usize) -> Result<Vec<u32>, NoMemory>
    ensures { IfOk result (λ v. v.items ≡ replicate n 0) }
{
    vec![in alloc; 0u32; n]
}

// Makes each label stand for itself.
fn part_all(classes: &mut [u32])
    requires { length classes.old < 2 ^ 32 }
    ensures { IsForest classes.new }
{
    for l in 0..classes.len() {
        classes[l] = l as u32;
    }
}

/// Which cells of a grid are joined by walks, kept while cells are blocked and freed.
///
/// It keeps eight bytes for each cell. Contracts see a label for each cell, by which two cells that are
/// joined have one, and whether these are fresh.
#[derive(Drop)]
pub struct Components {
    shape: Shape,
    corner: Corner,
    /// For each cell, by its number, its label, 0 where it is not free.
    labels: Vec<u32>,
    /// For each label one of its class: a lesser one, or itself where it stands for the class.
    classes: Vec<u32>,
    /// The greatest label that was given.
    used: u32,
    fresh: bool,
}

impl Model for Components {
    ghost use Rattle.components.specs.Kept.{KeptLabels};
    ghost use Rattle.components.specs.Stored.{AreKept, classes_in};

    ghost Value = { KeptLabels };

    ghost view = { λ p. record {
      labels = classes_in p.shape p.labels.items p.classes.items;
      corner = p.corner;
      fresh = p.fresh;
    } };

    ghost invariant = { λ p. AreKept p.shape p.corner p.used p.labels.items p.classes.items };
}

impl Components {
    /// Which cells of a grid are joined, by one pass over its cells.
    pub fn of<T: Terrain>(alloc: Global, t: &T) -> Result<Components, NoMemory>
        ensures tells { IfOk result (Tells (T.grid t.now)) }
        ensures fresh { IfOk result (λ p. p.fresh ≡ true) }
    {
        let corner = t.corner();
        let shape = Shape {
            width: t.width(),
            height: t.height(),
            eight: may_slip(corner),
        };
        let cells = shape.height as usize * shape.width as usize;
        let mut labels = zeros(alloc, cells)?;
        let mut classes = zeros(alloc, cells + 1)?;
        part_all(classes.as_mut_slice());
        let used = relabel(t, shape, labels.as_mut_slice(), classes.as_mut_slice());
        Ok(Components {
            shape,
            corner,
            labels,
            classes,
            used,
            fresh: true,
        })
    }

    /// Whether the labels are fresh. Where they are not, `refresh` makes them so.
    pub fn is_fresh(&self) -> bool
        ensures { result ≡ self.now.fresh }
    {
        self.fresh
    }

    /// The number of columns.
    pub fn width(&self) -> u16
        ensures is { result ≡ self.now.labels.width }
        ensures sides { AreSides self.now.labels.width self.now.labels.height }
    {
        self.shape.width
    }

    /// The number of rows.
    pub fn height(&self) -> u16
        ensures is { result ≡ self.now.labels.height }
        ensures sides { AreSides self.now.labels.width self.now.labels.height }
    {
        self.shape.height
    }

    /// Labels the cells of a grid anew, by one pass. No memory is taken.
    pub fn refresh<T: Terrain>(&mut self, t: &T)
        requires { AreFor (T.grid t.now) self.old }
        ensures tells { Tells (T.grid t.now) self.new }
        ensures fresh { self.new.fresh ≡ true }
    {
        self.used = relabel(
            t,
            self.shape,
            self.labels.as_mut_slice(),
            self.classes.as_mut_slice(),
        );
        self.fresh = true;
    }

    /// Whether both cells are free and a walk leads from one to the other, where the labels are fresh. No
    /// memory is taken.
    pub fn joined(&self, s: Cell, t: Cell) -> bool
        ensures { result ≡ are_joined self.now.labels s t }
    {
        let label = self.label(s);
        label != 0 && label == self.label(t)
    }

    /// The label of a cell, which those of its part share, where the labels are fresh: 0 where it is not free
    /// or lies outside the map. No memory is taken.
    pub fn label(&self, c: Cell) -> u32
        ensures { result ≡ label_of self.now.labels c }
    {
        root(&self.classes, label_at(self.shape, &self.labels, c))
    }

    /// Makes a cell of the map free, or blocked, as the grid's `set` does. No memory is taken.
    ///
    /// The labels stay fresh but where a blocked cell leaves some around it of which neither the cells around
    /// nor ways of bounded length along the walls show that they are joined, and where more cells were freed
    /// with nothing beside them than there is room for.
    pub fn set(&mut self, c: Cell, free: bool)
        requires column { c.x < self.old.labels.width }
        requires row { c.y < self.old.labels.height }
        ensures { (g : GridData) → Tells g self.old → Tells (grid_with g c free) self.new }
    {
        if !self.fresh {
            return;
        }
        if free == (label_at(self.shape, &self.labels, c) != 0) {
            return;
        }
        if !free {
            let place = number_of(self.shape.width, c) as usize;
            self.labels[place] = 0;
            self.fresh = stays_joined(self.shape, &self.labels, c);
            return;
        }
        if self.used as usize + 1 == self.classes.len() {
            self.fresh = false;
            return;
        }
        self.used = add(
            self.shape,
            c,
            self.used,
            self.labels.as_mut_slice(),
            self.classes.as_mut_slice(),
        );
    }
}
