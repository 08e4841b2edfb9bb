//! Lists of cells.

ghost use Rattle.std.specs.Prelude.{◌≡◌, [], ◌∷◌, ◌++◌, reverse, OnOk, OnErr};
ghost use Rattle.grid_moves.specs.Points.{is_lined};

use crate::NoMemory;
use crate::segments::are_lined;
use grid_moves::Cell;
use root2_cost::Cost;
use std::alloc::Global;
use std::marker::Model;

/// Appends an item to a vector; where memory is short the vector stays as it was.
pub fn push_item<T: Drop>(items: &mut Vec<T>, item: T) -> Result<(), NoMemory>
    ensures pushed { OnOk result (items.new.items ≡ items.old.items ++ item ∷ []) }
    ensures unchanged { OnErr result (items.new.items ≡ items.old.items) }
{
    match items.push(item) {
        Ok(()) => Ok(()),
        Err(failed) => Err(failed.into()),
    }
}

/// Items in order; contracts see them as a list.
#[derive(Debug, Drop)]
pub struct Items<T> {
    items: Vec<T>,
}

impl<T> Model for Items<T> {
    ghost use Rattle.std.specs.Prelude.{List};

    ghost Value = { List T };

    ghost view = { λ l. l.items.items };
}

impl<T: Drop> Items<T> {
    /// No item yet.
    pub fn new(alloc: Global) -> Items<T>
        ensures { result ≡ [] }
    {
        Items {
            items: Vec::new(alloc),
        }
    }

    /// The items of a vector.
    pub fn of(items: Vec<T>) -> Items<T>
        ensures { result ≡ items.items }
    {
        Items { items }
    }

    /// Appends an item.
    pub fn push(&mut self, item: T) -> Result<(), NoMemory>
        ensures pushed { OnOk result (self.new ≡ self.old ++ item ∷ []) }
        ensures unchanged { OnErr result (self.new ≡ self.old) }
    {
        push_item(&mut self.items, item)
    }

    /// All items, in order.
    pub fn as_slice(&self) -> &[T]
        ensures { result.now ≡ self.now }
    {
        self.items.as_slice()
    }

    /// Puts the items into the other order.
    pub fn reverse(&mut self)
        ensures { self.new ≡ reverse self.old }
    {
        self.items.reverse();
    }
}

/// The points that stand for a walk, from its start to its goal.
pub type Points = Items<Cell>;

/// The cells of a walk, from its start to its goal.
pub type Cells = Items<Cell>;

/// Cells with a cost each.
pub type Costs = Items<(Cell, Cost)>;

/// A walk: points that stand for it, and its cost.
#[derive(Debug, Drop)]
pub struct Walk {
    pub points: Points,
    pub cost: Cost,
}

impl Items<Cell> {
    /// Whether there is a first point, and each next one differs from the one before it and lies on
    /// one of the eight lines from it.
    pub fn lined(&self) -> bool
        ensures { result ≡ is_lined self.now }
    {
        let Some((first, others)) = self.items.as_slice().split_first() else {
            return false;
        };
        let mut last = *first;
        for next in others {
            if !are_lined(last, *next) {
                return false;
            }
            last = *next;
        }
        true
    }
}
