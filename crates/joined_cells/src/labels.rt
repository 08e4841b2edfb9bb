//! The labels of a grid's cells.

ghost use Rattle.std.specs.Prelude.{◌≡◌, IfOk, replicate};
ghost use Rattle.joined_cells.specs.Joined as spec;
ghost use Rattle.joined_cells.specs.Joined.{TellsJoined};

use crate::NoMemory;
use crate::flood::flood_all;
use grid_moves::{Cell, Terrain, number_of};
use std::alloc::Global;
use std::marker::Model;

// So many labels, all 0.
fn zeros(alloc: Global, cells: usize) -> Result<Vec<u32>, NoMemory>
    ensures { IfOk result (λ v. v.items ≡ replicate cells 0) }
{
    vec![in alloc; 0u32; cells]
}

/// Which cells of a grid are joined by walks: a label for each cell, 0 where it is not free. Two free cells
/// have the same label exactly where a walk leads from one to the other.
///
/// It keeps four bytes for each cell. Contracts see its sides and its labels.
#[derive(Drop)]
pub struct JoinedCells {
    width: u16,
    height: u16,
    /// For each cell, by its number, one more than the number of the first cell of its part.
    labels: Vec<u32>,
}

impl Model for JoinedCells {
    ghost use Rattle.joined_cells.specs.Joined.{Labels};
    ghost use Rattle.joined_cells.specs.Kept.{IsKept};

    ghost Value = { Labels };

    ghost view = { λ p. record { width = p.width; height = p.height; labels = p.labels.items } };

    ghost invariant = { λ p. IsKept p.width p.height p.labels.items };
}

impl JoinedCells {
    /// Which cells of a grid are joined, by one pass over its cells.
    ///
    /// The time is that of eight moves for each free cell. Eight bytes for each cell are taken at the
    /// beginning, and four of them are given back at the end.
    pub fn of<T: Terrain>(alloc: Global, t: &T) -> Result<JoinedCells, NoMemory>
        ensures { IfOk result (TellsJoined (T.grid t.now)) }
    {
        let (width, height) = (t.width(), t.height());
        let cells = height as usize * width as usize;
        let mut labels = zeros(alloc, cells)?;
        let mut waiting = Vec::with_capacity(alloc, cells)?;
        flood_all(t, labels.as_mut_slice(), &mut waiting)?;
        Ok(JoinedCells {
            width,
            height,
            labels,
        })
    }

    // The label of a cell, 0 where it is not free or lies outside the map.
    fn label(&self, c: Cell) -> u32
        ensures { result ≡ spec.label_of self.now c }
    {
        if c.x < self.width && c.y < self.height {
            self.labels[number_of(self.width, c) as usize]
        } else {
            0
        }
    }

    /// Whether both cells are free and a walk leads from one to the other. No memory is taken.
    pub fn joined(&self, s: Cell, t: Cell) -> bool
        ensures { result ≡ spec.are_joined self.now s t }
    {
        let label = self.label(s);
        label != 0 && label == self.label(t)
    }
}
