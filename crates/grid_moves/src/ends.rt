//! What is searched between two cells that are asked for by column and row.
//!
//! Columns and rows are counted from 0. Outside goes before blocked, and blocked before two layers.

ghost use Rattle.grid_moves.specs.Ends as spec;

use crate::{Cell, Layers};

/// The ends of a query, or of a search: the cell that it starts from, and the cell that it leads to.
#[derive(Clone, Copy, Debug, PartialEq, Eq)]
pub struct Ends {
    pub from: Cell,
    pub to: Cell,
}

/// Why nothing is searched between two cells that are asked for.
#[derive(Clone, Copy, Debug, PartialEq, Eq)]
pub enum Unsearched {
    /// One of them lies outside the map.
    Outside,
    /// Both lie on the map, and one of them is blocked.
    Blocked,
    /// One of them is land, the other one water.
    Apart(Ends),
}

impl Layers {
    ghost use Rattle.std.specs.Prelude.{MatchResult};

    /// The ends of a query, both free on its grid; or why there are none.
    pub fn ends(&self, sx: u32, sy: u32, gx: u32, gy: u32) -> Result<Ends, Unsearched>
        ensures { MatchResult result
            (spec.AreEnds self.now (record { x = sx; y = sy }) (record { x = gx; y = gy }))
            (spec.IsUnsearched self.now (record { x = sx; y = sy }) (record { x = gx; y = gy })) }
    {
        let Some(from) = self.cell_at(sx, sy) else {
            return Err(Unsearched::Outside);
        };
        let Some(to) = self.cell_at(gx, gy) else {
            return Err(Unsearched::Outside);
        };
        if !self.are_free_ends(from, to) {
            return Err(Unsearched::Blocked);
        }
        let ends = Ends { from, to };
        if self.in_one_layer(from, to) {
            Ok(ends)
        } else {
            Err(Unsearched::Apart(ends))
        }
    }
}
