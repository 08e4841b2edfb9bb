//! Why a text is no table file of a map.

ghost use Rattle.std.specs.Prelude.{◌≡◌};
ghost use Rattle.table_file.specs.declared.fault.TableFault.TheVariants.{NoMemory};

use grid_moves::{Cell, Dir, Ground};
use std::alloc::AllocError;
use thiserror::Error;

/// How a text differs from the encoding of a map's tables.
#[derive(Clone, Copy, Debug, PartialEq, Eq, Error)]
pub enum TableFault {
    /// The first 13 bytes are others: the name, the corner rule or a side.
    #[error("F1")]
    Head,
    /// They are right, and the text has another length.
    #[error("F2")]
    Length,
    /// Both are right, and this is the first entry in the text that is another: one of the land grid or of
    /// the water grid, for this cell and this direction.
    #[error("F3 {ground:?} {cell:?} {dir:?}")]
    Entry {
        ground: Ground,
        cell: Cell,
        dir: Dir,
    },
    /// The tables found no room.
    #[error("memory")]
    NoMemory,
}

impl From<AllocError> for TableFault {
    ghost from_gives = { λ _ fault. fault ≡ NoMemory };

    fn from(_refused: AllocError) -> TableFault {
        TableFault::NoMemory
    }
}
