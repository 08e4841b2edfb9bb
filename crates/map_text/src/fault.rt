//! Why a text is no map.

ghost use Rattle.std.specs.Prelude.{◌≡◌};
ghost use Rattle.map_text.specs.declared.fault.MapFault.TheVariants.{NoMemory};

use std::alloc::AllocError;
use thiserror::Error;

/// How the first broken line breaks the grammar. Lines and columns count from 1, and an absent line
/// has the number that it would have.
#[derive(Clone, Copy, Debug, PartialEq, Eq, Error)]
pub enum MapFault {
    /// One of the four header lines is absent or has other fields.
    #[error("M1 line {line}")]
    Header { line: u32 },
    /// The height or the width is 0 or above 4096.
    #[error("M2 line {line}")]
    Side { line: u32 },
    /// A row has another length than the width, be it shorter or longer.
    #[error("M3 line {line}")]
    Short { line: u32 },
    /// A row is absent.
    #[error("M4 line {line}")]
    Missing { line: u32 },
    /// A byte of a row is no byte of terrain.
    #[error("M5 line {line} column {column}")]
    Byte { line: u32, column: u32 },
    /// A line after the rows is not empty.
    #[error("M6 line {line}")]
    After { line: u32 },
    /// The map found no room.
    #[error("memory")]
    NoMemory,
}

impl From<AllocError> for MapFault {
    ghost from_gives = { λ _ fault. fault ≡ NoMemory };

    fn from(_refused: AllocError) -> MapFault {
        MapFault::NoMemory
    }
}
