//! Why a text is no scenario.

ghost use Rattle.std.specs.Prelude.{◌≡◌};
ghost use Rattle.scen_text.specs.declared.fault.ScenFault.TheVariants.{NoMemory};

use crate::entry::Entry;
use std::alloc::AllocFailed;
use thiserror::Error;

/// How the first broken line breaks the grammar. Lines count from 1.
#[derive(Clone, Copy, Debug, PartialEq, Eq, Error)]
pub enum ScenFault {
    /// The first line is absent or is not that of version 1.
    #[error("C1 line {line}")]
    Version { line: u32 },
    /// An entry has fewer than nine fields.
    #[error("C2 line {line}")]
    Fields { line: u32 },
    /// The bucket, a side or a coordinate is no number.
    #[error("C3 line {line}")]
    Number { line: u32 },
    /// The last field is no length.
    #[error("C4 line {line}")]
    Length { line: u32 },
    /// The entries found no room.
    #[error("memory")]
    NoMemory,
}

impl From<AllocFailed<Entry>> for ScenFault {
    ghost from_gives = { λ _ fault. fault ≡ NoMemory };

    fn from(_refused: AllocFailed<Entry>) -> ScenFault {
        ScenFault::NoMemory
    }
}
