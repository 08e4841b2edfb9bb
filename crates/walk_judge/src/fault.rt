//! Why a text tells no walks.

ghost use Rattle.std.specs.Prelude.{◌≡◌};
ghost use Rattle.walk_judge.specs.declared.fault.WalkFault.TheVariants.{NoMemory};

use crate::claims::Claimed;
use std::alloc::AllocFailed;
use thiserror::Error;

/// How the first broken line breaks the form. Lines count from 1, blank ones too.
#[derive(Clone, Copy, Debug, PartialEq, Eq, Error)]
pub enum WalkFault {
    /// The line is neither blank nor `none` nor points.
    #[error("K1 line {line}")]
    Line { line: u32 },
    /// The line is not blank and has as many such lines before it as there are entries; or there are
    /// too few such lines, and this is the line behind the last one.
    #[error("K2 line {line}")]
    Count { line: u32 },
    /// The walks found no room.
    #[error("memory")]
    NoMemory,
}

impl From<AllocFailed<Claimed>> for WalkFault {
    ghost from_gives = { λ _ fault. fault ≡ NoMemory };

    fn from(_refused: AllocFailed<Claimed>) -> WalkFault {
        WalkFault::NoMemory
    }
}
