//! Why a text is no certificate.

ghost use Rattle.std.specs.Prelude.{◌≡◌};
ghost use Rattle.potential_check.specs.declared.fault.CertFault.TheVariants.{NoMemory};

use std::alloc::AllocError;
use thiserror::Error;

/// How the first broken line breaks the grammar. Lines count from 1, and an absent line has the number
/// that it would have.
#[derive(Clone, Copy, Debug, PartialEq, Eq, Error)]
pub enum CertFault {
    /// The line is absent, has another form, a number out of its range or a listed cell outside the
    /// stated size, or stands after `end` and is not empty.
    #[error("P1 line {line}")]
    Line { line: u32 },
    /// The line lists a cell whose number is not greater than that of the line before it in the list.
    #[error("P2 line {line}")]
    Order { line: u32 },
    /// The certificate found no room.
    #[error("memory")]
    NoMemory,
}

impl From<AllocError> for CertFault {
    ghost from_gives = { λ _ fault. fault ≡ NoMemory };

    fn from(_refused: AllocError) -> CertFault {
        CertFault::NoMemory
    }
}
