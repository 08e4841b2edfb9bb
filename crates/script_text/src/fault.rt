//! Why a text is no script.

ghost use Rattle.std.specs.Prelude.{◌≡◌};
ghost use Rattle.script_text.specs.declared.fault.ScriptFault.TheVariants.{NoMemory};

use crate::command::ScriptCommand;
use std::alloc::AllocFailed;
use thiserror::Error;

/// How the first broken line breaks the grammar. Lines count from 1, blank ones too.
#[derive(Clone, Copy, Debug, PartialEq, Eq, Error)]
pub enum ScriptFault {
    /// A line of at most 128 bytes is neither blank nor a command.
    #[error("T1 line {line}")]
    Line { line: u32 },
    /// A line has more than 128 bytes before its line feed or the end, a carriage return counted.
    #[error("T2 line {line}")]
    Long { line: u32 },
    /// The commands found no room.
    #[error("memory")]
    NoMemory,
}

impl From<AllocFailed<ScriptCommand>> for ScriptFault {
    ghost from_gives = { λ _ fault. fault ≡ NoMemory };

    fn from(_refused: AllocFailed<ScriptCommand>) -> ScriptFault {
        ScriptFault::NoMemory
    }
}
