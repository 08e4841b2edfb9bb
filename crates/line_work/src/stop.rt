//! Why the work on a request stops.

ghost use Rattle.std.specs.Prelude.{◌≡◌};
ghost use Rattle.line_work.specs.declared.stop.Stop.TheVariants.{Memory};

use std::alloc::AllocError;

/// Why the work on a request stops before its output is written.
#[derive(Drop)]
pub enum Stop {
    /// A text is refused, with this line.
    Text(Vec<u8>),
    /// A read of a file failed.
    Read,
    /// A write of the output failed.
    Write,
    /// Memory was refused.
    Memory,
}

impl From<AllocError> for Stop {
    ghost from_gives = { λ _ stop. stop ≡ Memory };

    fn from(_refused: AllocError) -> Stop {
        Stop::Memory
    }
}
