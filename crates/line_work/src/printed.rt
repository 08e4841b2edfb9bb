//! A text that is made whole before it is printed.

ghost use Rattle.std.specs.Prelude.{◌≡◌, IfOk};

use crate::NoMemory;
use std::alloc::Global;

/// A text to be printed, and the status after it.
#[derive(Drop)]
pub struct Printed {
    pub text: Vec<u8>,
    pub status: u8,
}

/// A line in place of what was asked for, with status 1.
pub fn said(alloc: Global, line: &[u8]) -> Result<Printed, NoMemory>
    ensures text { IfOk result (λ p. p.text.items ≡ line.now) }
    ensures status { IfOk result (λ p. p.status ≡ 1) }
{
    let text = Vec::from_slice(alloc, line)?;
    Ok(Printed { text, status: 1 })
}
