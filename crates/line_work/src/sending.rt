//! Output in pieces.

ghost use Rattle.std.specs.Prelude.{◌≤◌};
ghost use Rattle.line_work.specs.Sending.{IsText, Sends, SendsFull, SendsWhole};

use crate::stop::Stop;
use io_edge::{Sink, write_whole};

/// Lines wait until they are at least this many bytes, but for the last ones.
const PIECE: usize = 1 << 16;

/// Writes the bytes. It stops where a write fails.
pub fn send<O: Sink>(out: &mut O, bytes: &[u8]) -> Result<(), Stop>
    ensures sent { Sends (O.outflow out.old)
        (O.outflow out.new) bytes.now result }
    ensures later { (O.outflow out.old).faults ≤ (O.outflow out.new).faults }
{
    match write_whole(out, bytes) {
        Ok(()) => Ok(()),
        Err(_) => Err(Stop::Write),
    }
}

/// Writes the lines that wait, once they are at least 64 KiB. It stops where a write fails.
pub fn send_full<O: Sink>(out: &mut O, waiting: &mut Vec<u8>) -> Result<(), Stop>
    ensures sent { SendsFull (O.outflow out.old)
        (O.outflow out.new) waiting.old.items waiting.new.items result }
    ensures later { (O.outflow out.old).faults ≤ (O.outflow out.new).faults }
{
    if PIECE <= waiting.len() {
        send(out, waiting.as_slice())?;
        waiting.clear();
    }
    Ok(())
}

/// Writes a text whole, and gives this status.
pub fn send_text<O: Sink>(out: &mut O, text: &[u8], status: u8) -> Result<u8, Stop>
    ensures { SendsWhole (IsText text.now status) (O.outflow out.old) (O.outflow out.new) result }
{
    send(out, text)?;
    Ok(status)
}
