//! The answers to lines that come in, for as long as they come.

ghost use Rattle.std.specs.Prelude.{◌<◌, length};
ghost use Rattle.jps_run.specs.ServeLoop.{IsFresh, Serves, ServesTurn};

use crate::replies::hearing::{PIECE, blank, read_into};
use io_edge::{Sink, Source, WriteFault};
use line_server::LineServer;
use line_work::Stop;
use std::alloc::Global;
use std::sync::ledger::Ledger;
use steps::Steps;

/// Answers the lines that come in, those of each read before the next one,
/// and gives the status 0 at their end.
///
/// The buffer is taken before the first read. There is no limit to lines or bytes but that of a counter of
/// reads: behind 2^64 - 1 of them the answer is want of memory.
pub fn serve_lines<I: Source, O: Sink, L: Ledger>(
    alloc: Global,
    server: &mut LineServer,
    input: &mut I,
    out: &mut O,
    steps: &mut Steps<L>,
) -> Result<u8, Stop>
    requires fresh { IsFresh server.old }
    ensures served { Serves server.old (I.inflow input.old) (I.inflow input.new)
        (O.outflow out.old) (O.outflow out.new) result }
{
    let mut buffer = blank(alloc, PIECE)?;
    'turns: for turn in 0..u64::MAX {
        if !serve_more(alloc, server, &mut buffer, input, out, steps)? {
            return Ok(0);
        }
    }
    Err(Stop::Memory)
}

// One turn: reads once, and answers the lines that are whole with the bytes that came in.
// Whether more may come.
fn serve_more<I: Source, O: Sink, L: Ledger>(
    alloc: Global,
    server: &mut LineServer,
    buffer: &mut Vec<u8>,
    input: &mut I,
    out: &mut O,
    steps: &mut Steps<L>,
) -> Result<bool, Stop>
    requires room { 0 < length buffer.old.items }
    ensures served { ServesTurn server.old server.new (I.inflow input.old) (I.inflow input.new)
        buffer.old.items buffer.new.items (O.outflow out.old) (O.outflow out.new) result }
{
    match read_into(input, buffer) {
        Ok(0) => match server.end(alloc, out, steps) {
            Ok(()) => Ok(false),
            Err(_) => Err(Stop::Write),
        },
        Ok(count) => match server.feed(alloc, &buffer[..count], out, steps) {
            Ok(()) => Ok(true),
            Err(_) => Err(Stop::Write),
        },
        Err(_) => Err(Stop::Read),
    }
}
