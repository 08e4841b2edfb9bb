//! The answers to a script that comes in.

ghost use Rattle.std.specs.Prelude.{◌≡◌, ◌+◌, ◌<◌, ◌≤◌, ◌^◌, length, IfOk, None, OnOk};
ghost use Rattle.std.specs.Io.KnownBytes.{ReadConsumes};
ghost use Rattle.io_edge.specs.Causes.{HasCause};
ghost use Rattle.jps_run.specs.Heard.{RoseHeard};
ghost use Rattle.jps_run.specs.Hearing.{AnswersKnown, Refuses, Hears, HearsPiece, HearsEnd, HearsTurn};
ghost use Rattle.jps_run.specs.HeardCounts.{RiseEnd, RisePiece, RiseTurn};
ghost use Rattle.jps_run.specs.Answering.{HaveCounted};
ghost use Rattle.line_work.specs.Working.{CountsMore};

use crate::NoMemory;
use crate::replies::Answers;
use call_files::{LONGEST, long_line, script_line};
use io_edge::{Failed, Sink, Source};
use line_work::{Stop, work_more};
use script_text::{LineFeeder, ScriptCommand, ScriptFault};
use std::alloc::Global;
use std::sync::ledger::Ledger;
use steps::Steps;

/// The longest script, in bytes.
const MOST: usize = LONGEST as usize;

/// At most so many bytes are read at once.
pub const PIECE: usize = 1 << 16;

/// Answers the commands that come in, those of each read before the next one.
///
/// ```text
/// what came in:  block 3 4 ⏎ query 0 0 9 9 ⏎ free 3     not read yet
///                |--------- taken ------------------|
///                |-- whole: answered, -----||waits:-|
///                |   their lines written   ||feeder |
/// ```
///
/// A turn takes some bytes more. What they complete is answered and written before the next turn, so between
/// turns no whole line waits. Where nothing more comes in, what waits is the last line.
pub fn hear<I: Source, O: Sink, L: Ledger>(
    alloc: Global,
    job: &mut Answers,
    input: &mut I,
    out: &mut O,
    steps: &mut Steps<L>,
) -> Result<u8, Stop>
    ensures heard { Hears job.old (I.inflow input.old)
        (I.inflow input.new)
        (O.outflow out.old) (O.outflow out.new) result }
    ensures rose { OnOk result (RoseHeard job.old.session (I.inflow input.old).left steps.old steps.new) }
{
    let mut buffer = blank(alloc, PIECE)?;
    let mut feeder = LineFeeder::new();
    'turns: loop {
        match turn(alloc, job, &mut feeder, &mut buffer, input, out, steps)? {
            Some(status) => return Ok(status),
            None => (),
        }
    }
}

// One turn: reads once, and answers what is whole with the bytes that came in. The status, where nothing more
// came in.
fn turn<I: Source, O: Sink, L: Ledger>(
    alloc: Global,
    job: &mut Answers,
    feeder: &mut LineFeeder,
    buffer: &mut Vec<u8>,
    input: &mut I,
    out: &mut O,
    steps: &mut Steps<L>,
) -> Result<Option<u8>, Stop>
    requires few { feeder.old.taken ≤ 2 ^ 26 }
    requires room { 0 < length buffer.old.items }
    // All that was taken so far is answered, but for a line that is not whole; or all of it, at the end; or
    // that stops.
    ensures heard { HearsTurn job.old job.new feeder.old feeder.new (I.inflow input.old) (I.inflow input.new)
        buffer.old.items buffer.new.items (O.outflow out.old) (O.outflow out.new) result }
    ensures rose { IfOk result (RiseTurn job.old job.new feeder.old feeder.new (I.inflow input.old).left
        (I.inflow input.new).left steps.old steps.new) }
    // Where more may come, some bytes more were taken.
    ensures onward { IfOk result (λ ended. ended ≡ None → feeder.old.taken < feeder.new.taken) }
{
    let room = MOST - feeder.taken() as usize;
    match read_into(input, buffer) {
        Ok(0) => {
            let status = hear_end(alloc, job, feeder, out, steps)?;
            Ok(Some(status))
        }
        Ok(count) => {
            let piece = &buffer[..count.min(room)];
            hear_piece(alloc, job, feeder, piece, out, steps)?;
            if room < count {
                return Err(Stop::Text(long_line(alloc, b"script")?));
            }
            Ok(None)
        }
        Err(_) => Err(Stop::Read),
    }
}

/// Reads once into the buffer.
pub fn read_into<I: Source>(input: &mut I, buffer: &mut Vec<u8>) -> Result<usize, Failed>
    requires { 0 < length buffer.old.items }
    ensures bound { IfOk result (λ n. n ≤ length buffer.new.items) }
    ensures kept { length buffer.new.items ≡ length buffer.old.items }
    ensures bytes { ReadConsumes (I.inflow input.old).left (I.inflow input.new).left result buffer.new.items }
    ensures cause { HasCause (I.inflow input.old).faults (I.inflow input.new).faults result }
{
    input.read(buffer.as_mut_slice())
}

/// So many bytes.
pub fn blank(alloc: Global, count: usize) -> Result<Vec<u8>, NoMemory>
    ensures { IfOk result (λ bytes. length bytes.items ≡ count) }
{
    vec![in alloc; 0; count]
}

// Answers the commands of the lines that this piece completes.
fn hear_piece<O: Sink, L: Ledger>(
    alloc: Global,
    job: &mut Answers,
    feeder: &mut LineFeeder,
    piece: &[u8],
    out: &mut O,
    steps: &mut Steps<L>,
) -> Result<(), Stop>
    requires { feeder.old.taken + length piece.now ≤ 2 ^ 26 }
    ensures heard { HearsPiece job.old job.new feeder.old feeder.new piece.now
        (O.outflow out.old) (O.outflow out.new) result }
    ensures rose { OnOk result (RisePiece job.old job.new feeder.old feeder.new piece.now
        steps.old steps.new) }
    ensures counted { OnOk result (feeder.new.taken ≡ feeder.old.taken + length piece.now) }
{
    let mut got = Vec::new(alloc);
    let fed = feeder.feed(piece, &mut got);
    answer_known(alloc, job, fed, got.as_slice(), out, steps)
}

// Answers the command of a last line without line feed, and gives the status 0.
fn hear_end<O: Sink, L: Ledger>(
    alloc: Global,
    job: &mut Answers,
    feeder: &mut LineFeeder,
    out: &mut O,
    steps: &mut Steps<L>,
) -> Result<u8, Stop>
    ensures ended { HearsEnd job.old job.new feeder.old
        (O.outflow out.old) (O.outflow out.new) result }
    ensures rose { OnOk result (RiseEnd job.old job.new feeder.old steps.old steps.new) }
{
    let mut got = Vec::new(alloc);
    let ended = feeder.end(&mut got);
    answer_known(alloc, job, ended, got.as_slice(), out, steps)?;
    Ok(0)
}

// Answers the commands that became known, and stops where a fault is known behind them.
fn answer_known<O: Sink, L: Ledger>(
    alloc: Global,
    job: &mut Answers,
    fed: Result<(), ScriptFault>,
    got: &[ScriptCommand],
    out: &mut O,
    steps: &mut Steps<L>,
) -> Result<(), Stop>
    ensures known { AnswersKnown job.old job.new fed got.now (O.outflow out.old)
        (O.outflow out.new) result }
    ensures all { OnOk result (fed ≡ Ok tt) }
    ensures rose { OnOk result (CountsMore HaveCounted job.old job.new got.now steps.old steps.new) }
{
    work_more(alloc, job, got, out, steps)?;
    refuse(alloc, fed)
}

// Stops at a fault, with its line.
fn refuse(alloc: Global, fed: Result<(), ScriptFault>) -> Result<(), Stop>
    ensures { Refuses fed result }
{
    match fed {
        Ok(()) => Ok(()),
        Err(fault) => Err(Stop::Text(script_line(alloc, fault)?)),
    }
}
