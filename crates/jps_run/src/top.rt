//! The top call.

ghost use Rattle.std.specs.Prelude.{◌≡◌, ◌≤◌, ◌⊎◌, OnOk, map, string_bytes};
ghost use Rattle.io_edge.specs.Causes.{Rose};
ghost use Rattle.word_list.specs.Request.{IsSound, called};
ghost use Rattle.jps_run.specs.Counting.{RoseAsCalled, RoseForCall};
ghost use Rattle.jps_run.specs.Ending.{Comes, EndsRight, Gets, HasFailed, HasLines, CanHear, HasPart};
ghost use Rattle.jps_run.specs.Ending.{InputRose, NamedRose, Names, ending_line, line_of, status_of};
ghost use Rattle.jps_run.specs.Calls.{MayHear};
ghost use Rattle.jps_run.specs.CallEnds.{EndsCall};
ghost use Rattle.jps_run.specs.Who.{replies_by};
ghost use Rattle.call_files.specs.FaultLines.{word_line as line_of_word};

use crate::commands::{Opened, open};
use crate::replies::{hear, serve_lines};
use crate::work::perform;
use call_files::word_line;
use io_edge::{Files, Sink, Source, write_whole};
use line_work::Stop;
use std::alloc::Global;
use std::sync::ledger::Ledger;
use steps::Steps;
use word_list::{Request, Settings, first_bad, read_words};

// Does what is asked for, and gives the status.
fn answer_call<F: Files, I: Source, O: Sink, L: Ledger>(
    alloc: Global,
    request: Request<'_>,
    settings: Settings,
    files: &mut F,
    input: &mut I,
    out: &mut O,
    steps: &mut Steps<L>,
) -> Result<u8, Stop>
    requires { IsSound request settings }
    ensures ended { EndsCall (called request.entry settings) (F.disk files.old) (F.disk files.new)
        (I.inflow input.old) (I.inflow input.new) (O.outflow out.old) (O.outflow out.new) result }
    ensures counted { OnOk result (RoseForCall (called request.entry settings) (F.disk files.old).holds
        (I.inflow input.old).left steps.old steps.new) }
    ensures unchanged { (F.disk files.new).holds ≡ (F.disk files.old).holds }
    ensures input_stays { ¬ MayHear (called request.entry settings) (F.disk files.old).holds
        → (I.inflow input.new).left ≡ (I.inflow input.old).left }
{
    let opened = open(alloc, request, settings, files)?;
    match opened {
        Opened::Work(work) => perform(alloc, work, out, steps),
        Opened::Listener(mut job) => hear(alloc, &mut job, input, out, steps),
        Opened::Server(mut server) => serve_lines(alloc, &mut server, input, out, steps),
    }
}

// Writes a line to `err`.
fn tell<E: Sink>(err: &mut E, line: &[u8])
    ensures printed { Gets (E.outflow err.old)
        (E.outflow err.new) line.now }
    ensures later { (E.outflow err.old).faults ≤ (E.outflow err.new).faults }
{
    let _ = write_whole(err, line);
}

/// Ends for want of memory, and answers the status, which is 6.
pub fn starve<E: Sink>(err: &mut E) -> u8
    ensures status { result ≡ 6 }
    ensures memory { Gets (E.outflow err.old)
        (E.outflow err.new) (ending_line 6) }
{
    tell(err, b"jps: memory\n");
    6
}

// Refuses the word of this number: status 2, or 6 where its line found no memory.
fn refuse_word<E: Sink>(alloc: Global, number: u32, err: &mut E) -> u8
    ensures statuses { (result ≡ 2) ⊎ (result ≡ 6) }
    ensures word { result ≡ 2 → Gets (E.outflow err.old)
        (E.outflow err.new) (line_of_word number) }
    ensures memory { result ≡ 6 → Gets (E.outflow err.old)
        (E.outflow err.new) (ending_line 6) }
{
    match word_line(alloc, number) {
        Ok(line) => {
            tell(err, line.as_slice());
            2
        }
        Err(_) => starve(err),
    }
}

// Writes the line of how the work on a call ended, if it has one, and gives the status.
fn finish<E: Sink>(ended: Result<u8, Stop>, err: &mut E) -> u8
    ensures status { result ≡ status_of ended }
    ensures printed { Gets (E.outflow err.old) (E.outflow err.new) (line_of ended) }
{
    match ended {
        Ok(status) => {
            tell(err, b"");
            status
        }
        Err(Stop::Text(line)) => {
            tell(err, line.as_slice());
            3
        }
        Err(Stop::Read) => {
            tell(err, b"jps: read\n");
            4
        }
        Err(Stop::Write) => {
            tell(err, b"jps: write\n");
            5
        }
        Err(Stop::Memory) => starve(err),
    }
}

/// Does what the words ask for, and answers the status.
///
/// `words` are the program's words without its own name. Files are read by their names, a script
/// that comes in from `input`; `out` gets the output and `err` the line of a refusal or a fault.
/// `steps` counts what the session counts, and by `scen` with first moves a step for each move of a walk,
/// and one where a first move is looked for in vain (of these the clauses say only
/// that the counter does not fall).
///
/// Statuses: 0 done; 1 done, and a scenario has a row that is neither agree nor near, or `judge` or
/// `check` refuses, or `prove` has no ends that are free and on one layer of the map, or `draw` none that are
/// free, or `lengths` left an entry out, or `problems` found fewer than were asked for; 2 the words are
/// refused; 3 a text is refused; 4 a read failed; 5 a write of the output failed; 6 memory was refused, the
/// one answer that is free.
pub fn run<F: Files, I: Source, O: Sink, E: Sink, L: Ledger>(
    alloc: Global,
    words: &[String],
    files: &mut F,
    input: &mut I,
    out: &mut O,
    err: &mut E,
    steps: &mut Steps<L>,
) -> u8
    ensures statuses { result ≤ 6 }
    // The headline: the status, the output and the line are those of the outcome, where each query is
    // replied to rightly, on the grid as the edits before it leave it. So it is with what is written where
    // the call stops. By `serve` alone `memory` may stand for an answer for which memory was wanting.
    ensures right { EndsRight (map string_bytes words.now) (F.disk files.old) (F.disk files.new)
        (I.inflow input.old) (I.inflow input.new) (O.outflow out.old) (O.outflow out.new) (E.outflow err.old)
        (E.outflow err.new) result }
    // And by which replies: those of the picked engine.
    ensures outcome { result ≤ 3 → Comes replies_by (map string_bytes words.now) (F.disk files.old).holds
        (I.inflow input.old).left (O.outflow out.old) (O.outflow out.new) (E.outflow err.old)
        (E.outflow err.new) result }
    // A read fault has its cause: the count of a file rose that the words name and that there was
    // reason to read, as the files before it were accepted, and nothing was written; or that of an
    // input that the words ask for, and exactly the lines of its whole commands so far were, or by `serve`
    // the answers to its whole lines.
    ensures read { result ≡ 4
        → HasFailed replies_by (map string_bytes words.now) (F.disk files.old) (F.disk files.new)
        (I.inflow input.old) (I.inflow input.new) (O.outflow out.old) (O.outflow out.new) }
    // A write fault has its cause, and a first part of the whole output was written.
    ensures write { result ≡ 5 → Rose (O.outflow out.old).faults (O.outflow out.new).faults }
    ensures part { result ≡ 5 → HasPart replies_by (map string_bytes words.now) (F.disk files.old).holds
        (I.inflow input.old) (I.inflow input.new) (O.outflow out.old) (O.outflow out.new) }
    // On want of memory the first lines of the output were written, not all, or nothing; by `serve` nothing was
    // read or written, unless more bytes came in than 64 bits count.
    ensures memory { result ≡ 6 → HasLines replies_by (map string_bytes words.now) (F.disk files.old).holds
        (I.inflow input.old) (I.inflow input.new) (O.outflow out.old) (O.outflow out.new) }
    ensures line { 4 ≤ result → Gets (E.outflow err.old) (E.outflow err.new) (ending_line result) }
    // Where no count rose, the status is an outcome's or that of want of memory.
    ensures complete { ¬ NamedRose (map string_bytes words.now) (F.disk files.old) (F.disk files.new)
        → ¬ InputRose (map string_bytes words.now) (I.inflow input.old) (I.inflow input.new)
        → ¬ Rose (O.outflow out.old).faults (O.outflow out.new).faults → (result ≤ 3) ⊎ (result ≡ 6) }
    ensures unchanged { (F.disk files.new).holds ≡ (F.disk files.old).holds }
    // A call of `query`, `solve`, `live`, `scen`, `drill` or `draw` that comes to its end counts, for each
    // state that its searches took away from their goals, at least the fewest steps of its engine, and for
    // each that they took no more than the most, where one is known; and for an edit no more than mending its
    // tables may take.
    ensures counted { result ≤ 1 → RoseAsCalled (map string_bytes words.now) (F.disk files.old).holds
        (I.inflow input.old).left steps.old steps.new }
    // Nothing is taken from an input that the words do not ask for, or before each of their files is
    // accepted.
    ensures input_stays { ¬ CanHear (map string_bytes words.now) (F.disk files.old).holds
        → (I.inflow input.new).left ≡ (I.inflow input.old).left }
{
    let (request, settings) = match read_words(words) {
        Ok(call) => call,
        Err(bad) => return refuse_word(alloc, bad.0, err),
    };
    finish(
        answer_call(alloc, request, settings, files, input, out, steps),
        err,
    )
}

/// Refuses a list of words of which some are no text, and answers the status.
///
/// `before` are the words before the first one that is no text. Statuses: 2, or 6 where memory was
/// refused.
pub fn refuse<E: Sink>(alloc: Global, before: &[String], err: &mut E) -> u8
    ensures statuses { (result ≡ 2) ⊎ (result ≡ 6) }
    // The line names the first word with which no call begins; the word that is no text is none's.
    ensures word { result ≡ 2 → Names (map string_bytes before.now)
        (E.outflow err.old) (E.outflow err.new) }
    ensures memory { result ≡ 6 → Gets (E.outflow err.old)
        (E.outflow err.new) (ending_line 6) }
{
    refuse_word(alloc, first_bad(before), err)
}
