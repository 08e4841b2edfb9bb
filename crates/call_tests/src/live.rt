//! The command `live`: each failing read in turn, inputs in pieces, and the order of reads and writes.

ghost use Rattle.std.specs.Prelude.{◌≤◌, None};

use crate::calls::{
    CROSSING, Call, ENGINES, RULES, check, check_with, compare, numbers, on_map, status_of, stream,
};
use crate::table::spelled;
use arrayvec::ArrayVec;
use io_edge::{Failed, MemSource, Sink, Source};
use std::alloc::Global;
use std::cell::Cell;
use std::process::Abort;
use std::test::Fail;

// Two lines, of 14 and of 10 bytes.
const SCRIPT: &[u8] = b"query 0 1 2 1\nblock 1 1\n";

const WALK: &[u8] = b"walk 2 0 0,1 2,1\n";

const BOTH: &[u8] = b"walk 2 0 0,1 2,1\nok\n";

// The script that comes in on the crossing.
fn live(words: &str) -> Call<'_> {
    Call {
        input: SCRIPT,
        ..on_map(words, CROSSING)
    }
}

// A script that comes in by these words in pieces of so many bytes, the read of this number failing, has this
// status, this output and this line.
pub(crate) fn check_pieces(
    alloc: Global,
    rt: &impl Abort,
    given: (&str, &[u8]),
    piece: usize,
    failing: u64,
    status: u8,
    output: &[u8],
    line: &[u8],
) -> Result<(), Fail>
    requires { 1 ≤ piece }
{
    let script = Vec::from_slice(alloc, given.1)?;
    let mut input = MemSource::new(script, piece, numbers(alloc, failing)?);
    let mut out = stream(alloc, 0)?;
    let answer = status_of(alloc, rt, live(given.0), &mut input, &mut out, line)?;
    compare(rt, (answer, out.bytes()), (status, output));
    Ok(())
}

// The lines of the commands whose line feed is among the first bytes, so many.
fn lines_of(bytes: u64) -> &'static [u8] {
    match bytes {
        0..14 => b"",
        14..24 => WALK,
        _ => BOTH,
    }
}

// A read takes one byte; the 25th finds the end. Each engine answers the same.
#[test]
fn each_failing_read_leaves_the_whole_commands(rt: HostRuntime) -> Result<(), Fail> {
    let alloc = rt.alloc();
    for engine in ENGINES {
        let words = spelled(alloc, "live m engine=", engine, "")?;
        let made = (words.as_str(), SCRIPT);
        for taken in 0..25 {
            let lines = lines_of(taken);
            check_pieces(alloc, &rt, made, 1, taken + 1, 4, lines, b"jps: read\n")?;
        }
    }
    Ok(())
}

// The last line needs no line feed, and a misspelt line ends the call behind the answers before it.
#[test]
fn a_script_is_answered_up_to_its_first_fault(rt: HostRuntime) -> Result<(), Fail> {
    let alloc = rt.alloc();
    let open: &[u8] = b"query 0 1 2 1\nblock 1 1";
    let misspelt: &[u8] = b"query 0 1 2 1\n\nbolck 1 1\nblock 1 1\n";
    let line = b"jps: script T1 line 3\n";
    for engine in ENGINES {
        let words = spelled(alloc, "live m engine=", engine, "")?;
        let words = words.as_str();
        for piece in [1, 7, 4096] {
            check_pieces(alloc, &rt, (words, open), piece, 0, 0, BOTH, b"")?;
            check_pieces(alloc, &rt, (words, misspelt), piece, 0, 3, WALK, line)?;
        }
    }
    Ok(())
}

// A script that comes in pieces of 7 bytes; it counts its reads.
#[derive(Drop)]
struct Spoken<'a> {
    text: &'a [u8],
    reads: &'a Cell<u64>,
}

impl<'a> Source for Spoken<'a> {
    ghost inflow = { λ _. record { left = None; faults = 0 } };

    fn read(&mut self, buf: &mut [u8]) -> Result<usize, Failed> {
        self.reads.set(self.reads.get().saturating_add(1));
        let count = self.text.len().min(buf.len()).min(7);
        buf[..count].copy_from_slice(&self.text[..count]);
        self.text = &self.text[count..];
        Ok(count)
    }
}

// A stream that notes at each write how many reads there were.
#[derive(Drop)]
struct Noted<'a> {
    reads: &'a Cell<u64>,
    notes: ArrayVec<u64, 16>,
}

impl<'a> Sink for Noted<'a> {
    ghost outflow = { λ _. record { written = None; faults = 0 } };

    fn write(&mut self, piece: &[u8]) -> Result<usize, Failed> {
        let _ = self.notes.try_push(self.reads.get());
        Ok(piece.len())
    }
}

// A script that comes in pieces of 7 bytes has this status and line, these numbers of reads before its
// writes, and so many reads in all.
pub(crate) fn check_order(
    alloc: Global,
    rt: &impl Abort,
    words: &str,
    script: &[u8],
    status: u8,
    line: &[u8],
    notes: &[u64],
    read: u64,
) -> Result<(), Fail> {
    let reads = Cell::new(0);
    let mut input = Spoken {
        text: script,
        reads: &reads,
    };
    let mut out = Noted {
        reads: &reads,
        notes: ArrayVec::new(),
    };
    let answer = status_of(alloc, rt, live(words), &mut input, &mut out, line)?;
    assert_eq!(rt; answer, status, "{words}");
    assert_eq!(rt; out.notes.as_slice(), notes);
    assert_eq!(rt; reads.get(), read);
    Ok(())
}

// The second read completes the first line, the fourth the second one; a fifth finds the end.
#[test]
fn a_line_is_answered_before_the_next_read(rt: HostRuntime) -> Result<(), Fail> {
    let alloc = rt.alloc();
    for engine in ENGINES {
        let words = spelled(alloc, "live m engine=", engine, "")?;
        check_order(alloc, &rt, words.as_str(), SCRIPT, 0, b"", &[2, 4], 5)?;
    }
    Ok(())
}

// A misspelt line ends the call with the read that completes it, a long one with that of its 129th byte.
#[test]
fn a_refused_line_ends_the_call_at_once(rt: HostRuntime) -> Result<(), Fail> {
    let alloc = rt.alloc();
    let misspelt = b"bolck\nblock 1 1\nblock 1 1\n";
    let long = [b' '; 200];
    for engine in ENGINES {
        let words = spelled(alloc, "live m engine=", engine, "")?;
        let words = words.as_str();
        check_order(
            alloc,
            &rt,
            words,
            misspelt,
            3,
            b"jps: script T1 line 1\n",
            &[],
            1,
        )?;
        check_order(
            alloc,
            &rt,
            words,
            &long,
            3,
            b"jps: script T2 line 1\n",
            &[],
            19,
        )?;
    }
    Ok(())
}

// By each engine and under each rule the script has the same lines, but that jumps stop between two
// walls where a diagonal may pass one blocked cell.
#[test]
fn each_engine_answers(rt: HostRuntime) -> Result<(), Fail> {
    for engine in ENGINES {
        for rule in RULES {
            check_with(
                rt.alloc(),
                &rt,
                live("live m"),
                &[engine, rule],
                0,
                lines_by(engine, rule),
            )?;
        }
    }
    Ok(())
}

fn lines_by(engine: &str, rule: &str) -> &'static [u8] {
    if engine == "engine=plain" || rule == "rule=none" {
        return BOTH;
    }
    b"walk 2 0 0,1 1,1 2,1\nok\n"
}

// The read of the files of this number failing, nothing is taken from the input and nothing is written.
fn check_untouched(
    alloc: Global,
    rt: &impl Abort,
    words: &str,
    failing_read: u64,
    status: u8,
    line: &[u8],
) -> Result<(), Fail> {
    let reads = Cell::new(0);
    let made = Call {
        failing_read,
        ..live(words)
    };
    let mut input = Spoken {
        text: SCRIPT,
        reads: &reads,
    };
    let mut out = stream(alloc, 0)?;
    let answer = status_of(alloc, rt, made, &mut input, &mut out, line)?;
    compare(rt, (answer, out.bytes()), (status, b""));
    assert_eq!(rt; reads.get(), 0);
    Ok(())
}

// Each of the four reads of the map failing, and a table file that is refused or whose one read fails.
#[test]
fn files_are_judged_before_the_input(rt: HostRuntime) -> Result<(), Fail> {
    let alloc = rt.alloc();
    for failing in 1..5 {
        check_untouched(alloc, &rt, "live m", failing, 4, b"jps: read\n")?;
    }
    let words = "live m engine=plus tables=s";
    check_untouched(alloc, &rt, words, 0, 3, b"jps: tables F1\n")?;
    check_untouched(alloc, &rt, words, 5, 4, b"jps: read\n")
}

// Each write failing, the bytes before it stand.
#[test]
fn each_failing_write_leaves_the_bytes_before(rt: HostRuntime) -> Result<(), Fail> {
    let alloc = rt.alloc();
    for write in 0..BOTH.len() {
        let failing = Call {
            failing_write: write as u64 + 1,
            ..live("live m")
        };
        check(alloc, &rt, failing, 5, &BOTH[..write], b"jps: write\n")?;
    }
    Ok(())
}
