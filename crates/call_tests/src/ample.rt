//! Every drill with its whole line; the program's own texts; and files and input without an end.
//!
//! Want of memory is the one answer that no clause rules out: these calls show another one, as those of the
//! tables do.

ghost use Rattle.std.specs.Prelude.{None};
ghost use Rattle.io_edge.specs.Known.{unknown};

use crate::calls::{
    Call, ENGINES, OPEN, RULES, check, check_writes, compare, on_map, run_counting, status_of,
    stream, strings,
};
use crate::table::{calls_of, check_table, engines_of, row_of, rules_of, spelled, written};
use io_edge::{Failed, Files, MemSink, Source, SureSource};
use std::alloc::Global;
use std::marker::Brand;
use std::process::Abort;
use std::sync::ledger::Blank;
use std::test::Fail;

// The lines of a drill under each rule, as an independent program prints them.
pub(crate) const DRILLS: &str = "
drill | drill 1 engine=each rule=none => 0 drill walks 54 none 1 blocked 45 ok 27 same 23 cost 5848 2278
drill | drill 1 engine=each rule=one => 0 drill walks 54 none 1 blocked 45 ok 27 same 23 cost 3914 3239
drill | drill 1 engine=each rule=both => 0 drill walks 55 none 0 blocked 45 ok 27 same 23 cost 3694 3235
states | drill 1 states=cell engine=plain rule=any => 2 jps: word 4
states | drill 1 engine=plain states=arrival rule=any => 2 jps: word 4
";

#[test]
fn each_drill_is_summed_up(rt: HostRuntime) -> Result<(), Fail> {
    check_table(rt.alloc(), &rt, DRILLS)
}

#[test]
fn a_failing_write_ends_a_drill(rt: HostRuntime) -> Result<(), Fail> {
    let alloc = rt.alloc();
    for engine in ENGINES {
        for rule in RULES {
            let words = spelled(alloc, "drill 1 engine= rule=", engine, rule)?;
            let failing = Call {
                failing_write: 3,
                ..on_map(words.as_str(), b"")
            };
            check(alloc, &rt, failing, 5, b"dr", b"jps: write\n")?;
        }
    }
    Ok(())
}

// Files of which a map and a scenario of no entries are there, and all others have no end.
#[derive(Drop)]
struct Endless<'a> {
    map: &'a [u8],
}

impl<'a> Files for Endless<'a> {
    ghost disk = { λ _. record { holds = λ _. unknown; faults = λ _. 0 } };

    fn read_at(&mut self, name: &str, place: u64, buf: &mut [u8]) -> Result<usize, Failed> {
        let held = match name {
            "m" => self.map,
            "s" => b"version 1\n",
            _ => return Ok(buf.len()),
        };
        let rest = &held[(place as usize).min(held.len())..];
        let count = rest.len().min(buf.len());
        buf[..count].copy_from_slice(&rest[..count]);
        Ok(count)
    }
}

// A call of these words on files without an end, `err` failing at this write, has this status and line; its
// output begins and ends so, and is empty but where the call is done.
fn check_endless(
    alloc: Global,
    rt: &impl Abort,
    words: &str,
    failing: u64,
    status: u8,
    ends: (&[u8], &[u8]),
    line: &[u8],
) -> Result<(), Fail> {
    let mut files = Endless { map: OPEN };
    let mut input = SureSource::new(Vec::new(alloc));
    let mut out = MemSink::new(alloc, 10_000, 100, Vec::new(alloc))?;
    let mut err = stream(alloc, failing)?;
    let words = strings(alloc, words)?;
    let answer = run_counting::<Endless<'_>, SureSource, MemSink, Brand>(
        alloc,
        words.as_slice(),
        &mut files,
        &mut input,
        &mut out,
        &mut err,
        Blank::new(1),
    );
    let is_whole = out.bytes().starts_with(ends.0) && out.bytes().ends_with(ends.1);
    assert_eq!(rt; is_whole, true);
    assert_eq!(rt; status == 0 || out.bytes().is_empty(), true);
    compare(rt, (answer, err.bytes()), (status, line));
    Ok(())
}

// Each file of each command without an end, by each engine and under each rule. `endless` are all commands
// with a map, that of `x`.
pub(crate) const LONG: &str = "
map long | endless => 3 jps: map long
script long | solve m x engine=each rule=any => 3 jps: script long
scen long | scen m x engine=any rule=any => 3 jps: scen long
scen long | judge m x t rule=any => 3 jps: scen long
scen long | lengths m x rule=any => 3 jps: scen long
";

// Those that may have 2^30 bytes, under one rule each.
pub(crate) const LONGEST: &str = "
walks long | judge m s x rule=none => 3 jps: walks long
cert long | check m x rule=none => 3 jps: cert long
tables long | query m 0 0 2 2 tables=x engine=plus rule=none => 3 jps: tables long
tables long | solve m s tables=x engine=plus rule=none => 3 jps: tables long
tables long | live m tables=x engine=plus rule=none => 3 jps: tables long
tables long | scen m s tables=x engine=plus rule=none => 3 jps: tables long
";

// A call with a file without an end, by each engine and under each rule.
fn check_long(
    alloc: Global,
    rt: &impl Abort,
    words: &str,
    status: u8,
    line: &[u8],
) -> Result<(), Fail> {
    for engine in engines_of(words) {
        for rule in rules_of(words) {
            let call = spelled(alloc, words, engine, rule)?;
            check_endless(alloc, rt, call.as_str(), 0, status, (b"", b""), line)?;
        }
    }
    Ok(())
}

// The calls of a table whose files have no end.
fn check_all_long(alloc: Global, rt: &impl Abort, table: &str) -> Result<(), Fail> {
    for line in table.lines() {
        let Some(row) = row_of(line) else {
            continue;
        };
        let line = written(alloc, row.lines, true)?;
        let calls = calls_of(alloc, row)?;
        for call in calls.as_slice() {
            check_long(alloc, rt, call.as_str(), row.status, line.as_slice())?;
        }
    }
    Ok(())
}

#[test]
fn a_file_without_an_end_is_too_long(rt: HostRuntime) -> Result<(), Fail> {
    check_all_long(rt.alloc(), &rt, LONG)
}

#[test]
fn the_longest_files_without_an_end_are_too_long(rt: HostRuntime) -> Result<(), Fail> {
    check_all_long(rt.alloc(), &rt, LONGEST)
}

// A script that comes in: a command, and then lines of blanks without an end.
#[derive(Drop)]
struct Unending {
    is_begun: bool,
}

impl Source for Unending {
    ghost inflow = { λ _. record { left = None; faults = 0 } };

    fn read(&mut self, buf: &mut [u8]) -> Result<usize, Failed> {
        let command = b"block 1 1\n";
        if !self.is_begun && command.len() <= buf.len() {
            self.is_begun = true;
            buf[..command.len()].copy_from_slice(command);
            return Ok(command.len());
        }
        buf.fill(b'\n');
        Ok(buf.len())
    }
}

#[test]
fn a_script_without_an_end_is_answered_and_too_long(rt: HostRuntime) -> Result<(), Fail> {
    let alloc = rt.alloc();
    let mut input = Unending { is_begun: false };
    let mut out = stream(alloc, 0)?;
    let line = b"jps: script long\n";
    let status = status_of(
        alloc,
        &rt,
        on_map("live m", OPEN),
        &mut input,
        &mut out,
        line,
    )?;
    compare(&rt, (status, out.bytes()), (3, b"ok\n"));
    Ok(())
}

// The texts of the program's own come whole; refused words keep their status where their line fails.
#[test]
fn help_comes_whole_and_a_failing_line_changes_no_status(rt: HostRuntime) -> Result<(), Fail> {
    let alloc = rt.alloc();
    let usage = b"usage: jps COMMAND ...\n  jps query MAP SX SY GX GY ";
    let last = b"\n  jps: read, jps: write, jps: memory\n";
    check_endless(alloc, &rt, "--help", 1, 0, (usage, last), b"")?;
    check_endless(alloc, &rt, "--version", 1, 0, (b"jps 1.3.0", b"\n"), b"")?;
    check_endless(alloc, &rt, "--hepl", 1, 2, (b"", b""), b"")?;
    check_writes(alloc, &rt, on_map("--version", b""), b"jps 1.3.0\n")
}
