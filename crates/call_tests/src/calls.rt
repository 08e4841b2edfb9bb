//! Whole calls over files and streams in memory. The lines are those of squared paper; lengths are
//! sums of 1 and √2 = 1.41421356..

ghost use Rattle.std.specs.Prelude.{◌≡◌, ◌<◌};

use io_edge::{Files, MemFiles, MemSink, Sink, Source, SureSource};
use jps_run::{refuse, run};
use std::alloc::{AllocError, Global};
use std::marker::Brand;
use std::process::Abort;
use std::sync::ledger::{Blank, Ledger};
use std::test::Fail;
use steps::Steps;

pub(crate) const OPEN: &[u8] = b"type octile\nheight 3\nwidth 3\nmap\n...\n...\n...\n";

pub(crate) const PILLAR: &[u8] = b"type octile\nheight 3\nwidth 3\nmap\n...\n.@.\n...\n";

// Two cells that touch only at a corner.
pub(crate) const TOUCHING: &[u8] = b"type octile\nheight 2\nwidth 2\nmap\n.@\n@.\n";

// Two walls with a crossing between them.
pub(crate) const CROSSING: &[u8] = b"type octile\nheight 3\nwidth 3\nmap\n.@.\n...\n.@.\n";

pub(crate) const SHORE: &[u8] = b"type octile\nheight 2\nwidth 3\nmap\n.WW\n.WW\n";

pub(crate) const TWO_ROWS: &[u8] = b"type octile\nheight 2\nwidth 4\nmap\n....\n....\n";

// Those of sessions; of a cell those that jump have a state for each direction of arrival, or one alone.
pub(crate) const ENGINES: [&str; 7] = [
    "engine=plain",
    "engine=jps",
    "engine=block",
    "engine=plus",
    "engine=jps states=cell",
    "engine=block states=cell",
    "engine=plus states=cell",
];

pub(crate) const RULES: [&str; 3] = ["rule=none", "rule=one", "rule=both"];

// A call: its words, parted by blanks; the files `m`, `s` and `t`, read in pieces of 16; its input; and which
// read and which write fail, none where it is 0.
#[derive(Clone, Copy)]
pub(crate) struct Call<'a> {
    pub words: &'a str,
    pub map: &'a [u8],
    pub second: &'a [u8],
    pub third: &'a [u8],
    pub input: &'a [u8],
    pub failing_read: u64,
    pub failing_write: u64,
}

// A call of these words on this map and this second file, with nothing else held and nothing failing.
pub(crate) fn on_two<'a>(words: &'a str, map: &'a [u8], second: &'a [u8]) -> Call<'a> {
    Call {
        words,
        map,
        second,
        third: b"",
        input: b"",
        failing_read: 0,
        failing_write: 0,
    }
}

pub(crate) fn on_map<'a>(words: &'a str, map: &'a [u8]) -> Call<'a> {
    on_two(words, map, b"")
}

fn files(alloc: Global, made: Call<'_>) -> Result<MemFiles, AllocError> {
    let mut files = Vec::new(alloc);
    for (name, bytes) in [("m", made.map), ("s", made.second), ("t", made.third)] {
        let name = String::from_str(alloc, name)?;
        files.push((name, Vec::from_slice(alloc, bytes)?))?;
    }
    Ok(MemFiles::new(files, 16, numbers(alloc, made.failing_read)?))
}

pub(crate) fn numbers(alloc: Global, number: u64) -> Result<Vec<u64>, AllocError> {
    let mut numbers = Vec::new(alloc);
    numbers.push(number)?;
    Ok(numbers)
}

// A stream that takes one byte a call; the call of this number fails, and none where it is 0.
pub(crate) fn stream(alloc: Global, failing: u64) -> Result<MemSink, AllocError> {
    MemSink::new(alloc, 4000, 1, numbers(alloc, failing)?)
}

pub(crate) fn strings(alloc: Global, words: &str) -> Result<Vec<String>, AllocError> {
    let mut strings = Vec::new(alloc);
    for word in words.split_whitespace() {
        strings.push(String::from_str(alloc, word)?)?;
    }
    Ok(strings)
}

// A call of these words, its steps counted by a counter of its own.
pub(crate) fn run_counting<F: Files, I: Source, O: Sink, L: Ledger>(
    alloc: Global,
    words: &[String],
    files: &mut F,
    input: &mut I,
    out: &mut O,
    err: &mut MemSink,
    blank: Blank,
) -> u8
    requires name { blank.name ≡ L.name }
    requires parts { blank.parts ≡ L.parts }
    requires some { 0 < L.parts }
{
    let mut steps = Steps::<L>::new(blank);
    run(alloc, words, files, input, out, err, &mut steps)
}

// The status of a call, whose line is this.
pub(crate) fn status_of<I: Source, O: Sink>(
    alloc: Global,
    rt: &impl Abort,
    made: Call<'_>,
    input: &mut I,
    out: &mut O,
    line: &[u8],
) -> Result<u8, Fail> {
    let words = strings(alloc, made.words)?;
    let mut files = files(alloc, made)?;
    let mut err = stream(alloc, 0)?;
    let words = words.as_slice();
    let status = run_counting::<MemFiles, I, O, Brand>(
        alloc,
        words,
        &mut files,
        input,
        out,
        &mut err,
        Blank::new(1),
    );
    assert_eq!(rt; err.bytes(), line, "{}", made.words);
    Ok(status)
}

// The status and what was written are these.
pub(crate) fn compare(rt: &impl Abort, printed: (u8, &[u8]), expected: (u8, &[u8])) {
    assert_eq!(rt; printed.0, expected.0);
    assert_eq!(rt; printed.1, expected.1);
}

// A call has this status, this output and this line.
pub(crate) fn check(
    alloc: Global,
    rt: &impl Abort,
    made: Call<'_>,
    status: u8,
    output: &[u8],
    line: &[u8],
) -> Result<(), Fail> {
    let mut input = SureSource::new(Vec::from_slice(alloc, made.input)?);
    let mut out = stream(alloc, made.failing_write)?;
    let answer = status_of(alloc, rt, made, &mut input, &mut out, line)?;
    assert_eq!(rt; answer, status, "{}", made.words);
    assert_eq!(rt; out.bytes(), output, "{}", made.words);
    Ok(())
}

// Calls of these words on these maps are done, with these outputs.
pub(crate) fn check_done(
    alloc: Global,
    rt: &impl Abort,
    table: &[(&str, &[u8], &[u8])],
) -> Result<(), Fail> {
    for (words, map, output) in table {
        check(alloc, rt, on_map(words, map), 0, output, b"")?;
    }
    Ok(())
}

// The first `reads` reads of a call, each failing in turn.
pub(crate) fn check_reads(
    alloc: Global,
    rt: &impl Abort,
    made: Call<'_>,
    reads: u64,
) -> Result<(), Fail> {
    for read in 0..reads {
        let failing = Call {
            failing_read: read + 1,
            ..made
        };
        check(alloc, rt, failing, 4, b"", b"jps: read\n")?;
    }
    Ok(())
}

// Each write of a call's output failing in turn; a write takes one byte.
pub(crate) fn check_writes(
    alloc: Global,
    rt: &impl Abort,
    made: Call<'_>,
    output: &[u8],
) -> Result<(), Fail> {
    for write in 0..output.len() {
        let failing = Call {
            failing_write: write as u64 + 1,
            ..made
        };
        check(alloc, rt, failing, 5, &output[..write], b"jps: write\n")?;
    }
    Ok(())
}

const EDITS: &[u8] =
    b"query 0 1 2 1\nblock 1 1\nquery 0 1 2 1\nfree 1 1\nfree 1 1\nquery 0 1 2 1\nblock 3 0\n";

const ANSWERS: &[u8] = b"walk 2 0 0,1 2,1\nok\nnone\nok\nsame\nwalk 2 0 0,1 2,1\noutside\n";

// From (0,0) to (3,1) there are two straight moves and a diagonal one, 3.41421356..
const LENGTHS: &[u8] =
    b"version 1\n0 m 4 2 0 0 3 1 3.41421\n0 m 4 2 0 0 3 1 3.405\n0 m 4 2 0 0 3 1 3.40\n";

const ROWS: &[u8] =
    b"row 1 agree 2 1\nrow 2 near 2 1\nrow 3 off 2 1\nsum 3 agree 1 near 1 off 1 other 0\n";

// A query, a script and a scenario, each with its output.
pub(crate) fn query() -> (Call<'static>, &'static [u8]) {
    (on_map("query m 0 0 2 2", OPEN), b"walk 0 2 0,0 2,2\n")
}

pub(crate) fn script() -> (Call<'static>, &'static [u8]) {
    (on_two("solve m s", CROSSING, EDITS), ANSWERS)
}

pub(crate) fn scenario() -> (Call<'static>, &'static [u8]) {
    (on_two("scen m s", TWO_ROWS, LENGTHS), ROWS)
}

#[test]
fn queries_are_answered(rt: HostRuntime) -> Result<(), Fail> {
    let alloc = rt.alloc();
    let table: [(&str, &[u8], &[u8]); 8] = [
        ("query m 0 0 2 2", OPEN, b"walk 0 2 0,0 2,2\n"),
        (
            "query m 0 0 2 2 show=cells rule=none",
            OPEN,
            b"walk 0 2 0,0 1,1 2,2\n",
        ),
        (
            "query m 0 0 2 2 show=trace",
            PILLAR,
            b"walk 4 0 0,0 2,0 2,2 taken 0,0:- 1,0:- 0,1:- 2,0:- 2,1:- 0,2:- 1,2:- 2,2:-\n",
        ),
        (
            "query m 0 0 2 2 show=trace rule=one",
            PILLAR,
            b"walk 2 1 0,0 1,0 2,1 2,2 taken 0,0:- 1,0:- 0,1:- 2,1:- 1,2:- 2,2:-\n",
        ),
        (
            "query m 0 0 1 1 show=trace",
            TOUCHING,
            b"none taken 0,0:-\n",
        ),
        ("query m 0 0 1 0 show=trace", SHORE, b"none taken\n"),
        ("query m 0 0 2 2 show=trace", TOUCHING, b"outside\n"),
        ("query m 1 0 0 0", TOUCHING, b"blocked\n"),
    ];
    check_done(alloc, &rt, &table)
}

// A goal before a mark on one line, a goal whose row is met where the way along it is closed, and a
// mark before the goal on one diagonal.
const MARK_BEHIND: &[u8] = b"type octile\nheight 2\nwidth 7\nmap\n.......\n....@..\n";

const CLOSED_ROW: &[u8] = b"type octile\nheight 2\nwidth 4\nmap\n....\n..@.\n";

const GAP_ABOVE: &[u8] = b"type octile\nheight 4\nwidth 4\nmap\n..@.\n....\n....\n....\n";

// A call with more words behind its own.
pub(crate) fn check_with(
    alloc: Global,
    rt: &impl Abort,
    made: Call<'_>,
    more: &[&str],
    status: u8,
    output: &[u8],
) -> Result<(), Fail> {
    let mut words = String::from_str(alloc, made.words)?;
    for word in more {
        words.push_str(" ")?;
        words.push_str(word)?;
    }
    let made = Call {
        words: words.as_str(),
        ..made
    };
    check(alloc, rt, made, status, output, b"")
}

// The line is that of the query, whichever engine jumps.
#[test]
fn jumps_stop_at_marks_and_goals(rt: HostRuntime) -> Result<(), Fail> {
    let alloc = rt.alloc();
    let table: [(&str, &[u8], &[u8]); 7] = [
        (
            "query m 0 0 2 2 show=trace rule=none",
            PILLAR,
            b"walk 4 0 0,0 0,2 2,2 taken 0,0:- 2,0:E 0,2:S 2,2:E\n",
        ),
        (
            "query m 0 0 2 2 show=trace rule=one",
            PILLAR,
            b"walk 2 1 0,0 0,1 1,2 2,2 taken 0,0:- 1,0:E 0,1:S 2,1:SE 1,2:SE 2,2:E\n",
        ),
        (
            "query m 0 0 3 0 show=trace rule=none",
            MARK_BEHIND,
            b"walk 3 0 0,0 3,0 taken 0,0:- 3,0:E\n",
        ),
        (
            "query m 0 0 3 1 show=trace rule=none",
            CLOSED_ROW,
            b"walk 4 0 0,0 3,0 3,1 taken 0,0:- 3,0:E 3,1:S\n",
        ),
        (
            "query m 0 0 3 3 show=trace rule=none",
            GAP_ABOVE,
            b"walk 0 3 0,0 1,1 3,3 taken 0,0:- 1,1:SE 3,3:SE\n",
        ),
        (
            "query m 0 0 3 3 show=cells rule=none",
            GAP_ABOVE,
            b"walk 0 3 0,0 1,1 2,2 3,3\n",
        ),
        (
            "query m 0 0 1 0 show=trace rule=none",
            SHORE,
            b"none taken\n",
        ),
    ];
    for (words, map, line) in table {
        for engine in ["engine=jps", "engine=block", "engine=plus"] {
            check_with(alloc, &rt, on_map(words, map), &[engine], 0, line)?;
        }
    }
    Ok(())
}

// The same with one state for each cell: round the pillar the first offer of the goal stays.
#[test]
fn one_state_a_cell_stops_at_marks_and_goals(rt: HostRuntime) -> Result<(), Fail> {
    let alloc = rt.alloc();
    let table: [(&str, &[u8], &[u8]); 5] = [
        (
            "query m 0 0 2 2 show=trace rule=none",
            PILLAR,
            b"walk 4 0 0,0 2,0 2,2 taken 0,0:- 2,0:E 0,2:S 2,2:S\n",
        ),
        (
            "query m 0 0 2 2 show=trace rule=one",
            PILLAR,
            b"walk 2 1 0,0 1,0 2,1 2,2 taken 0,0:- 1,0:E 0,1:S 2,1:SE 1,2:SE 2,2:S\n",
        ),
        (
            "query m 0 0 3 0 show=trace rule=none",
            MARK_BEHIND,
            b"walk 3 0 0,0 3,0 taken 0,0:- 3,0:E\n",
        ),
        (
            "query m 0 0 3 1 show=trace rule=none",
            CLOSED_ROW,
            b"walk 4 0 0,0 3,0 3,1 taken 0,0:- 3,0:E 3,1:S\n",
        ),
        (
            "query m 0 0 3 3 show=trace rule=none",
            GAP_ABOVE,
            b"walk 0 3 0,0 1,1 3,3 taken 0,0:- 1,1:SE 3,3:SE\n",
        ),
    ];
    for (words, map, line) in table {
        for engine in ["engine=jps", "engine=block", "engine=plus"] {
            check_with(
                alloc,
                &rt,
                on_map(words, map),
                &[engine, "states=cell"],
                0,
                line,
            )?;
        }
    }
    Ok(())
}

#[test]
fn scripts_and_scenarios_are_answered(rt: HostRuntime) -> Result<(), Fail> {
    let alloc = rt.alloc();
    let (made, lines) = script();
    check(alloc, &rt, made, 0, lines, b"")?;
    for engine in ENGINES {
        check_with(alloc, &rt, made, &[engine], 0, lines)?;
    }
    let floods = b"query 1 0 2 1\nflood 0 0\nquery 0 0 2 0\nflood 0 0\nquery 0 0 0 1\n";
    let lines = b"walk 0 1 1,0 2,1\nok\nwalk 2 0 0,0 1,0 2,0\nsame\nnone\n";
    let made = on_two("solve m s show=cells", SHORE, floods);
    check(alloc, &rt, made, 0, lines, b"")?;
    let (made, rows) = scenario();
    check(alloc, &rt, made, 1, rows, b"")?;
    let made = Call {
        second: b"version 1\n0 m 4 3 0 0 3 1 3.4\n0 m 4 2 4 0 3 1 3.4\n0 m 4 2 3 1 3 1 0\n",
        ..made
    };
    let rows = b"row 1 scale\nrow 2 outside\nrow 3 agree 0 0\nsum 3 agree 1 near 0 off 0 other 2\n";
    check(alloc, &rt, made, 1, rows, b"")?;
    let made = on_two("scen m s", TWO_ROWS, b"version 1\n");
    check(
        alloc,
        &rt,
        made,
        0,
        b"sum 0 agree 0 near 0 off 0 other 0\n",
        b"",
    )
}

// A file of n bytes takes n / 16 reads, rounded up, and one that finds its end.
#[test]
fn each_failing_read_ends_the_call(rt: HostRuntime) -> Result<(), Fail> {
    let alloc = rt.alloc();
    check_reads(alloc, &rt, query().0, 4)?;
    check_reads(alloc, &rt, script().0, 10)?;
    check_reads(alloc, &rt, scenario().0, 10)?;
    let absent = on_map("solve m absent", CROSSING);
    check(alloc, &rt, absent, 4, b"", b"jps: read\n")
}

#[test]
fn each_failing_write_leaves_a_first_part(rt: HostRuntime) -> Result<(), Fail> {
    let alloc = rt.alloc();
    check_writes(alloc, &rt, query().0, query().1)?;
    check_writes(alloc, &rt, script().0, script().1)?;
    check_writes(alloc, &rt, scenario().0, scenario().1)
}

#[test]
fn refused_words_and_texts_are_named(rt: HostRuntime) -> Result<(), Fail> {
    let alloc = rt.alloc();
    let short = b"type octile\nheight 3\nwidth 3\nmap\n...\n...\n..";
    let table: [(&str, &[u8], &[u8], u8, &[u8]); 8] = [
        ("", OPEN, b"", 2, b"jps: word 1\n"),
        ("query m 0 0 2 2 rule=two", OPEN, b"", 2, b"jps: word 7\n"),
        ("query m 0 0 2 2", b"", b"", 3, b"jps: map M1 line 1\n"),
        ("query m 0 0 2 2", short, b"", 3, b"jps: map M3 line 7\n"),
        (
            "solve m s",
            CROSSING,
            b"free 1 1\nbolck 1 1\n",
            3,
            b"jps: script T1 line 2\n",
        ),
        (
            "solve m s",
            b"",
            b"free 1 1\nbolck 1 1\n",
            3,
            b"jps: map M1 line 1\n",
        ),
        (
            "scen m s",
            TWO_ROWS,
            b"version 1\n0 m 4 2 0 0\n",
            3,
            b"jps: scen C2 line 2\n",
        ),
        (
            "scen m s",
            TWO_ROWS,
            b"version 1\n0 m 4 2 0000000000 0 3 1 3.4\n",
            3,
            b"jps: scen C3 line 2\n",
        ),
    ];
    for (words, map, second, status, line) in table {
        check(alloc, &rt, on_two(words, map, second), status, b"", line)?;
    }
    Ok(())
}

// What is written of a word that is no text, behind these words, the write of this number failing.
fn check_refused(
    alloc: Global,
    rt: &impl Abort,
    before: &str,
    failing: u64,
    line: &[u8],
) -> Result<(), Fail> {
    let before = strings(alloc, before)?;
    let mut err = stream(alloc, failing)?;
    let status = refuse(alloc, before.as_slice(), &mut err);
    compare(rt, (status, err.bytes()), (2, line));
    Ok(())
}

// A word that is no text stands where the row's next word would, or first of all;
// then the stream fails at once.
#[test]
fn words_that_are_no_text_are_named(rt: HostRuntime) -> Result<(), Fail> {
    check_refused(rt.alloc(), &rt, "query m 0", 0, b"jps: word 4\n")?;
    check_refused(rt.alloc(), &rt, "", 0, b"jps: word 1\n")?;
    check_refused(rt.alloc(), &rt, "query m 0", 1, b"")
}

// Rows of a map of 3 by 2 with nothing and with all of it blocked; a failing write of a made map;
// and the sums of a drill, as an independent program prints them.
#[test]
fn maps_and_drills_come_from_numbers(rt: HostRuntime) -> Result<(), Fail> {
    let alloc = rt.alloc();
    let drilled = b"drill walks 54 none 1 blocked 45 ok 27 same 23 cost 5848 2278\n";
    let table: [(&str, &[u8], &[u8]); 3] = [
        (
            "make 7 3 2 0",
            b"",
            b"type octile\nheight 2\nwidth 3\nmap\n...\n...\n",
        ),
        (
            "make 7 3 2 100",
            b"",
            b"type octile\nheight 2\nwidth 3\nmap\n@@@\n@@@\n",
        ),
        ("drill 1", b"", drilled),
    ];
    check_done(alloc, &rt, &table)?;
    let failing = Call {
        failing_write: 3,
        ..on_map("make 7 3 2 0", b"")
    };
    check(alloc, &rt, failing, 5, b"ty", b"jps: write\n")
}
