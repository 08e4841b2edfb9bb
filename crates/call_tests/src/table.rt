//! The table of whole calls, and what goes through it.
//!
//! A table is a text with a line for each row: what it shows, the words, the map and the further files, and
//! behind an arrow the status and the lines that are written. `/` ends a line of a file or of the output:
//!
//! ```text
//! walk, ok | solve m s engine=each rule=any | ... | query 0 0 2 0/block 1 0 => 0 walk 2 0 0,0 2,0/ok
//! ```
//!
//! A row stands for a call by each engine and under each rule of the sets that its words name, and all of
//! them have the same outcome. An engine that jumps counts twice, with one state for each direction of
//! arrival at a cell, and with one for each cell (`states=cell`). The first file is `m`: rows of cells, or a
//! whole text where it begins with `type`. The second is `s`, and what comes in to `live` and `serve`; the
//! third is `t`. A line `~N` is N blanks. `%` is the table file of three cells under the row's rule, `%water`
//! that of `.WW`; `%P=B` has the byte B at place P, `%cut` lacks the last byte. A line `jps: ..` goes to
//! standard error, all others are the output.

use crate::calls::{Call, ENGINES, RULES, check, check_reads};
use crate::commands::{SHORE_CELLS, THREE_CELLS};
use crate::counted::calls_showing;
use crate::small::large;
use std::alloc::{AllocError, Global};
use std::process::Abort;
use std::test::Fail;

pub(crate) const PICKS: [&str; 9] = [
    "engine=plain",
    "engine=jps",
    "engine=block",
    "engine=plus",
    "engine=jps states=cell",
    "engine=block states=cell",
    "engine=plus states=cell",
    "engine=boxes",
    "engine=moves",
];

const TRACING: [&str; 8] = [
    "engine=plain",
    "engine=jps",
    "engine=block",
    "engine=plus",
    "engine=jps states=cell",
    "engine=block states=cell",
    "engine=plus states=cell",
    "engine=boxes",
];

const JUMPING: [&str; 6] = [
    "engine=jps",
    "engine=block",
    "engine=plus",
    "engine=jps states=cell",
    "engine=block states=cell",
    "engine=plus states=cell",
];

// By arrival, where the words say so and where they do not.
const BY_ARRIVAL: [&str; 6] = [
    "engine=jps",
    "engine=block",
    "engine=plus",
    "states=arrival engine=jps",
    "engine=block states=arrival",
    "states=arrival engine=plus",
];

const BY_CELL: [&str; 3] = [
    "engine=jps states=cell",
    "engine=block states=cell",
    "engine=plus states=cell",
];

// The engines that load no tables, of those that answer a session.
const TABLELESS: [&str; 5] = [
    "engine=plain",
    "engine=jps",
    "engine=block",
    "engine=jps states=cell",
    "engine=block states=cell",
];

/// A row, as it stands in a table.
#[derive(Clone, Copy)]
pub(crate) struct Row<'a> {
    pub shows: &'a str,
    pub words: &'a str,
    pub map: &'a str,
    pub second: &'a str,
    pub third: &'a str,
    pub status: u8,
    pub lines: &'a str,
}

// The row of the line, none where it has no arrow.
pub(crate) fn row_of(line: &str) -> Option<Row<'_>> {
    let (before, after) = line.split_once("=>")?;
    let mut fields = before.split('|');
    let shows = fields.next().unwrap_or("").trim();
    let words = fields.next().unwrap_or("").trim();
    let map = fields.next().unwrap_or("").trim();
    let second = fields.next().unwrap_or("").trim();
    let third = fields.next().unwrap_or("").trim();
    let (status, lines) = after.trim().split_once(' ').unwrap_or((after.trim(), ""));
    Some(Row {
        shows,
        words,
        map,
        second,
        third,
        status: status.parse::<u8>().unwrap_or(9),
        lines,
    })
}

// Whether the list, parted by commas, has this name.
pub(crate) fn has_name(list: &str, name: &str) -> bool {
    for part in list.split(',') {
        if part.trim() == name {
            return true;
        }
    }
    false
}

// Whether the row shows this, among others; each row shows nothing.
pub(crate) fn is_shown(row: Row<'_>, what: &str) -> bool {
    what.is_empty() || has_name(row.shows, what)
}

// The engines of the set that the words name; none is named where a command has none.
pub(crate) fn engines_of(words: &str) -> &'static [&'static str] {
    for word in words.split_whitespace() {
        match word {
            "engine=any" => return &PICKS,
            "engine=each" => return &ENGINES,
            "engine=jumping" => return &JUMPING,
            "engine=by-arrival" => return &BY_ARRIVAL,
            "engine=by-cell" => return &BY_CELL,
            "engine=jumpless" => return &["engine=plain", "engine=boxes", "engine=moves"],
            "engine=small" => return &["engine=boxes", "engine=moves"],
            "engine=tracing" => return &TRACING,
            "engine=stepping" => return &["engine=plain", "engine=boxes"],
            "engine=other" => return &TABLELESS,
            "engine=loading" => return &["engine=plus", "engine=plus states=cell"],
            "engine=plus" => return &["engine=plus"],
            "engine=plus-by-cell" => return &["engine=plus states=cell"],
            "engine=plain" => return &["engine=plain"],
            "engine=boxes" => return &["engine=boxes"],
            "engine=moves" => return &["engine=moves"],
            _ => (),
        }
    }
    &[""]
}

// The corner rules of the set that the words name; none is named where a command has none.
pub(crate) fn rules_of(words: &str) -> &'static [&'static str] {
    for word in words.split_whitespace() {
        match word {
            "rule=any" => return &RULES,
            "rule=strict" => return &["rule=none", "rule=one"],
            "rule=slipping" => return &["rule=one", "rule=both"],
            "rule=none" => return &["rule=none"],
            "rule=one" => return &["rule=one"],
            "rule=both" => return &["rule=both"],
            _ => (),
        }
    }
    &[""]
}

// The commands that answer commands, those that do with their trace, and those with a table file; each takes
// the engines and the rules of its own set.
const SCRIPTED: [&str; 3] = ["solve m s", "live m", "serve m"];

const TRACED: [&str; 2] = ["solve m s", "live m"];

const TABLED: [&str; 5] = [
    "query m 0 0 2 0 tables=t engine=loading rule=any",
    "solve m s engine=loading tables=t rule=any",
    "live m rule=any engine=loading tables=t",
    "serve m tables=t engine=loading rule=any",
    "scen m s engine=loading tables=t rule=any",
];

// The words with another name for the map.
fn renamed(alloc: Global, words: &str, map: &str) -> Result<String, AllocError> {
    let mut changed = String::new(alloc);
    for word in words.split_whitespace() {
        changed.push_str(if word == "m" { map } else { word })?;
        changed.push_str(" ")?;
    }
    Ok(changed)
}

// The commands with a map, under another name for it.
fn mapped_as(alloc: Global, map: &str) -> Result<Vec<String>, AllocError> {
    let mapped = calls_showing(alloc, "map faults")?;
    let mut calls = Vec::new(alloc);
    for call in mapped.as_slice() {
        calls.push(renamed(alloc, call.as_str(), map)?)?;
    }
    Ok(calls)
}

// Each of the commands, with the settings behind it.
fn each_with(alloc: Global, commands: &[&str], settings: &str) -> Result<Vec<String>, AllocError> {
    let mut calls = Vec::new(alloc);
    for command in commands {
        calls.push(format!(in alloc; "{command}{settings}")?)?;
    }
    Ok(calls)
}

// The words of the calls of the row: those of a group,
// those of the commands that answer commands, or its own.
pub(crate) fn calls_of(alloc: Global, row: Row<'_>) -> Result<Vec<String>, AllocError> {
    match row.words {
        "mapped" => return calls_showing(alloc, "map faults"),
        "listed" => return calls_showing(alloc, "scen faults"),
        "tabled" => return each_with(alloc, &TABLED, ""),
        "nowhere" => return mapped_as(alloc, "no"),
        "endless" => return mapped_as(alloc, "x"),
        _ => (),
    }
    if let Some(settings) = row.words.strip_prefix("scripted") {
        return each_with(alloc, &SCRIPTED, settings);
    }
    match row.words.strip_prefix("traced") {
        Some(settings) => each_with(alloc, &TRACED, settings),
        None => each_with(alloc, &[row.words], ""),
    }
}

// The words with this engine and this rule in place of the sets.
pub(crate) fn spelled(
    alloc: Global,
    words: &str,
    engine: &str,
    rule: &str,
) -> Result<String, AllocError> {
    let mut spelled = String::new(alloc);
    for word in words.split_whitespace() {
        let word = if word.starts_with("engine=") {
            engine
        } else if word.starts_with("rule=") {
            rule
        } else {
            word
        };
        spelled.push_str(word)?;
        spelled.push_str(" ")?;
    }
    Ok(spelled)
}

// The text of these lines.
fn text_of(alloc: Global, lines: &str) -> Result<Vec<u8>, AllocError> {
    let mut text = Vec::new(alloc);
    if lines.is_empty() {
        return Ok(text);
    }
    for line in lines.split('/') {
        match line.strip_prefix("~") {
            Some(count) => {
                let count = count.parse::<u8>().unwrap_or(0);
                for _blank in 0..count {
                    text.push(b' ')?;
                }
            }
            None => text.extend_from_slice(line.as_bytes())?,
        }
        text.push(b'\n')?;
    }
    Ok(text)
}

// The width and the height of the map of these rows.
pub(crate) fn sides_of(rows: &str) -> (usize, usize) {
    let mut width = 0;
    let mut height = 0usize;
    for row in rows.split('/') {
        width = row.len();
        height = height.saturating_add(1);
    }
    (width, height)
}

// The map of these rows, or of this text; `%large` has more cells than boxes and first moves are for.
fn map_of(alloc: Global, rows: &str) -> Result<Vec<u8>, AllocError> {
    if rows == "%large" {
        return large(alloc);
    }
    if rows.is_empty() || rows.starts_with("type") {
        return text_of(alloc, rows);
    }
    let (width, height) = sides_of(rows);
    let head = format!(in alloc; "type octile\nheight {height}\nwidth {width}\nmap\n")?;
    let mut text = Vec::from_slice(alloc, head.as_bytes())?;
    let cells = text_of(alloc, rows)?;
    text.extend_from_slice(cells.as_slice())?;
    Ok(text)
}

// The third file: a text, or the tables of three cells, under the rule, with a byte changed or cut off.
fn third_of(alloc: Global, given: &str, rule: &str) -> Result<Vec<u8>, AllocError> {
    let Some(change) = given.strip_prefix("%") else {
        return text_of(alloc, given);
    };
    let cells = if change == "water" {
        SHORE_CELLS
    } else {
        THREE_CELLS
    };
    let mut tables = Vec::from_slice(alloc, cells)?;
    if 8 < tables.len() {
        tables[8] = match rule {
            "rule=one" => 1,
            "rule=both" => 2,
            _ => 0,
        };
    }
    if change == "cut" {
        tables.truncate(108);
    }
    if let Some((place, byte)) = change.split_once('=') {
        let place = place.parse::<usize>().unwrap_or(0);
        if place < tables.len() {
            tables[place] = byte.parse::<u8>().unwrap_or(0);
        }
    }
    Ok(tables)
}

// The lines of a row that go to this stream: those to standard error begin with the program's name.
pub(crate) fn written(alloc: Global, lines: &str, to_err: bool) -> Result<Vec<u8>, AllocError> {
    let mut text = Vec::new(alloc);
    if lines.is_empty() {
        return Ok(text);
    }
    for line in lines.split('/') {
        if line.starts_with("jps: ") == to_err {
            text.extend_from_slice(line.as_bytes())?;
            text.push(b'\n')?;
        }
    }
    Ok(text)
}

// How a call is tried: as it stands, or with each of its reads and writes failing in turn.
#[derive(Clone, Copy, PartialEq, Eq)]
pub(crate) enum Trial {
    Whole,
    Failing,
}

// One call of the row has its status, this output and this line; `%` stands for the third file as output.
fn check_call(
    alloc: Global,
    rt: &impl Abort,
    row: Row<'_>,
    by: (&str, &str),
    printed: (&[u8], &[u8]),
    trial: Trial,
) -> Result<(), Fail> {
    let map = map_of(alloc, row.map)?;
    let second = text_of(alloc, row.second)?;
    let third = third_of(alloc, row.third, by.1)?;
    let made = Call {
        words: by.0,
        map: map.as_slice(),
        second: second.as_slice(),
        third: third.as_slice(),
        input: second.as_slice(),
        failing_read: 0,
        failing_write: 0,
    };
    let output = if row.lines == "%" {
        third.as_slice()
    } else {
        printed.0
    };
    match trial {
        Trial::Whole => check(alloc, rt, made, row.status, output, printed.1),
        Trial::Failing => check_failing(alloc, rt, made, output),
    }
}

// How many reads the file of this name takes, in pieces of 16, where the words name it.
fn reads_of(words: &str, name: &str, text: &[u8]) -> u64 {
    for word in words.split_whitespace() {
        if word == name || word.strip_prefix("tables=") == Some(name) {
            let rest = if text.len() % 16 == 0 { 1 } else { 2 };
            return text.len() as u64 / 16 + rest;
        }
    }
    0
}

// Each read of the call fails in turn, and of its writes, each of a byte, some forty, the first and the
// last among them.
fn check_failing(
    alloc: Global,
    rt: &impl Abort,
    made: Call<'_>,
    output: &[u8],
) -> Result<(), Fail> {
    let reads = reads_of(made.words, "m", made.map)
        .saturating_add(reads_of(made.words, "s", made.second))
        .saturating_add(reads_of(made.words, "t", made.third));
    check_reads(alloc, rt, made, reads)?;
    let step = output.len() / 40 + 1;
    for write in 0..output.len() {
        if write % step == 0 || write == output.len() - 1 {
            let failing = Call {
                failing_write: write as u64 + 1,
                ..made
            };
            check(alloc, rt, failing, 5, &output[..write], b"jps: write\n")?;
        }
    }
    Ok(())
}

// The calls of a row, by each engine and under each rule, have this output and this line.
pub(crate) fn check_calls(
    alloc: Global,
    rt: &impl Abort,
    row: Row<'_>,
    printed: (&[u8], &[u8]),
    trial: Trial,
) -> Result<(), Fail> {
    let calls = calls_of(alloc, row)?;
    for call in calls.as_slice() {
        for engine in engines_of(call.as_str()) {
            for rule in rules_of(call.as_str()) {
                let words = spelled(alloc, call.as_str(), engine, rule)?;
                check_call(alloc, rt, row, (words.as_str(), rule), printed, trial)?;
            }
        }
    }
    Ok(())
}

// The rows of a table, each by all its calls; where calls fail, those that show their streams.
pub(crate) fn check_rows(
    alloc: Global,
    rt: &impl Abort,
    table: &str,
    trial: Trial,
) -> Result<(), Fail> {
    for line in table.lines() {
        let Some(row) = row_of(line) else {
            continue;
        };
        if trial == Trial::Whole || is_shown(row, "streams") {
            let output = written(alloc, row.lines, false)?;
            let line = written(alloc, row.lines, true)?;
            let printed = (output.as_slice(), line.as_slice());
            check_calls(alloc, rt, row, printed, trial)?;
        }
    }
    Ok(())
}

// The rows of a table, each by all its calls.
pub(crate) fn check_table(alloc: Global, rt: &impl Abort, table: &str) -> Result<(), Fail> {
    check_rows(alloc, rt, table, Trial::Whole)
}
