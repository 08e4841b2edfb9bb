//! What the tables have to have: a row, or a reason why there is none, for each command by each engine and
//! under each rule, and for each kind of outcome that it has.

ghost use Rattle.std.specs.Prelude.{◌<◌};

use crate::ample::{DRILLS, LONG, LONGEST};
use crate::calls::{RULES, check, on_map, strings};
use crate::cells::{CELLS, PICTURES, UNDRAWN, check_pictures};
use crate::judged::{CHECKED, CLAIMED, PROVED, SCENARIOS};
use crate::queries::{QUERIES, SCRIPTS};
use crate::refused::REFUSED;
use crate::scenarios::MADE;
use crate::serve::SERVED;
use crate::table::{
    PICKS, Trial, calls_of, check_rows, engines_of, has_name, is_shown, row_of, rules_of,
};
use grid_moves::Corner;
use std::alloc::{AllocError, Global};
use std::process::Abort;
use std::test::Fail;
use word_list::{Pick, SessionEngine, SmallEngine, States, command_name, read_words};

const TABLES: [&str; 16] = [
    QUERIES, SCRIPTS, SERVED, SCENARIOS, CLAIMED, PROVED, CHECKED, CELLS, PICTURES, UNDRAWN, MADE,
    REFUSED, DRILLS, LONG, LONGEST, REASONS,
];

// Why a kind of outcome has no row of its own.
const REASONS: &str = "
walks long | judge rule=slipping => - it is met before the rule is looked at, and each call reads 2^30 bytes
cert long | check rule=slipping => - the same
tables long | query engine=loading rule=slipping => - the same
tables long | query engine=plus-by-cell rule=none => - the same
tables long | solve engine=loading rule=slipping => - the same
tables long | solve engine=plus-by-cell rule=none => - the same
tables long | live engine=loading rule=slipping => - the same
tables long | live engine=plus-by-cell rule=none => - the same
tables long | serve engine=loading rule=any => - the same
tables long | scen engine=loading rule=slipping => - the same
tables long | scen engine=plus-by-cell rule=none => - the same
script long | live engine=any rule=any => - its input has no end: a test of its own, in ample.rt
streams | drill engine=each rule=any => - it reads no file; a failing write is a test of its own, in ample.rt
help | --help => - its text is compared at its ends alone, in ample.rt
";

// A line for each command: its least words, and the kinds of outcome that it has by each engine and under
// each rule of the sets before a colon. The first sets are all that it takes; with none it takes neither.
const COMMANDS: &str = "
query m 0 0 0 0 | engine=any rule=any: walk, water, point, none, apart, outside, blocked, cells, trace, \
    tables, map faults, absent, streams | engine=small rule=any: large | engine=loading rule=any: table faults, water tables \
    | engine=jumpless rule=any: states | engine=jumping rule=any: to W, to SW, to NW
solve m s | engine=each rule=any: walk, water, point, none, apart, outside, blocked, ok, same, empty, cells, \
    trace, tables, map faults, script faults, absent, streams \
    | engine=loading rule=any: table faults, water tables | engine=plain rule=any: states
live m | engine=each rule=any: walk, water, point, none, apart, outside, blocked, ok, same, empty, cells, \
    trace, tables, map faults, script faults, absent, streams \
    | engine=loading rule=any: table faults, water tables | engine=plain rule=any: states
serve m | engine=each rule=any: walk, water, point, none, apart, outside, blocked, ok, same, empty, cells, \
    trace, nearest, field, costs, refused, tables, map faults, absent, streams \
    | engine=loading rule=any: table faults, water tables | engine=plain rule=any: states
scen m s | engine=any rule=any: agree, near, off, scale, outside, blocked, none, apart, point, water, empty, \
    taken, done, tables, map faults, scen faults, absent, streams \
    | engine=small rule=any: large | engine=loading rule=any: table faults, water tables \
    | engine=jumpless rule=any: states
judge m s t | rule=any: accepted, refused, scale, outside, blocked, none, apart, point, water, empty, done, \
    map faults, scen faults, walks faults, absent, streams
lengths m s | rule=any: lengths, scale, outside, blocked, none, apart, point, water, empty, done, \
    map faults, scen faults, absent, streams
problems m 1 1 | rule=any: problems, few, water, apart, map faults, absent, streams
prove m 0 0 0 0 | rule=any: least, water, point, none, apart, outside, blocked, map faults, absent, streams
check m s | rule=any: least, water, point, none, apart, size, ends, walk, start, goal, move, open, \
    map faults, cert faults, absent, streams
make 1 1 1 0 | make, streams
drill 1 | engine=each rule=any: drill, streams | engine=plain rule=any: states
draw m 0 0 0 0 | engine=each rule=any: walk, trace, water, point, none, apart, outside, blocked, map faults, \
    absent, streams | engine=plain rule=any: states
costs m 0 0 | rule=any: costs, water, outside, blocked, map faults, absent, streams
tables m | rule=any: tables, water tables, map faults, absent, streams
boxes m 0 0 | rule=any: boxes, water, outside, blocked, large, map faults, absent, streams
moves m 0 0 | rule=any: moves, water, outside, blocked, large, map faults, absent, streams
--help | help
--version | version, streams
";

// The kinds of outcome that this name stands for: each fault of a file, or the one of this name.
fn kinds_of(name: &str) -> &str {
    match name {
        "map faults" => "M1, M2, M3, M4, M5, M6, map long",
        "script faults" => "T1, T2, script long",
        "scen faults" => "C1, C2, C3, C4, scen long",
        "walks faults" => "K1, K2, walks long",
        "cert faults" => "P1, P2, cert long",
        "table faults" => "F1, F2, F3, tables long",
        _ => name,
    }
}

// Whether the words name this command, and this engine and this rule are in their sets.
fn is_call_of(words: &str, command: &str, engine: &str, rule: &str) -> bool {
    words.split_whitespace().next() == Some(command)
        && engines_of(words).contains(&engine)
        && rules_of(words).contains(&rule)
}

// Whether a row shows this of the command by this engine and under this rule.
fn has_row(
    alloc: Global,
    what: &str,
    command: &str,
    engine: &str,
    rule: &str,
) -> Result<bool, AllocError> {
    for table in TABLES {
        for line in table.lines() {
            let Some(row) = row_of(line) else {
                continue;
            };
            if !is_shown(row, what) {
                continue;
            }
            let calls = calls_of(alloc, row)?;
            for call in calls.as_slice() {
                if is_call_of(call.as_str(), command, engine, rule) {
                    return Ok(true);
                }
            }
        }
    }
    Ok(false)
}

// The command shows this by each engine and under each rule of the sets.
fn check_need(
    alloc: Global,
    rt: &impl Abort,
    command: &str,
    sets: &str,
    what: &str,
) -> Result<(), Fail> {
    assert_eq!(rt; what.is_empty(), false, "{command} {sets}");
    for engine in engines_of(sets) {
        for rule in rules_of(sets) {
            let is_there = has_row(alloc, what, command, engine, rule)?;
            assert_eq!(rt; is_there, true, "{what} | {command} {engine} {rule}");
        }
    }
    Ok(())
}

// The command shows each of the kinds behind its least words.
fn check_needs(alloc: Global, rt: &impl Abort, command: &str, needs: &str) -> Result<(), Fail> {
    for need in needs.split('|') {
        let (sets, names) = need.split_once(':').unwrap_or(("", need));
        for name in names.split(',') {
            for what in kinds_of(name.trim()).split(',') {
                check_need(alloc, rt, command, sets, what.trim())?;
            }
        }
    }
    Ok(())
}

// The least words of each command that has this to show, with the engines and the rules by which it has to.
pub(crate) fn calls_showing(alloc: Global, what: &str) -> Result<Vec<String>, AllocError> {
    let mut calls = Vec::new(alloc);
    for line in COMMANDS.lines() {
        let (least, needs) = line.split_once('|').unwrap_or((line, ""));
        for need in needs.split('|') {
            let (sets, names) = need.split_once(':').unwrap_or(("", need));
            if has_name(names, what) {
                calls.push(format!(in alloc; "{least} {sets}")?)?;
            }
        }
    }
    Ok(calls)
}

#[test]
fn each_kind_of_outcome_has_a_row_or_a_reason(rt: HostRuntime) -> Result<(), Fail> {
    for line in COMMANDS.lines() {
        let (least, needs) = line.split_once('|').unwrap_or((line, ""));
        if let Some(command) = least.split_whitespace().next() {
            check_needs(rt.alloc(), &rt, command, needs)?;
        }
    }
    Ok(())
}

// The kinds whose name stands in a row's lines, before their sum. `lengths` prints nothing of what it leaves
// out, and a certificate that claims that there is no walk may be refused.
const PRINTED: &str =
    "walk, none, outside, blocked, ok, same, agree, near, off, scale, accepted, refused, least, \
    size, ends, start, goal, move, open, large, M1, M2, M3, M4, M5, M6, C1, C2, C3, C4, T1, T2, K1, K2, P1, P2, F1, \
    F2, F3";

fn has_word(lines: &str, name: &str) -> bool {
    for line in lines.split('/') {
        for word in line.split(' ') {
            if word == name {
                return true;
            }
        }
    }
    false
}

#[test]
fn each_row_prints_the_kind_that_it_shows(rt: HostRuntime) {
    for table in TABLES {
        for line in table.lines() {
            let Some(row) = row_of(line) else {
                continue;
            };
            let (lines, _) = row.lines.split_once("/sum ").unwrap_or((row.lines, ""));
            let command = row.words.split_whitespace().next().unwrap_or("");
            for name in row.shows.split(',') {
                let name = name.trim();
                let is_left = command == "lengths" || command == "check" && name == "none";
                if row.status <= 6 && !is_left && has_name(PRINTED, name) {
                    assert_eq!(rt; has_word(lines, name), true, "{line}");
                }
            }
        }
    }
}

// How many lines the command of this name has.
fn count_lines(name: &str) -> u64 {
    let mut count = 0u64;
    for line in COMMANDS.lines() {
        if line.split_whitespace().next() == Some(name) {
            count = count.saturating_add(1);
        }
    }
    count
}

#[test]
fn each_command_has_one_line(rt: HostRuntime) {
    for place in 0..usize::MAX {
        let Some(name) = command_name(place) else {
            break;
        };
        assert_eq!(rt; count_lines(name), 1, "{name}");
    }
}

// A new engine, another number of states of a cell and a new rule have no place until they are named here,
// and are then missed until their words stand in `PICKS` and `RULES`.
fn place_of_pick(pick: Pick, states: States) -> usize
    ensures { result < 9 }
{
    match (pick, states) {
        (Pick::Session(SessionEngine::Plain), _) => 0,
        (Pick::Session(SessionEngine::Jps), States::Arrival) => 1,
        (Pick::Session(SessionEngine::Block), States::Arrival) => 2,
        (Pick::Session(SessionEngine::Plus), States::Arrival) => 3,
        (Pick::Session(SessionEngine::Jps), States::Cell) => 4,
        (Pick::Session(SessionEngine::Block), States::Cell) => 5,
        (Pick::Session(SessionEngine::Plus), States::Cell) => 6,
        (Pick::Small(SmallEngine::Boxes), _) => 7,
        (Pick::Small(SmallEngine::Moves), _) => 8,
    }
}

fn place_of_rule(rule: Corner) -> usize
    ensures { result < 3 }
{
    match rule {
        Corner::Never => 0,
        Corner::One => 1,
        Corner::Both => 2,
    }
}

#[test]
fn each_engine_and_each_rule_has_its_word(rt: HostRuntime) -> Result<(), Fail> {
    let alloc = rt.alloc();
    let mut picked = [false; 9];
    let mut ruled = [false; 3];
    for engine in PICKS {
        for rule in RULES {
            let words = format!(in alloc; "query m 0 0 0 0 {engine} {rule}")?;
            let words = strings(alloc, words.as_str())?;
            if let Ok((_, settings)) = read_words(words.as_slice()) {
                picked[place_of_pick(settings.pick, settings.states)] = true;
                ruled[place_of_rule(settings.rule)] = true;
            }
        }
    }
    assert_eq!(rt; picked, [true; 9]);
    assert_eq!(rt; ruled, [true; 3]);
    Ok(())
}

fn is_call(alloc: Global, words: &str) -> Result<bool, AllocError> {
    let words = strings(alloc, words)?;
    Ok(matches!(read_words(words.as_slice()), Ok(_)))
}

// The words of a command, with an engine and a rule, are accepted exactly where the command takes them; else
// the first of them that it does not take is named. Where both are its own some row shows them.
fn check_cell(
    alloc: Global,
    rt: &impl Abort,
    least: &str,
    sets: &str,
    engine: &str,
    rule: &str,
) -> Result<(), Fail> {
    let words = format!(in alloc; "{least} {engine} {rule}")?;
    let has_engine = engines_of(sets).contains(&engine);
    let has_rule = rules_of(sets).contains(&rule);
    let takes_engine = engine.is_empty() || has_engine;
    let takes = takes_engine && (rule.is_empty() || has_rule);
    let is_accepted = is_call(alloc, words.as_str())?;
    assert_eq!(rt; is_accepted, takes, "{words}");
    if has_engine && has_rule {
        let command = least.split_whitespace().next().unwrap_or("");
        let is_there = has_row(alloc, "", command, engine, rule)?;
        assert_eq!(rt; is_there, true, "{words}");
    }
    if !takes {
        let before = if takes_engine { words.as_str() } else { least };
        let bad = before.split_whitespace().count() as u64 + if takes_engine { 0 } else { 1 };
        let line = format!(in alloc; "jps: word {bad}\n")?;
        check(
            alloc,
            rt,
            on_map(words.as_str(), b""),
            2,
            b"",
            line.as_bytes(),
        )?;
    }
    Ok(())
}

// The first sets of a line are the engines and the rules that its command takes.
#[test]
fn each_command_takes_its_engines_and_its_rules(rt: HostRuntime) -> Result<(), Fail> {
    for line in COMMANDS.lines() {
        let (least, needs) = line.split_once('|').unwrap_or((line, ""));
        let (sets, _) = needs.split_once(':').unwrap_or(("", needs));
        if least.is_empty() {
            continue;
        }
        for engine in [""].into_iter().chain(PICKS) {
            for rule in [""].into_iter().chain(RULES) {
                check_cell(rt.alloc(), &rt, least.trim(), sets, engine, rule)?;
            }
        }
    }
    Ok(())
}

// Each read and each write fails in turn, of a row of each command by each engine and under each rule.
#[test]
fn each_read_and_write_of_a_script_fails_in_turn(rt: HostRuntime) -> Result<(), Fail> {
    check_rows(rt.alloc(), &rt, QUERIES, Trial::Failing)?;
    check_rows(rt.alloc(), &rt, SCRIPTS, Trial::Failing)?;
    check_rows(rt.alloc(), &rt, SERVED, Trial::Failing)
}

#[test]
fn each_read_and_write_of_a_file_fails_in_turn(rt: HostRuntime) -> Result<(), Fail> {
    for table in [SCENARIOS, CLAIMED, PROVED, CHECKED, CELLS, MADE] {
        check_rows(rt.alloc(), &rt, table, Trial::Failing)?;
    }
    Ok(())
}

#[test]
fn each_read_and_write_of_a_picture_fails_in_turn(rt: HostRuntime) -> Result<(), Fail> {
    check_rows(rt.alloc(), &rt, UNDRAWN, Trial::Failing)?;
    check_pictures(rt.alloc(), &rt, Trial::Failing)
}
