//! Sessions that begin with the tables of a file, by whole calls, counted on squared paper.

use crate::calls::{Call, check, check_reads};
use crate::commands::{LINE, THREE_CELLS};
use std::alloc::{AllocError, Global};
use std::test::Fail;

const QUERY: &str = "query m 0 0 2 0 engine=plus tables=t";

const SOLVE: &str = "solve m s tables=t engine=plus";

const SCEN: &str = "scen m s engine=plus tables=t show=taken";

const LIVE: &str = "live m engine=plus tables=t";

const WALK: &[u8] = b"walk 2 0 0,0 2,0\n";

const EDITS: &[u8] = b"query 0 0 2 0\nblock 1 0\nquery 0 0 2 0\nfree 1 0\nquery 0 0 2 0\n";

const ANSWERS: &[u8] = b"walk 2 0 0,0 2,0\nok\nnone\nok\nwalk 2 0 0,0 2,0\n";

const LENGTHS: &[u8] = b"version 1\n0 m 3 1 0 0 2 0 2\n";

const ROWS: &[u8] = b"row 1 agree 2 0 taken 2\nsum 1 agree 1 near 0 off 0 other 0 taken 2\n";

// A call with these tables of a map of three cells, and with edits to come in.
fn with_tables<'a>(words: &'a str, tables: &'a [u8], second: &'a [u8]) -> Call<'a> {
    Call {
        words,
        map: LINE,
        second,
        third: tables,
        input: EDITS,
        failing_read: 0,
        failing_write: 0,
    }
}

// The map takes four reads, the table file eight, the script five and the scenario three.
#[test]
fn a_session_begins_with_the_tables_of_a_file(rt: HostRuntime) -> Result<(), Fail> {
    let alloc = rt.alloc();
    let calls: [(&str, &[u8], &[u8], u64); 4] = [
        (QUERY, b"", WALK, 12),
        (SOLVE, EDITS, ANSWERS, 17),
        (SCEN, LENGTHS, ROWS, 15),
        (LIVE, b"", ANSWERS, 12),
    ];
    for (words, second, output, reads) in calls {
        let made = with_tables(words, THREE_CELLS, second);
        check(alloc, &rt, made, 0, output, b"")?;
        check_reads(alloc, &rt, made, reads)?;
    }
    Ok(())
}

// The tables with another byte at this place, from 0.
fn with_byte(alloc: Global, place: usize, byte: u8) -> Result<Vec<u8>, AllocError> {
    let mut tables = Vec::from_slice(alloc, THREE_CELLS)?;
    if place < tables.len() {
        tables[place] = byte;
    }
    Ok(tables)
}

#[test]
fn a_table_file_of_another_map_is_refused(rt: HostRuntime) -> Result<(), Fail> {
    let alloc = rt.alloc();
    let cases: [(usize, u8, &[u8]); 4] = [
        (7, b'2', b"jps: tables F1\n"),
        (9, 4, b"jps: tables F1\n"),
        (17, 0xfd, b"jps: tables F3 land 0,0 E\n"),
        (108, 1, b"jps: tables F3 water 2,0 NW\n"),
    ];
    for (place, byte, line) in cases {
        for (words, second) in [(QUERY, b"".as_slice()), (SOLVE, EDITS), (SCEN, LENGTHS)] {
            let tables = with_byte(alloc, place, byte)?;
            let made = with_tables(words, tables.as_slice(), second);
            check(alloc, &rt, made, 3, b"", line)?;
        }
    }
    let short = with_tables(QUERY, &THREE_CELLS[..108], b"");
    check(alloc, &rt, short, 3, b"", b"jps: tables F2\n")?;
    let ruled = with_tables("live m engine=plus tables=t rule=one", THREE_CELLS, b"");
    check(alloc, &rt, ruled, 3, b"", b"jps: tables F1\n")
}

// A refused map before refused tables, refused tables before a script that is refused or absent, and a
// refused script behind right tables.
#[test]
fn a_table_file_is_judged_between_the_map_and_the_script(rt: HostRuntime) -> Result<(), Fail> {
    let alloc = rt.alloc();
    let absent = "solve m absent tables=t engine=plus";
    let no_tables = "solve m s tables=absent engine=plus";
    let calls: [(&str, &[u8], &[u8], u8, &[u8]); 7] = [
        (SOLVE, b"", b"", 3, b"jps: map M1 line 1\n"),
        (no_tables, b"", b"", 3, b"jps: map M1 line 1\n"),
        (SOLVE, LINE, b"", 3, b"jps: tables F1\n"),
        (absent, LINE, b"", 3, b"jps: tables F1\n"),
        (no_tables, LINE, b"", 4, b"jps: read\n"),
        (absent, LINE, THREE_CELLS, 4, b"jps: read\n"),
        (SOLVE, LINE, THREE_CELLS, 3, b"jps: script T1 line 1\n"),
    ];
    for (words, map, tables, status, line) in calls {
        let made = Call {
            map,
            ..with_tables(words, tables, b"bolck 1 1\n")
        };
        check(alloc, &rt, made, status, b"", line)?;
    }
    Ok(())
}
