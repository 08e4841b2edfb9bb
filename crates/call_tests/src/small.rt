//! The engines of small maps by whole calls. Lines are counted on squared paper, or those of an independent
//! program.

use crate::calls::{
    OPEN, PILLAR, SHORE, TOUCHING, TWO_ROWS, check, check_done, check_reads, check_writes, on_map,
    on_two,
};
use std::alloc::{AllocError, Global};
use std::test::Fail;

const ONE: &[u8] = b"type octile\nheight 1\nwidth 1\nmap\n.\n";

// The plain engine also takes (1,0) and (2,0) in the bay.
#[test]
fn boxes_answer_a_query(rt: HostRuntime) -> Result<(), Fail> {
    let alloc = rt.alloc();
    let bay = b"type octile\nheight 3\nwidth 4\nmap\n...@\n.@@.\n....\n";
    let table: [(&str, &[u8], &[u8]); 9] = [
        (
            "query m 0 0 3 1 engine=boxes show=trace",
            bay,
            b"walk 6 0 0,0 0,2 3,2 3,1 taken 0,0:- 0,1:- 0,2:- 1,2:- 2,2:- 3,2:- 3,1:-\n",
        ),
        (
            "query m 0 0 2 2 engine=boxes show=cells",
            OPEN,
            b"walk 0 2 0,0 1,1 2,2\n",
        ),
        (
            "query m 0 0 2 2 engine=boxes rule=one",
            PILLAR,
            b"walk 2 1 0,0 1,0 2,1 2,2\n",
        ),
        (
            "query m 0 0 1 1 engine=boxes show=trace",
            TOUCHING,
            b"none taken 0,0:-\n",
        ),
        (
            "query m 1 0 0 0 engine=boxes show=trace",
            TOUCHING,
            b"blocked\n",
        ),
        (
            "query m 0 0 0 0 engine=boxes show=trace",
            ONE,
            b"walk 0 0 0,0 taken 0,0:-\n",
        ),
        ("query m 0 1 0 0 engine=boxes show=trace", ONE, b"outside\n"),
        (
            "query m 1 0 2 1 engine=boxes show=trace",
            SHORE,
            b"walk 0 1 1,0 2,1 taken 1,0:- 2,1:-\n",
        ),
        (
            "query m 0 0 1 0 engine=boxes show=trace",
            SHORE,
            b"none taken\n",
        ),
    ];
    check_done(alloc, &rt, &table)
}

#[test]
fn first_moves_answer_a_query(rt: HostRuntime) -> Result<(), Fail> {
    let alloc = rt.alloc();
    let table: [(&str, &[u8], &[u8]); 8] = [
        (
            "query m 0 0 2 1 engine=moves show=points",
            OPEN,
            b"walk 1 1 0,0 1,0 2,1\n",
        ),
        (
            "query m 0 0 2 2 engine=moves show=cells",
            OPEN,
            b"walk 0 2 0,0 1,1 2,2\n",
        ),
        ("query m 0 0 1 1 engine=moves", TOUCHING, b"none\n"),
        ("query m 0 0 1 0 engine=moves", TOUCHING, b"blocked\n"),
        ("query m 0 0 0 0 engine=moves", ONE, b"walk 0 0 0,0\n"),
        ("query m 0 0 1 0 engine=moves", ONE, b"outside\n"),
        ("query m 1 0 2 1 engine=moves", SHORE, b"walk 0 1 1,0 2,1\n"),
        ("query m 0 0 1 0 engine=moves", SHORE, b"none\n"),
    ];
    check_done(alloc, &rt, &table)
}

// First moves take no states that a trace could list; and edits are for the other engines.
#[test]
fn words_for_small_maps_are_named(rt: HostRuntime) -> Result<(), Fail> {
    let alloc = rt.alloc();
    let table: [(&str, &[u8]); 6] = [
        ("query m 0 0 1 1 engine=moves show=trace", b"jps: word 8\n"),
        ("query m 0 0 1 1 show=trace engine=moves", b"jps: word 8\n"),
        ("scen m s engine=moves show=taken", b"jps: word 5\n"),
        ("solve m s engine=boxes", b"jps: word 4\n"),
        ("live m engine=moves", b"jps: word 3\n"),
        ("drill 1 engine=boxes", b"jps: word 3\n"),
    ];
    for (words, line) in table {
        check(alloc, &rt, on_map(words, OPEN), 2, b"", line)?;
    }
    Ok(())
}

// From (0,0) to (3,1) there are two straight moves and a diagonal one, 3.41421356..
const LENGTHS: &[u8] = b"version 1
0 m 4 2 0 0 3 1 3.41421
0 m 4 2 0 0 3 1 3.405
0 m 4 2 0 0 3 1 3.40
0 m 4 3 0 0 3 1 3.4
0 m 4 2 4 0 3 1 3.4
0 m 4 2 3 1 3 1 0
";

const ROWS: &[u8] = b"row 1 agree 2 1
row 2 near 2 1
row 3 off 2 1
row 4 scale
row 5 outside
row 6 agree 0 0
sum 6 agree 2 near 1 off 1 other 2
";

const COUNTED: &[u8] = b"row 1 agree 2 1 taken 6
row 2 near 2 1 taken 6
row 3 off 2 1 taken 6
row 4 scale
row 5 outside
row 6 agree 0 0 taken 1
sum 6 agree 2 near 1 off 1 other 2 taken 19
";

// A walk in the water, one on land, ends apart, and one outside.
const SHORES: &[u8] = b"version 1
0 m 3 2 1 0 2 1 1.41421356
0 m 3 2 0 0 0 1 1
0 m 3 2 0 0 1 0 1
0 m 3 2 0 0 3 1 1
";

const SHORE_ROWS: &[u8] = b"row 1 agree 0 1
row 2 agree 1 0
row 3 none
row 4 outside
sum 4 agree 2 near 0 off 0 other 2
";

const SHORE_COUNTS: &[u8] = b"row 1 agree 0 1 taken 2
row 2 agree 1 0 taken 2
row 3 none taken 0
row 4 outside
sum 4 agree 2 near 0 off 0 other 2 taken 4
";

#[test]
fn scenarios_are_judged_on_small_maps(rt: HostRuntime) -> Result<(), Fail> {
    let alloc = rt.alloc();
    let none: &[u8] = b"version 1\n0 m 2 2 0 0 1 1 1\n0 m 2 2 1 0 1 1 1\n";
    let none_rows: &[u8] =
        b"row 1 none taken 1\nrow 2 blocked\nsum 2 agree 0 near 0 off 0 other 2 taken 1\n";
    let counted = "scen m s engine=boxes show=taken";
    let table: [(&str, &[u8], &[u8], &[u8]); 7] = [
        ("scen m s engine=boxes", TWO_ROWS, LENGTHS, ROWS),
        ("scen m s engine=moves", TWO_ROWS, LENGTHS, ROWS),
        (counted, TWO_ROWS, LENGTHS, COUNTED),
        ("scen m s engine=boxes", SHORE, SHORES, SHORE_ROWS),
        ("scen m s engine=moves", SHORE, SHORES, SHORE_ROWS),
        (counted, SHORE, SHORES, SHORE_COUNTS),
        (counted, TOUCHING, none, none_rows),
    ];
    for (words, map, second, rows) in table {
        check(alloc, &rt, on_two(words, map, second), 1, rows, b"")?;
    }
    Ok(())
}

// An open map of 128 columns and 129 rows, which has more than 2^14 cells.
pub(crate) fn large(alloc: Global) -> Result<Vec<u8>, AllocError> {
    let mut text = Vec::from_slice(alloc, b"type octile\nheight 129\nwidth 128\nmap\n")?;
    for _row in 0..129 {
        for _part in 0..8 {
            text.extend_from_slice(b"................")?;
        }
        text.push(b'\n')?;
    }
    Ok(text)
}

// A large map is refused before anything of a second file, and a faulty one as such.
#[test]
fn large_maps_are_refused(rt: HostRuntime) -> Result<(), Fail> {
    let alloc = rt.alloc();
    let map = large(alloc)?;
    for words in [
        "query m 0 0 1 1 engine=boxes",
        "query m 0 0 1 1 engine=moves",
        "scen m s engine=boxes",
        "scen m absent engine=moves",
        "boxes m 0 0",
        "moves m 0 0",
    ] {
        let made = on_map(words, map.as_slice());
        check(alloc, &rt, made, 3, b"", b"jps: map large\n")?;
        check(
            alloc,
            &rt,
            on_map(words, b""),
            3,
            b"",
            b"jps: map M1 line 1\n",
        )?;
    }
    let plain = on_map("query m 0 0 1 1", map.as_slice());
    check(alloc, &rt, plain, 0, b"walk 0 1 0,0 1,1\n", b"")
}

// A map of 45 bytes is read in four reads of at most 16, and the scenario's behind it.
#[test]
fn each_read_and_write_on_small_maps_fails_in_turn(rt: HostRuntime) -> Result<(), Fail> {
    let alloc = rt.alloc();
    let query = on_map("query m 0 0 2 1 engine=moves", OPEN);
    check_reads(alloc, &rt, query, 4)?;
    check_writes(alloc, &rt, query, b"walk 1 1 0,0 1,0 2,1\n")?;
    let scen = on_two("scen m s engine=boxes", SHORE, SHORES);
    check_reads(alloc, &rt, scen, 6)?;
    check_writes(alloc, &rt, scen, SHORE_ROWS)
}
