//! The command `serve`: rows, each failing read in turn, inputs in pieces, and the order of reads and writes.

use crate::calls::ENGINES;
use crate::live::{check_order, check_pieces};
use crate::table::{check_table, spelled};
use std::test::Fail;

// Lines as those of scripts have their rows there. A goal of `near` may be blocked, or in the other layer; on
// the map with a pillar the cell above it is the nearest one,
// since of those beside it it has the least number:
//
// ```text
// . . . . .
// s . @ . .
// . . . . .
// ```
pub(crate) const SERVED: &str = "
nearest, field, costs, refused, ok, same, none, streams | serve m engine=each rule=any | ..@. \
    | near 0 0 3 0/field 1 0/costs 0 0/query 0 0 1/~129/~128/query 0 0 3 0/free 2 0/free 2 0/near 0 0 3 0 \
    => 0 walk 1 0 0,0 1,0/field 4 1/2*--/costs 4 1/0,0 1,0 - -/refused T1/refused T2/none/ok/same/walk 3 0 0,0 3,0
nearest, blocked, outside, point | serve m engine=each rule=any | ..@. \
    | near 2 0 3 0/near 0 0 4 0/near 4 0 0 0/near 3 0 0 0/near 0 0 2 0/near 0 0 0 0 \
    => 0 blocked/outside/outside/walk 0 0 3,0/walk 1 0 0,0 1,0/walk 0 0 0,0
nearest | serve m engine=each rule=none | ...../..@../..... | near 0 1 2 1/near 2 0 2 1 \
    => 0 walk 1 1 0,1 1,0 2,0/walk 0 0 2,0
nearest, water | serve m engine=each rule=any | ..WW/..WW | near 0 0 3 1/near 3 1 0 1 \
    => 0 walk 0 1 0,0 1,1/walk 1 0 3,1 2,1
nearest, cells | serve m show=cells engine=each rule=any | ... | near 0 0 2 0 => 0 walk 2 0 0,0 1,0 2,0
field, blocked, outside | serve m engine=each rule=any | ..@. \
    | field 3 0/free 2 0/field 3 0/field 4 0/block 0 0/field 0 0/field 2 0 \
    => 0 field 4 1/---*/ok/field 4 1/222*/outside/ok/blocked/field 4 1/-2*6
field, water | serve m engine=each rule=any | .WW/.WW | field 1 0 => 0 field 3 2/-*6/-07
field | serve m engine=each rule=any | .../.../... | field 1 1/field 0 0 \
    => 0 field 3 3/345/2*6/107/field 3 3/*66/076/007
costs, blocked, outside | serve m engine=each rule=strict | ..@/... | costs 0 0/costs 2 0/costs 0 2 \
    => 0 costs 3 2/0,0 1,0 -/1,0 0,1 1,1/blocked/outside
costs, water | serve m engine=each rule=any | .WW | costs 1 0 => 0 costs 3 1/- 0,0 1,0
refused | serve m engine=each rule=any | ... | query 0 0 -1 2/query/near 0 0 1/field 1/costs 1 2 3/Query 0 0 1 0 \
    => 0 refused T1/refused T1/refused T1/refused T1/refused T1/refused T1
trace | serve m show=trace engine=each rule=any | ... => 2 jps: word 3
states | serve m engine=plain states=cell rule=any | ... => 2 jps: word 4
states | serve m states=arrival engine=plain rule=any | ... => 2 jps: word 4
tables | serve m tables=t engine=other rule=any | ... | | % => 2 jps: word 4
tables | serve m tables=t rule=any | ... | | % => 2 jps: word 5
";

#[test]
fn lines_are_served_by_each_engine_under_each_rule(rt: HostRuntime) -> Result<(), Fail> {
    check_table(rt.alloc(), &rt, SERVED)
}

// Lines of 14, 2 and 10 bytes.
const LINES: &[u8] = b"query 0 1 2 1\nx\nblock 1 1\n";

const ANSWERS: &[u8] = b"walk 2 0 0,1 2,1\nrefused T1\nok\n";

// The answers to the lines whose line feed is among the first bytes, so many.
fn answers_of(bytes: u64) -> &'static [u8] {
    match bytes {
        0..14 => b"",
        14..16 => b"walk 2 0 0,1 2,1\n",
        16..26 => b"walk 2 0 0,1 2,1\nrefused T1\n",
        _ => ANSWERS,
    }
}

// A read takes one byte; the 27th finds the end. Each engine answers the same.
#[test]
fn each_failing_read_leaves_the_whole_lines(rt: HostRuntime) -> Result<(), Fail> {
    let alloc = rt.alloc();
    for engine in ENGINES {
        let words = spelled(alloc, "serve m engine=", engine, "")?;
        let made = (words.as_str(), LINES);
        for taken in 0..27 {
            let answers = answers_of(taken);
            check_pieces(alloc, &rt, made, 1, taken + 1, 4, answers, b"jps: read\n")?;
        }
    }
    Ok(())
}

// The last line needs no line feed, and one that is refused ends nothing.
#[test]
fn all_lines_are_answered_in_whatever_pieces(rt: HostRuntime) -> Result<(), Fail> {
    let alloc = rt.alloc();
    let open: &[u8] = b"query 0 1 2 1\nx\nblock 1 1";
    for engine in ENGINES {
        let words = spelled(alloc, "serve m engine=", engine, "")?;
        let words = words.as_str();
        for piece in [1, 7, 4096] {
            check_pieces(alloc, &rt, (words, LINES), piece, 0, 0, ANSWERS, b"")?;
            check_pieces(alloc, &rt, (words, open), piece, 0, 0, ANSWERS, b"")?;
        }
    }
    Ok(())
}

// Lines of 14, 10 and 2 bytes come in by sevens: the second read completes the first, the fourth both others,
// whose answers are one write; a fifth finds the end.
#[test]
fn a_line_is_answered_before_the_next_read(rt: HostRuntime) -> Result<(), Fail> {
    let alloc = rt.alloc();
    let lines = b"query 0 1 2 1\nblock 1 1\nx\n";
    for engine in ENGINES {
        let words = spelled(alloc, "serve m engine=", engine, "")?;
        check_order(alloc, &rt, words.as_str(), lines, 0, b"", &[2, 4], 5)?;
    }
    Ok(())
}
