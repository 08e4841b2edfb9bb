//! Scenarios that are made, by whole calls: least lengths are sums of 1 and √2 = 1.41421356.., whose moves
//! are counted on squared paper; the words of seeds come from a program of its own.

use crate::calls::{
    Call, OPEN, PILLAR, TOUCHING, check, check_done, check_reads, check_writes, on_map, on_two,
};
use crate::table::check_table;
use std::test::Fail;

// On the row `..@.W` and on the bay of water `W.W/WWW`, which is drawn in queries.rt: twice the root of 2 is
// 2.82842712.., below one four. Of two free cells seed 1 draws the later one first.
pub(crate) const MADE: &str = "
lengths, scale, outside, blocked, none, apart, point, water, streams | lengths m s rule=any | ..@.W \
    | version 1/9 m 5 1 0 0 1 0 7/0 m 5 2 0 0 1 0 1/0 m 5 1 5 0 1 0 1/0 m 5 1 2 0 1 0 1/0 m 5 1 0 0 3 0 3\
    /0 m 5 1 0 0 4 0 4/0 m 5 1 4 0 4 0 0 \
    => 1 version 1/0\tm\t5\t1\t0\t0\t1\t0\t1.00000000/0\tm\t5\t1\t4\t0\t4\t0\t0.00000000
lengths, done | lengths m s rule=any | .. | version 1.0/~3/0 m 2 1 1 0 0 0 1.0 \
    => 0 version 1/0\tm\t2\t1\t1\t0\t0\t0\t1.00000000
empty, done | lengths m s rule=any | . | version 1 => 0 version 1
water | lengths m s rule=none | W.W/WWW | version 1/0 m 3 2 0 0 2 0 0 \
    => 0 version 1/1\tm\t3\t2\t0\t0\t2\t0\t4.00000000
water | lengths m s rule=slipping | W.W/WWW | version 1/0 m 3 2 0 0 2 0 0 \
    => 0 version 1/0\tm\t3\t2\t0\t0\t2\t0\t2.82842712
problems, streams | problems m 1 1 rule=any | .. => 0 version 1/0\tm\t2\t1\t1\t0\t0\t0\t1.00000000
problems | problems m 1 1 rule=both | .@/@. => 0 version 1/0\tm\t2\t2\t1\t1\t0\t0\t1.41421356
problems, water | problems m 1 1 rule=any | WW => 0 version 1/0\tm\t2\t1\t1\t0\t0\t0\t1.00000000
problems, water | problems m 1 1 rule=both | W@/@W => 0 version 1/0\tm\t2\t2\t1\t1\t0\t0\t1.41421356
few, water | problems m 1 1 rule=strict | W@/@W => 1 version 1
few, apart | problems m 1 1 rule=any | .W => 1 version 1
few | problems m 1 1 rule=strict | .@/@. => 1 version 1
few | problems m 1 2 rule=any | . => 1 version 1
";

#[test]
fn scenarios_are_made_under_each_rule(rt: HostRuntime) -> Result<(), Fail> {
    check_table(rt.alloc(), &rt, MADE)
}

// Names with a blank and a tab in them, and lengths that are wrong on the map of a pillar.
const LISTED: &[u8] =
    b"version 1\n0 m 3 3 0 0 2 2 1\n7 a b\tc 3 3 0 0 2 1 99\n\n1 m 3 3 2 0 2 0 5.5";

const MEASURED: &[u8] = b"version 1\n1\tm\t3\t3\t0\t0\t2\t2\t4.00000000\n\
    0\ta b\tc\t3\t3\t0\t0\t2\t1\t3.00000000\n0\tm\t3\t3\t2\t0\t2\t0\t0.00000000\n";

const MEASURED_BY_ONE: &[u8] = b"version 1\n0\tm\t3\t3\t0\t0\t2\t2\t3.41421356\n\
    0\ta b\tc\t3\t3\t0\t0\t2\t1\t2.41421356\n0\tm\t3\t3\t2\t0\t2\t0\t0.00000000\n";

const MEASURED_BY_BOTH: &[u8] = b"version 1\n0\tm\t2\t2\t0\t0\t1\t1\t1.41421356\n";

const SQUARE: &[u8] = b"type octile\nheight 4\nwidth 4\nmap\n....\n....\n....\n....\n";

// 3√2 is 4.242640687.., and 2√2 is 2.828427124..
const DIAGONALS: &[u8] = b"version 1\n0\tm\t4\t4\t0\t0\t3\t3\t4.24264\n0\tm\t4\t4\t3\t3\t1\t1\t0\n";

const ROUNDED: &[u8] = b"version 1\n1\tm\t4\t4\t0\t0\t3\t3\t4.24264069\n\
    0\tm\t4\t4\t3\t3\t1\t1\t2.82842712\n";

#[test]
fn scenarios_get_the_least_lengths(rt: HostRuntime) -> Result<(), Fail> {
    let alloc = rt.alloc();
    let corner = b"version 1\n0 m 2 2 0 0 1 1 1\n";
    let table: [(&str, &[u8], &[u8], &[u8]); 6] = [
        ("lengths m s", PILLAR, LISTED, MEASURED),
        ("lengths m s rule=one", PILLAR, LISTED, MEASURED_BY_ONE),
        ("lengths m s rule=both", TOUCHING, corner, MEASURED_BY_BOTH),
        ("lengths m s", SQUARE, DIAGONALS, ROUNDED),
        ("lengths m s", PILLAR, b"version 1.0\n", b"version 1\n"),
        ("lengths m s", PILLAR, MEASURED_BY_ONE, MEASURED),
    ];
    for (words, map, second, output) in table {
        check(alloc, &rt, on_two(words, map, second), 0, output, b"")?;
    }
    Ok(())
}

// Two cells that touch at a corner: ends that are apart, blocked ends, an entry of another size, an end
// outside.
#[test]
fn entries_without_a_walk_are_left_out(rt: HostRuntime) -> Result<(), Fail> {
    let alloc = rt.alloc();
    let listed = b"version 1\n0 m 2 2 0 0 1 1 1\n0 m 2 2 0 1 0 0 1\n0 m 3 2 0 0 1 1 1\n\
        0 m 2 2 2 0 1 1 1\n3 m 2 2 1 1 1 1 9\n";
    let left = b"version 1\n0\tm\t2\t2\t1\t1\t1\t1\t0.00000000\n";
    let made = on_two("lengths m s", TOUCHING, listed);
    check(alloc, &rt, made, 1, left, b"")
}

// Six kept tries of seed 1 among four cells in a row, one of which has three moves.
const ROW: &[u8] = b"type octile\nheight 1\nwidth 4\nmap\n....\n";

const SIX: &[u8] = b"version 1\n0\tm\t4\t1\t1\t0\t2\t0\t1.00000000\n\
    0\tm\t4\t1\t2\t0\t3\t0\t1.00000000\n0\tm\t4\t1\t2\t0\t3\t0\t1.00000000\n\
    0\tm\t4\t1\t3\t0\t2\t0\t1.00000000\n0\tm\t4\t1\t0\t0\t1\t0\t1.00000000\n\
    0\tm\t4\t1\t3\t0\t0\t0\t3.00000000\n";

const FOUR: &[u8] = b"version 1\n0\tm\t3\t3\t1\t2\t2\t2\t1.00000000\n\
    0\tm\t3\t3\t0\t1\t2\t2\t3.00000000\n0\tm\t3\t3\t1\t0\t0\t2\t3.00000000\n\
    1\tm\t3\t3\t1\t0\t1\t2\t4.00000000\n";

const FOUR_BY_ONE: &[u8] = b"version 1\n0\tm\t3\t3\t1\t2\t2\t2\t1.00000000\n\
    0\tm\t3\t3\t0\t1\t2\t2\t2.41421356\n0\tm\t3\t3\t1\t0\t0\t2\t2.41421356\n\
    0\tm\t3\t3\t1\t0\t1\t2\t2.82842712\n";

#[test]
fn problems_stand_in_the_order_of_their_costs(rt: HostRuntime) -> Result<(), Fail> {
    let alloc = rt.alloc();
    let pair = b"type octile\nheight 1\nwidth 2\nmap\n..\n";
    let one = b"version 1\n0\tm\t2\t1\t1\t0\t0\t0\t1.00000000\n";
    let table: [(&str, &[u8], &[u8]); 4] = [
        ("problems m 1 1", pair, one),
        ("problems m 1 6", ROW, SIX),
        ("problems m 1 4", PILLAR, FOUR),
        ("problems m 1 4 rule=one", PILLAR, FOUR_BY_ONE),
    ];
    check_done(alloc, &rt, &table)
}

// One cell has no other to go to, and blocked cells and cells that touch at a corner have no problems.
#[test]
fn maps_without_problems_have_the_first_line_alone(rt: HostRuntime) -> Result<(), Fail> {
    let alloc = rt.alloc();
    let single = b"type octile\nheight 1\nwidth 1\nmap\n.\n";
    let blocked = b"type octile\nheight 1\nwidth 2\nmap\n@T\n";
    let maps: [&[u8]; 3] = [single, blocked, TOUCHING];
    for map in maps {
        let made = on_map("problems m 1 2", map);
        check(alloc, &rt, made, 1, b"version 1\n", b"")?;
    }
    Ok(())
}

// What was made is a scenario whose every length agrees, on the same map and under the same rule.
#[test]
fn made_scenarios_agree(rt: HostRuntime) -> Result<(), Fail> {
    let alloc = rt.alloc();
    let four = b"row 1 agree 1 0\nrow 2 agree 3 0\nrow 3 agree 3 0\nrow 4 agree 4 0\n\
        sum 4 agree 4 near 0 off 0 other 0\n";
    let by_one = b"row 1 agree 1 0\nrow 2 agree 1 1\nrow 3 agree 1 1\nrow 4 agree 0 2\n\
        sum 4 agree 4 near 0 off 0 other 0\n";
    let three = b"row 1 agree 2 1\nrow 2 agree 1 1\nrow 3 agree 0 0\n\
        sum 3 agree 3 near 0 off 0 other 0\n";
    let table: [(&str, &[u8], &[u8]); 3] = [
        ("scen m s engine=jps", FOUR, four),
        ("scen m s engine=block rule=one", FOUR_BY_ONE, by_one),
        ("scen m s rule=one", MEASURED_BY_ONE, three),
    ];
    for (words, second, rows) in table {
        check(alloc, &rt, on_two(words, PILLAR, second), 0, rows, b"")?;
    }
    Ok(())
}

#[test]
fn words_and_texts_of_scenarios_are_refused(rt: HostRuntime) -> Result<(), Fail> {
    let alloc = rt.alloc();
    let misspelt = b"version 1\n0 m 3 3 0 0 2 2 x\n";
    let table: [(&str, &[u8], u8, &[u8]); 8] = [
        ("lengths m s engine=plain", LISTED, 2, b"jps: word 4\n"),
        ("lengths m s", misspelt, 3, b"jps: scen C4 line 2\n"),
        ("lengths m absent", LISTED, 4, b"jps: read\n"),
        ("problems m 1 0", LISTED, 2, b"jps: word 4\n"),
        ("problems m 1 100001", LISTED, 2, b"jps: word 4\n"),
        ("problems m 1", LISTED, 2, b"jps: word 4\n"),
        (
            "problems m 18446744073709551616 1",
            LISTED,
            2,
            b"jps: word 3\n",
        ),
        ("problems s 1 1", LISTED, 3, b"jps: map M1 line 1\n"),
    ];
    for (words, second, status, line) in table {
        let made = on_two(words, OPEN, second);
        check(alloc, &rt, made, status, b"", line)?;
    }
    Ok(())
}

// A map of 45 bytes is read in four reads of at most 16, the last of which finds its end.
#[test]
fn each_read_and_write_of_scenarios_fails_in_turn(rt: HostRuntime) -> Result<(), Fail> {
    let alloc = rt.alloc();
    let again: Call<'_> = on_two("lengths m s", PILLAR, LISTED);
    check_reads(alloc, &rt, again, 4 + LISTED.len() as u64 / 16 + 2)?;
    check_writes(alloc, &rt, again, MEASURED)?;
    let posed = on_map("problems m 1 4", PILLAR);
    check_reads(alloc, &rt, posed, 4)?;
    check_writes(alloc, &rt, posed, FOUR)
}
