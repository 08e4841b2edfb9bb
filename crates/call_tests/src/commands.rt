//! The commands besides `query`, `solve` and `live`, by whole calls: certificates, claimed walks, counted
//! rows, tables, costs, boxes, first moves and pictures. Lines are counted on squared paper or written by
//! hand from the format's description.

use crate::calls::{
    Call, OPEN, PILLAR, RULES, SHORE, TOUCHING, check, check_done, check_reads, check_with,
    check_writes, on_map, on_two,
};
use std::test::Fail;

// Round the pillar in the middle of nine cells, by hand.
const CERTIFICATE: &[u8] = b"jps-cert 1\nsize 3 3\nends 0 0 2 2\nleast 4 0\npoints 0,0 2,0 2,2\n\
    value 0 0 0 0\nvalue 1 0 1 0\nvalue 0 1 1 0\nend\n";

// A certificate on the open map, whose walk is the diagonal: no cell has a sum below the cost.
const DIAGONAL: &[u8] = b"jps-cert 1\nsize 3 3\nends 0 0 2 2\nleast 0 2\npoints 0,0 2,2\nend\n";

#[test]
fn certificates_are_printed_and_judged(rt: HostRuntime) -> Result<(), Fail> {
    let alloc = rt.alloc();
    let prove = on_map("prove m 0 0 2 2", PILLAR);
    check(alloc, &rt, prove, 0, CERTIFICATE, b"")?;
    let blocked = on_map("prove m 0 0 1 1", PILLAR);
    check(alloc, &rt, blocked, 1, b"blocked\n", b"")?;
    let stands = on_two("check m s rule=none", PILLAR, CERTIFICATE);
    check(alloc, &rt, stands, 0, b"accepted least 4 0\n", b"")?;
    let falls = on_two("check m s rule=one", PILLAR, CERTIFICATE);
    check(alloc, &rt, falls, 1, b"refused move 1,0 2,1\n", b"")
}

#[test]
fn certificates_stand_under_each_rule(rt: HostRuntime) -> Result<(), Fail> {
    let alloc = rt.alloc();
    let prove = on_map("prove m 0 0 2 2", OPEN);
    let on_open = on_two("check m s", OPEN, DIAGONAL);
    for rule in RULES {
        check_with(alloc, &rt, prove, &[rule], 0, DIAGONAL)?;
        check_with(alloc, &rt, on_open, &[rule], 0, b"accepted least 0 2\n")?;
    }
    Ok(())
}

// A map of 45 bytes is read in four reads of at most 16, a certificate of 104 in eight.
#[test]
fn each_read_and_write_of_certificates_fails_in_turn(rt: HostRuntime) -> Result<(), Fail> {
    let alloc = rt.alloc();
    let judged = on_two("check m s", PILLAR, CERTIFICATE);
    let prove = on_map("prove m 0 0 2 2", OPEN);
    check_reads(alloc, &rt, prove, 4)?;
    check_reads(alloc, &rt, judged, 4 + CERTIFICATE.len() as u64 / 16 + 2)?;
    check_writes(alloc, &rt, prove, DIAGONAL)?;
    check_writes(alloc, &rt, judged, b"accepted least 4 0\n")
}

// Six equal entries on the map of a pillar, round which a least walk has four moves.
const SIX: &[u8] = b"version 1
0 m 3 3 0 0 2 2 4
0 m 3 3 0 0 2 2 4
0 m 3 3 0 0 2 2 4
0 m 3 3 0 0 2 2 4
0 m 3 3 0 0 2 2 4
0 m 3 3 0 0 2 2 4
";

const CLAIMED: &[u8] =
    b"0,0 2,0 2,2\n0,0 1,0 2,0 2,1 2,2\n\n0,0 1,1 2,2\nnone\n0,0 1,0 0,0 2,0 2,2\n0,0 2,0\n";

const JUDGED: &[u8] = b"row 1 accepted 4 0
row 2 accepted 4 0
row 3 refused walk 1
row 4 refused none 4 0
row 5 refused longer 6 0 4 0
row 6 refused walk 2
sum 6 accepted 2 refused 4 other 0
";

// Besides: on the map `.WW/.W@` entries of another size, with an end outside, with a blocked end, with ends
// apart, and with a claimed walk between ends apart.
#[test]
fn claimed_walks_are_judged_row_by_row(rt: HostRuntime) -> Result<(), Fail> {
    let alloc = rt.alloc();
    let cove = b"type octile\nheight 2\nwidth 3\nmap\n.WW\n.W@\n";
    let entries = b"version 1\n0 m 3 3 0 0 2 1 1\n0 m 3 2 0 0 3 0 1\n0 m 3 2 0 0 2 1 1\n\
        0 m 3 2 1 0 0 0 1\n0 m 3 2 0 0 1 0 1\n";
    let claimed = b"none\n0,0 1,0\n0,0 2,1\nnone\n0,0 1,0\n";
    let rows =
        b"row 1 scale\nrow 2 outside\nrow 3 blocked\nrow 4 accepted none\nrow 5 refused walk 1\n\
        sum 5 accepted 1 refused 1 other 3\n";
    let five = b"none\nnone\n\nnone\nnone\nnone\n";
    let misspelt = b"none\nnone\n0,0 1;1\n";
    let table: [(&[u8], &[u8], &[u8], u8, &[u8], &[u8]); 4] = [
        (PILLAR, SIX, CLAIMED, 1, JUDGED, b""),
        (PILLAR, SIX, five, 3, b"", b"jps: walks K2 line 7\n"),
        (PILLAR, SIX, misspelt, 3, b"", b"jps: walks K1 line 3\n"),
        (cove, entries, claimed, 1, rows, b""),
    ];
    for (map, second, third, status, output, line) in table {
        let made = Call {
            third,
            ..on_two("judge m s t", map, second)
        };
        check(alloc, &rt, made, status, output, line)?;
    }
    Ok(())
}

// The entry that is searched takes the start, both far corners and the goal; the other is for another map.
#[test]
fn rows_count_the_taken_states(rt: HostRuntime) -> Result<(), Fail> {
    let alloc = rt.alloc();
    let lengths = b"version 1\n0 m 3 3 0 0 2 2 4\n0 m 4 3 0 0 1 1 1\n";
    let rows =
        b"row 1 agree 4 0 taken 4\nrow 2 scale\nsum 2 agree 1 near 0 off 0 other 1 taken 4\n";
    let made = on_two("scen m s show=taken engine=jps", PILLAR, lengths);
    check(alloc, &rt, made, 1, rows, b"")?;
    let lengths = b"version 1\n0 m 2 2 0 0 1 1 1\n";
    let rows = b"row 1 none taken 1\nsum 1 agree 0 near 0 off 0 other 1 taken 1\n";
    let made = on_two("scen m s show=taken", TOUCHING, lengths);
    check(alloc, &rt, made, 1, rows, b"")
}

// Two moves lead to the east, one to each side, two to the west; there is no water.
pub(crate) const THREE_CELLS: &[u8] = b"JPSPLUS1\x00\x03\x00\x01\x00\
\x00\x00\x00\x00\xfe\xff\x00\x00\x00\x00\x00\x00\x00\x00\x00\x00\
\x00\x00\x00\x00\xff\xff\x00\x00\x00\x00\x00\x00\xff\xff\x00\x00\
\x00\x00\x00\x00\x00\x00\x00\x00\x00\x00\x00\x00\xfe\xff\x00\x00\
\x00\x00\x00\x00\x00\x00\x00\x00\x00\x00\x00\x00\x00\x00\x00\x00\
\x00\x00\x00\x00\x00\x00\x00\x00\x00\x00\x00\x00\x00\x00\x00\x00\
\x00\x00\x00\x00\x00\x00\x00\x00\x00\x00\x00\x00\x00\x00\x00\x00";

pub(crate) const LINE: &[u8] = b"type octile\nheight 1\nwidth 3\nmap\n...\n";

// On the land nothing moves; on the water one move leads to the east, and one back.
pub(crate) const SHORE_CELLS: &[u8] = b"JPSPLUS1\x01\x03\x00\x01\x00\
\x00\x00\x00\x00\x00\x00\x00\x00\x00\x00\x00\x00\x00\x00\x00\x00\
\x00\x00\x00\x00\x00\x00\x00\x00\x00\x00\x00\x00\x00\x00\x00\x00\
\x00\x00\x00\x00\x00\x00\x00\x00\x00\x00\x00\x00\x00\x00\x00\x00\
\x00\x00\x00\x00\x00\x00\x00\x00\x00\x00\x00\x00\x00\x00\x00\x00\
\x00\x00\x00\x00\xff\xff\x00\x00\x00\x00\x00\x00\x00\x00\x00\x00\
\x00\x00\x00\x00\x00\x00\x00\x00\x00\x00\x00\x00\xff\xff\x00\x00";

// The head goes out by itself, and the entries behind it; the map of 37 bytes is read in three reads of at
// most 16.
#[test]
fn tables_are_written_byte_by_byte(rt: HostRuntime) -> Result<(), Fail> {
    let alloc = rt.alloc();
    let narrow = b"type octile\nheight 1\nwidth 3\nmap\n.WW\n";
    let table: [(&str, &[u8], &[u8]); 2] = [
        ("tables m", LINE, THREE_CELLS),
        ("tables m rule=one", narrow, SHORE_CELLS),
    ];
    check_done(alloc, &rt, &table)?;
    check_reads(alloc, &rt, on_map("tables m", LINE), 4)?;
    check_writes(alloc, &rt, on_map("tables m", LINE), THREE_CELLS)
}

#[test]
fn cells_are_printed(rt: HostRuntime) -> Result<(), Fail> {
    let alloc = rt.alloc();
    let pool = b"type octile\nheight 1\nwidth 3\nmap\n.W@\n";
    let areas = b"box N none\nbox NE none\nbox E 1 0 2 1\nbox SE 1 1 2 2\nbox S 0 1 1 2\n\
        box SW none\nbox W none\nbox NW none\n";
    let runs = b"run 0,0 -\nrun 1,0 E\nrun 0,1 S\nrun 1,1 SE\nrun 2,1 E\nrun 0,2 S\nrun 1,2 SE\n";
    let costs = b"0,0 1,0 2,0\n1,0 - 3,0\n2,0 3,0 4,0\n";
    let table: [(&str, &[u8], &[u8]); 9] = [
        ("costs m 0 0", PILLAR, costs),
        ("costs m 1 0 rule=one", SHORE, b"- 0,0 1,0\n- 1,0 0,1\n"),
        ("costs m 1 1", PILLAR, b"blocked\n"),
        ("costs m 3 0", PILLAR, b"outside\n"),
        ("boxes m 0 0", OPEN, areas),
        ("boxes m 2 0", pool, b"blocked\n"),
        ("moves m 0 0", OPEN, runs),
        ("moves m 1 0 rule=one", pool, b"run 0,0 -\n"),
        ("moves m 0 1", pool, b"outside\n"),
    ];
    check_done(alloc, &rt, &table)
}

// A walk over the top row of a map with swamp and a wall, and the states that `plain` takes.
const GROUNDS: &[u8] = b"type octile\nheight 1\nwidth 4\nmap\n.S.@\n";

const TRACED: &[u8] = b"<svg xmlns=\"http://www.w3.org/2000/svg\" viewBox=\"0 0 4 1\">\n\
    <title>walk 2 0 from 0,0 to 2,0</title>\n\
    <rect width=\"4\" height=\"1\" fill=\"#f4f1e8\"/>\n\
    <path transform=\"translate(0 .5)\" shape-rendering=\"crispEdges\" stroke=\"#c9bf8f\" d=\"M1 0h1\"/>\n\
    <path transform=\"translate(0 .5)\" shape-rendering=\"crispEdges\" stroke=\"#5c8a57\" d=\"\"/>\n\
    <path transform=\"translate(0 .5)\" shape-rendering=\"crispEdges\" stroke=\"#3b3f46\" d=\"M3 0h1\"/>\n\
    <path transform=\"translate(0 .5)\" shape-rendering=\"crispEdges\" stroke=\"#8fbfe0\" d=\"\"/>\n\
    <path transform=\"translate(0 .5)\" shape-rendering=\"crispEdges\" stroke=\"#f2b84b\" \
    d=\"M0 0h1M1 0h1M2 0h1\"/>\n\
    <polyline transform=\"translate(.5 .5)\" fill=\"none\" stroke=\"#d1352b\" stroke-width=\"0.4\" \
    points=\"0,0 2,0\"/>\n\
    <circle cx=\"0.5\" cy=\"0.5\" r=\"0.4\" fill=\"#1f6f43\"/>\n\
    <circle cx=\"2.5\" cy=\"0.5\" r=\"0.4\" fill=\"#7b2d8b\"/>\n\
    </svg>\n";

#[test]
fn a_query_is_drawn(rt: HostRuntime) -> Result<(), Fail> {
    let alloc = rt.alloc();
    let traced = on_map("draw m 0 0 2 0 show=trace", GROUNDS);
    check(alloc, &rt, traced, 0, TRACED, b"")?;
    let blocked = on_map("draw m 0 0 3 0", GROUNDS);
    check(alloc, &rt, blocked, 1, b"blocked\n", b"")?;
    let outside = on_map("draw m 0 1 3 0 engine=plus", GROUNDS);
    check(alloc, &rt, outside, 1, b"outside\n", b"")
}
