//! Calls under the rule that lets a diagonal move pass between two blocked cells: each command that has
//! rules, with its whole output. Lines are counted on squared paper; certificates and tables are written by
//! hand from the formats' descriptions.

use crate::calls::{Call, TOUCHING, check, check_with, on_map, on_two};
use crate::table::check_table;
use std::test::Fail;

// Round the pillar the stops are those of the rule under which one blocked cell may be passed; where free
// cells touch at their corners alone each cell of a diagonal is one. Each walk of the script is the only
// least one, so its cells are the same by each engine. On `.@/@.` a walk of one diagonal move is claimed by
// an entry of a scenario, by another program and in a certificate; a certificate that there is none is
// refuted by a move that leads out.
const CORNERS: &str = "
trace | query m 0 0 2 2 show=trace engine=by-arrival rule=both | .../.@./... \
    => 0 walk 2 1 0,0 0,1 1,2 2,2 taken 0,0:- 1,0:E 0,1:S 2,1:SE 1,2:SE 2,2:E
trace | query m 0 0 2 2 show=trace engine=by-cell rule=both | .../.@./... \
    => 0 walk 2 1 0,0 1,0 2,1 2,2 taken 0,0:- 1,0:E 0,1:S 2,1:SE 1,2:SE 2,2:S
trace | query m 0 0 4 4 show=trace engine=jumping rule=both | .@.@./@.@.@/.@.@./@.@.@/.@.@. \
    => 0 walk 0 4 0,0 1,1 2,2 3,3 4,4 taken 0,0:- 1,1:SE 2,2:SE 3,3:SE 4,4:SE
walk | query m 0 0 0 4 engine=jumping rule=both | .@.@./@.@.@/.@.@./@.@.@/.@.@. \
    => 0 walk 0 4 0,0 1,1 0,2 1,3 0,4
cells | scripted show=cells engine=each rule=both | .@.@./@.@.@/.@.@./@.@.@/.@.@. \
    | query 0 0 2 0/block 1 1/query 0 0 2 0/query 0 0 4 4/free 1 0/query 0 0 2 0/block 1 0/free 1 1\
    /query 0 0 2 2 \
    => 0 walk 0 2 0,0 1,1 2,0/ok/none/none/ok/walk 2 0 0,0 1,0 2,0/ok/ok/walk 0 2 0,0 1,1 2,2
agree | scen m s rule=both | .@/@. | version 1/0 m 2 2 0 0 1 1 1.41421356 \
    => 0 row 1 agree 0 1/sum 1 agree 1 near 0 off 0 other 0
accepted | judge m s t rule=both | .@/@. | version 1/0 m 2 2 0 0 1 1 1.41421356 | 0,0 1,1 \
    => 0 row 1 accepted 0 1/sum 1 accepted 1 refused 0 other 0
least | prove m 0 0 1 1 rule=both | .@/@. \
    => 0 jps-cert 1/size 2 2/ends 0 0 1 1/least 0 1/points 0,0 1,1/end
least | check m s rule=both | .@/@. | jps-cert 1/size 2 2/ends 0 0 1 1/least 0 1/points 0,0 1,1/end \
    => 0 accepted least 0 1
open | check m s rule=both | .@/@. | jps-cert 1/size 2 2/ends 0 0 1 1/none/in 0 0/end \
    => 1 refused open 0,0 1,1
costs | costs m 0 0 rule=both | .@/@. => 0 0,0 -/- 0,1
boxes | boxes m 0 0 rule=both | .@/@. \
    => 0 box N none/box NE none/box E none/box SE 1 1 1 1/box S none/box SW none/box W none/box NW none
moves | moves m 0 0 rule=both | .@/@. => 0 run 0,0 -/run 1,1 SE
";

#[test]
fn each_command_passes_between_two_blocked_cells(rt: HostRuntime) -> Result<(), Fail> {
    check_table(rt.alloc(), &rt, CORNERS)
}

const DRAWN: &[u8] = b"<svg xmlns=\"http://www.w3.org/2000/svg\" viewBox=\"0 0 2 2\">\n\
    <title>walk 0 1 from 0,0 to 1,1</title>\n\
    <rect width=\"2\" height=\"2\" fill=\"#f4f1e8\"/>\n\
    <path transform=\"translate(0 .5)\" shape-rendering=\"crispEdges\" stroke=\"#c9bf8f\" d=\"\"/>\n\
    <path transform=\"translate(0 .5)\" shape-rendering=\"crispEdges\" stroke=\"#5c8a57\" d=\"\"/>\n\
    <path transform=\"translate(0 .5)\" shape-rendering=\"crispEdges\" stroke=\"#3b3f46\" \
    d=\"M1 0h1M0 1h1\"/>\n\
    <path transform=\"translate(0 .5)\" shape-rendering=\"crispEdges\" stroke=\"#8fbfe0\" d=\"\"/>\n\
    <polyline transform=\"translate(.5 .5)\" fill=\"none\" stroke=\"#d1352b\" stroke-width=\"0.4\" \
    points=\"0,0 1,1\"/>\n\
    <circle cx=\"0.5\" cy=\"0.5\" r=\"0.4\" fill=\"#1f6f43\"/>\n\
    <circle cx=\"1.5\" cy=\"1.5\" r=\"0.4\" fill=\"#7b2d8b\"/>\n\
    </svg>\n";

// The byte behind the name is the rule's. One move leads to the southeast from the first cell, and one to the
// northwest from the last; there is no water.
const TABLES: &[u8] = b"JPSPLUS1\x02\x02\x00\x02\x00\
\x00\x00\x00\x00\x00\x00\xff\xff\x00\x00\x00\x00\x00\x00\x00\x00\
\x00\x00\x00\x00\x00\x00\x00\x00\x00\x00\x00\x00\x00\x00\x00\x00\
\x00\x00\x00\x00\x00\x00\x00\x00\x00\x00\x00\x00\x00\x00\x00\x00\
\x00\x00\x00\x00\x00\x00\x00\x00\x00\x00\x00\x00\x00\x00\xff\xff\
\x00\x00\x00\x00\x00\x00\x00\x00\x00\x00\x00\x00\x00\x00\x00\x00\
\x00\x00\x00\x00\x00\x00\x00\x00\x00\x00\x00\x00\x00\x00\x00\x00\
\x00\x00\x00\x00\x00\x00\x00\x00\x00\x00\x00\x00\x00\x00\x00\x00\
\x00\x00\x00\x00\x00\x00\x00\x00\x00\x00\x00\x00\x00\x00\x00\x00";

#[test]
fn pictures_and_tables_pass_between_two_blocked_cells(rt: HostRuntime) -> Result<(), Fail> {
    let drawn = on_map("draw m 0 0 1 1 rule=both", TOUCHING);
    check(rt.alloc(), &rt, drawn, 0, DRAWN, b"")?;
    let tables = on_map("tables m rule=both", TOUCHING);
    check(rt.alloc(), &rt, tables, 0, TABLES, b"")
}

// Tables are loaded under their own rule alone.
#[test]
fn tables_are_loaded_under_their_rule(rt: HostRuntime) -> Result<(), Fail> {
    let alloc = rt.alloc();
    let made = on_two("query m 0 0 1 1 engine=plus tables=s", TOUCHING, TABLES);
    check_with(alloc, &rt, made, &["rule=both"], 0, b"walk 0 1 0,0 1,1\n")?;
    let made = Call {
        words: "query m 0 0 1 1 engine=plus tables=s rule=one",
        ..made
    };
    check(alloc, &rt, made, 3, b"", b"jps: tables F1\n")
}
