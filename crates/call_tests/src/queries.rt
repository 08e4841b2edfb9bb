//! Rows of `query`, `solve` and `live`, counted on squared paper.
//!
//! The maps are drawn in their rows: `/` ends one of them, and `W.W/WWW` is
//!
//! ```text
//! W . W     from (0,0) to (2,0) on the water: under none down, right, right and up, as a diagonal would pass
//! W W W     the corner of the land cell; under one and both down right and up right
//! ```

use crate::table::check_table;
use std::test::Fail;

// On one row of cells no diagonal move is legal, and nothing is marked: an engine that jumps stops at the
// goal alone. In the bay of water jumps stop at both corners of the land cell. With one state for each cell
// the first one to reach it at its least cost stays: round the pillar the goal is offered from the right
// column first, and on the map with two pillars a cell below them is taken once.
pub(crate) const QUERIES: &str = "
walk, streams | query m 0 0 2 0 engine=any rule=any | ... => 0 walk 2 0 0,0 2,0
walk | query m 0 0 2 0 engine=any rule=any show=points | ... => 0 walk 2 0 0,0 2,0
walk | query m 0 0 2 2 engine=any rule=any | .../.../... => 0 walk 0 2 0,0 2,2
walk | query m 2 1 0 1 engine=any rule=any | @@@/.GS/@@@ => 0 walk 2 0 2,1 0,1
walk | query m 0 0 2 2 engine=small rule=none | .../.@./... => 0 walk 4 0 0,0 2,0 2,2
walk | query m 0 0 1 1 engine=any rule=both | .@/@. => 0 walk 0 1 0,0 1,1
water | query m 0 0 2 0 engine=any rule=any | WWW => 0 walk 2 0 0,0 2,0
water | query m 1 0 2 1 engine=any rule=any | .WW/.WW => 0 walk 0 1 1,0 2,1
water | query m 0 0 2 0 engine=any rule=none | W.W/WWW => 0 walk 4 0 0,0 0,1 2,1 2,0
water | query m 0 0 2 0 engine=any rule=slipping | W.W/WWW => 0 walk 0 2 0,0 1,1 2,0
water | query m 0 0 1 1 engine=any rule=both | W./.W => 0 walk 0 1 0,0 1,1
point | query m 0 0 0 0 engine=any rule=any | . => 0 walk 0 0 0,0
point | query m 1 0 1 0 engine=any rule=any | .../... => 0 walk 0 0 1,0
point, water | query m 1 1 1 1 engine=any rule=any | .../.W. => 0 walk 0 0 1,1
none | query m 0 0 2 0 engine=any rule=any | .@. => 0 none
none | query m 0 0 1 1 engine=any rule=strict | .@/@. => 0 none
none, water | query m 0 0 2 0 engine=any rule=any | W.W => 0 none
apart | query m 0 0 1 0 engine=any rule=any | .W => 0 none
apart, water | query m 1 0 0 0 engine=any rule=any | .W => 0 none
outside | query m 2 0 0 0 engine=any rule=any | .. => 0 outside
outside | query m 0 0 0 1 engine=any rule=any | .. => 0 outside
outside | query m 0 0 2 0 engine=any rule=any | T. => 0 outside
blocked | query m 0 0 1 0 engine=any rule=any | .@ => 0 blocked
blocked | query m 0 0 1 0 engine=any rule=any | T. => 0 blocked
blocked, point | query m 0 0 0 0 engine=any rule=any | OW => 0 blocked
cells | query m 0 0 2 0 show=cells engine=any rule=any | ... => 0 walk 2 0 0,0 1,0 2,0
cells | query m 0 0 2 2 show=cells engine=any rule=any | .../.../... => 0 walk 0 2 0,0 1,1 2,2
cells, water | query m 0 0 2 0 show=cells engine=any rule=none | W.W/WWW => 0 walk 4 0 0,0 0,1 1,1 2,1 2,0
cells, point | query m 0 0 0 0 show=cells engine=any rule=any | W => 0 walk 0 0 0,0
cells, none | query m 0 0 2 0 show=cells engine=any rule=any | .@. => 0 none
trace | query m 0 0 2 0 show=trace engine=stepping rule=any | ... \
    => 0 walk 2 0 0,0 2,0 taken 0,0:- 1,0:- 2,0:-
trace | query m 0 0 2 0 show=trace engine=jumping rule=any | ... => 0 walk 2 0 0,0 2,0 taken 0,0:- 2,0:E
trace | query m 0 0 2 0 show=trace engine=moves rule=any | ... => 2 jps: word 8
trace, none | query m 0 0 2 0 show=trace engine=tracing rule=any | .@. => 0 none taken 0,0:-
trace, apart | query m 0 0 1 0 show=trace engine=tracing rule=any | .W => 0 none taken
trace, apart | query m 1 0 0 0 show=trace engine=tracing rule=any | .W => 0 none taken
trace, point | query m 0 0 0 0 show=trace engine=tracing rule=any | . => 0 walk 0 0 0,0 taken 0,0:-
trace, point | query m 0 0 0 0 show=trace engine=tracing rule=any | W => 0 walk 0 0 0,0 taken 0,0:-
trace, outside | query m 0 0 1 0 show=trace engine=tracing rule=any | . => 0 outside
trace, blocked | query m 0 0 1 0 show=trace engine=tracing rule=any | .@ => 0 blocked
trace, water | query m 0 0 2 0 show=trace engine=stepping rule=none | W.W/WWW \
    => 0 walk 4 0 0,0 0,1 2,1 2,0 taken 0,0:- 0,1:- 1,1:- 2,1:- 2,0:-
trace, water | query m 0 0 2 0 show=trace engine=jumping rule=none | W.W/WWW \
    => 0 walk 4 0 0,0 0,1 2,1 2,0 taken 0,0:- 0,1:S 2,1:E 2,0:N
trace, water | query m 0 0 2 0 show=trace engine=stepping rule=slipping | W.W/WWW \
    => 0 walk 0 2 0,0 1,1 2,0 taken 0,0:- 1,1:- 2,0:-
trace, water | query m 0 0 2 0 show=trace engine=jumping rule=slipping | W.W/WWW \
    => 0 walk 0 2 0,0 1,1 2,0 taken 0,0:- 1,1:SE 2,0:NE
trace | query m 0 0 2 2 show=trace engine=by-arrival rule=none | .../.@./... \
    => 0 walk 4 0 0,0 0,2 2,2 taken 0,0:- 2,0:E 0,2:S 2,2:E
trace | query m 0 0 2 2 show=trace engine=by-cell rule=none | .../.@./... \
    => 0 walk 4 0 0,0 2,0 2,2 taken 0,0:- 2,0:E 0,2:S 2,2:S
trace | query m 0 0 2 2 show=trace engine=by-arrival rule=slipping | .../.@./... \
    => 0 walk 2 1 0,0 0,1 1,2 2,2 taken 0,0:- 1,0:E 0,1:S 2,1:SE 1,2:SE 2,2:E
trace | query m 0 0 2 2 show=trace engine=by-cell rule=slipping | .../.@./... \
    => 0 walk 2 1 0,0 1,0 2,1 2,2 taken 0,0:- 1,0:E 0,1:S 2,1:SE 1,2:SE 2,2:S
trace | query m 0 0 4 0 show=trace engine=by-arrival rule=none | ...@./.@.@./..... \
    => 0 walk 8 0 0,0 0,2 2,2 4,2 4,0 taken 0,0:- 2,0:E 0,2:S 2,2:E 2,2:S 2,0:N 4,2:E 4,0:N
trace | query m 0 0 4 0 show=trace engine=by-cell rule=none | ...@./.@.@./..... \
    => 0 walk 8 0 0,0 2,0 2,2 4,2 4,0 taken 0,0:- 2,0:E 0,2:S 2,2:S 4,2:E 4,0:N
trace | query m 0 0 4 0 show=trace engine=by-arrival rule=slipping | ...@./.@.@./..... \
    => 0 walk 2 3 0,0 1,0 2,1 3,2 4,1 4,0 taken 0,0:- 1,0:E 2,1:SE 0,1:S 1,2:SE 2,1:NE 3,2:SE 4,1:NE 4,0:N
trace | query m 0 0 4 0 show=trace engine=by-cell rule=slipping | ...@./.@.@./..... \
    => 0 walk 2 3 0,0 1,0 2,1 3,2 4,1 4,0 taken 0,0:- 1,0:E 2,1:SE 0,1:S 1,2:SE 3,2:SE 4,1:NE 4,0:N
trace, to W | query m 2 0 0 0 show=trace engine=jumping rule=any | ... => 0 walk 2 0 2,0 0,0 taken 2,0:- 0,0:W
trace, to SW | query m 2 0 0 2 show=trace engine=jumping rule=any | .../.../... \
    => 0 walk 0 2 2,0 0,2 taken 2,0:- 0,2:SW
trace, to NW | query m 2 2 0 0 show=trace engine=jumping rule=any | .../.../... \
    => 0 walk 0 2 2,2 0,0 taken 2,2:- 0,0:NW
states | query m 0 0 2 0 engine=jumpless states=cell rule=any | ... => 2 jps: word 8
states | query m 0 0 2 0 states=cell engine=jumpless rule=any | ... => 2 jps: word 8
states | query m 0 0 2 0 states=arrival engine=jumpless rule=any | ... => 2 jps: word 8
states | query m 0 0 2 0 states=cell rule=any | ... => 2 jps: word 9
tables, streams | query m 0 0 2 0 tables=t engine=loading rule=any | ... | | % => 0 walk 2 0 0,0 2,0
water tables | query m 1 0 2 0 tables=t engine=loading rule=any | .WW | | %water => 0 walk 1 0 1,0 2,0
tables | query m 0 0 2 0 tables=t engine=other rule=any | ... | | % => 2 jps: word 8
tables | query m 0 0 2 0 tables=t engine=small rule=any | ... | | % => 2 jps: word 8
";

#[test]
fn queries_are_answered_by_each_engine_under_each_rule(rt: HostRuntime) -> Result<(), Fail> {
    check_table(rt.alloc(), &rt, QUERIES)
}

// A script goes to `solve` as a file and to `live` and `serve` as what comes in, with the same lines; with
// its trace to the first two alone. On the water of `W.W/WWW` the land cell is flooded, the cell under it
// blocked, and a corner made land:
//
// ```text
// W . W    W W W    W W W    . W W
// W W W    W W W    W @ W    W @ W
// ```
pub(crate) const SCRIPTS: &str = "
walk, none, blocked, outside, ok, same, streams | scripted engine=each rule=any | ... \
    | query 0 0 2 0/block 1 0/block 1 0/query 0 0 2 0/query 0 0 1 0/query 3 0 0 0 \
    => 0 walk 2 0 0,0 2,0/ok/same/none/blocked/outside
outside, point, apart, ok, same | scripted engine=each rule=any | .@. \
    | block 3 0/flood 0 1/free 3 0/flood 1 0/flood 1 0/query 0 0 1 0/query 1 0 1 0/free 1 0/free 1 0\
    /query 2 0 2 0 \
    => 0 outside/outside/outside/ok/same/none/walk 0 0 1,0/ok/same/walk 0 0 2,0
walk, water | scripted engine=each rule=none | W.W/WWW \
    | query 0 0 2 0/flood 1 0/query 0 0 2 0/block 1 1/query 0 1 2 1/free 0 0/query 0 1 2 1/query 0 0 2 0 \
    => 0 walk 4 0 0,0 0,1 2,1 2,0/ok/walk 2 0 0,0 2,0/ok/walk 4 0 0,1 0,0 2,0 2,1/ok/none/none
walk, water | scripted engine=each rule=one | W.W/WWW \
    | query 0 0 2 0/flood 1 0/query 0 0 2 0/block 1 1/query 0 1 2 1/free 0 0/query 0 1 2 1/query 0 0 2 0 \
    => 0 walk 0 2 0,0 1,1 2,0/ok/walk 2 0 0,0 2,0/ok/walk 0 2 0,1 1,0 2,1/ok/none/none
walk, water | scripted engine=each rule=both | W.W/WWW \
    | query 0 0 2 0/flood 1 0/query 0 0 2 0/block 1 1/query 0 1 2 1/free 0 0/query 0 1 2 1/query 0 0 2 0 \
    => 0 walk 0 2 0,0 1,1 2,0/ok/walk 2 0 0,0 2,0/ok/walk 0 2 0,1 1,0 2,1/ok/walk 0 2 0,1 1,0 2,1/none
cells | scripted show=cells engine=each rule=any | ... \
    | query 2 0 0 0/block 1 0/query 0 0 2 0/flood 1 0/query 1 0 1 0/query 0 0 1 0 \
    => 0 walk 2 0 2,0 1,0 0,0/ok/none/ok/walk 0 0 1,0/none
cells, water | scripted show=cells engine=each rule=none | W.W/WWW | query 0 0 2 0/flood 1 0/query 0 0 2 0 \
    => 0 walk 4 0 0,0 0,1 1,1 2,1 2,0/ok/walk 2 0 0,0 1,0 2,0
trace | traced show=trace engine=plain rule=any | ... \
    | query 0 0 2 0/block 1 0/query 0 0 2 0/flood 1 0/query 0 0 1 0/query 1 0 1 0/query 0 0 3 0/block 1 0\
    /query 1 0 1 0 \
    => 0 walk 2 0 0,0 2,0 taken 0,0:- 1,0:- 2,0:-/ok/none taken 0,0:-/ok/none taken/walk 0 0 1,0 taken 1,0:-\
    /outside/ok/blocked
trace | traced show=trace engine=jumping rule=any | ... \
    | query 0 0 2 0/block 1 0/query 0 0 2 0/flood 1 0/query 0 0 1 0/query 1 0 1 0/query 0 0 3 0/block 1 0\
    /query 1 0 1 0 \
    => 0 walk 2 0 0,0 2,0 taken 0,0:- 2,0:E/ok/none taken 0,0:-/ok/none taken/walk 0 0 1,0 taken 1,0:-\
    /outside/ok/blocked
trace, water | traced show=trace engine=jumping rule=none | W.W/WWW \
    | query 0 0 2 0/flood 1 0/query 0 0 2 0 \
    => 0 walk 4 0 0,0 0,1 2,1 2,0 taken 0,0:- 0,1:S 2,1:E 2,0:N/ok/walk 2 0 0,0 2,0 taken 0,0:- 2,0:E
empty | scripted engine=each rule=any | ... => 0
empty | scripted engine=each rule=any | ... | ~128 => 0
trace | traced show=trace engine=by-arrival rule=none | ..../.@.@/.... \
    | query 0 0 3 2/block 3 2/query 0 0 3 2/free 3 2/query 3 2 0 0 \
    => 0 walk 5 0 0,0 0,2 2,2 3,2 taken 0,0:- 2,0:E 0,2:S 2,2:E 2,2:S 3,2:E/ok/blocked/ok\
    /walk 5 0 3,2 2,2 2,0 0,0 taken 3,2:- 2,2:W 2,0:N 0,0:W
trace | traced show=trace engine=by-cell rule=none | ..../.@.@/.... \
    | query 0 0 3 2/block 3 2/query 0 0 3 2/free 3 2/query 3 2 0 0 \
    => 0 walk 5 0 0,0 2,0 2,2 3,2 taken 0,0:- 2,0:E 0,2:S 2,2:S 3,2:E/ok/blocked/ok\
    /walk 5 0 3,2 2,2 2,0 0,0 taken 3,2:- 2,2:W 2,0:N 0,0:W
states | solve m s engine=plain states=cell rule=any | ... | query 0 0 2 0 => 2 jps: word 5
states | solve m s states=arrival engine=plain rule=any | ... | query 0 0 2 0 => 2 jps: word 5
states | live m engine=plain states=arrival rule=any | ... | query 0 0 2 0 => 2 jps: word 4
states | live m states=cell engine=plain rule=any | ... | query 0 0 2 0 => 2 jps: word 4
tables, streams | scripted tables=t engine=loading rule=any | ... \
    | query 0 0 2 0/block 1 0/query 0 0 2 0/free 1 0/query 2 0 0 0 | % \
    => 0 walk 2 0 0,0 2,0/ok/none/ok/walk 2 0 2,0 0,0
water tables | scripted tables=t engine=loading rule=any | .WW \
    | query 1 0 2 0/block 2 0/query 1 0 2 0/flood 2 0/query 2 0 1 0/query 0 0 1 0/flood 0 0/query 0 0 2 0 | %water \
    => 0 walk 1 0 1,0 2,0/ok/blocked/ok/walk 1 0 2,0 1,0/none/ok/walk 2 0 0,0 2,0
tables | solve m s tables=t engine=other rule=any | ... | query 0 0 2 0 | % => 2 jps: word 5
tables | live m tables=t engine=other rule=any | ... | query 0 0 2 0 | % => 2 jps: word 4
T1 | solve m s engine=each rule=any | ... | query 0 0 2 0/bolck 1 0/block 1 0 => 3 jps: script T1 line 2
T1 | live m engine=each rule=any | ... | query 0 0 2 0/bolck 1 0/block 1 0 \
    => 3 walk 2 0 0,0 2,0/jps: script T1 line 2
T2 | solve m s engine=each rule=any | ... | query 0 0 2 0/~129/block 1 0 => 3 jps: script T2 line 2
T2 | live m engine=each rule=any | ... | query 0 0 2 0/~129/block 1 0 \
    => 3 walk 2 0 0,0 2,0/jps: script T2 line 2
";

#[test]
fn scripts_are_answered_by_each_engine_under_each_rule(rt: HostRuntime) -> Result<(), Fail> {
    check_table(rt.alloc(), &rt, SCRIPTS)
}
