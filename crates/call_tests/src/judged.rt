//! Rows of `scen`, `judge`, `prove` and `check`, counted on squared paper; certificates are written by hand
//! from the format's description.
//!
//! The bay of water `W.W/WWW` is drawn in queries.rt. Its least costs from (0,0) to (2,0) are 4 and 0 under
//! none, 0 and 2 under one and both; its estimates to (2,0), and their sums with the costs from (0,0) under
//! none:
//!
//! ```text
//! 2     .    0          2      .      4
//! 1+r   r    1          2+r    2+r    4         (r is the root of 2, so 2+r is below 4, and 4 is not)
//! ```

use crate::table::check_table;
use std::test::Fail;

// On the row `..@.W` with each kind of row: a length of three decimals is near where it differs by at most
// ten units of the last, one without decimals agrees where it differs by one. The plain engine also takes the
// other cell of land where no walk leads to the goal.
pub(crate) const SCENARIOS: &str = "
agree, near, off, scale, outside, blocked, none, apart, point, water, streams \
    | scen m s engine=any rule=any | ..@.W \
    | version 1/0 m 5 1 0 0 1 0 1/0 m 5 1 0 0 1 0 1.005/0 m 5 1 0 0 1 0 3/0 m 5 2 0 0 1 0 1/0 m 5 1 5 0 1 0 1\
    /0 m 5 1 2 0 1 0 1/0 m 5 1 0 0 3 0 3/0 m 5 1 0 0 4 0 4/0 m 5 1 4 0 4 0 0 \
    => 1 row 1 agree 1 0/row 2 near 1 0/row 3 off 1 0/row 4 scale/row 5 outside/row 6 blocked/row 7 none\
    /row 8 none/row 9 agree 0 0/sum 9 agree 2 near 1 off 1 other 5
taken | scen m s show=taken engine=plain rule=any | ..@.W \
    | version 1/0 m 5 1 0 0 1 0 1/0 m 5 1 0 0 1 0 1.005/0 m 5 1 0 0 1 0 3/0 m 5 2 0 0 1 0 1/0 m 5 1 5 0 1 0 1\
    /0 m 5 1 2 0 1 0 1/0 m 5 1 0 0 3 0 3/0 m 5 1 0 0 4 0 4/0 m 5 1 4 0 4 0 0 \
    => 1 row 1 agree 1 0 taken 2/row 2 near 1 0 taken 2/row 3 off 1 0 taken 2/row 4 scale/row 5 outside\
    /row 6 blocked/row 7 none taken 2/row 8 none taken 0/row 9 agree 0 0 taken 1\
    /sum 9 agree 2 near 1 off 1 other 5 taken 9
taken | scen m s show=taken engine=jumping rule=any | ..@.W \
    | version 1/0 m 5 1 0 0 1 0 1/0 m 5 1 0 0 1 0 1.005/0 m 5 1 0 0 1 0 3/0 m 5 2 0 0 1 0 1/0 m 5 1 5 0 1 0 1\
    /0 m 5 1 2 0 1 0 1/0 m 5 1 0 0 3 0 3/0 m 5 1 0 0 4 0 4/0 m 5 1 4 0 4 0 0 \
    => 1 row 1 agree 1 0 taken 2/row 2 near 1 0 taken 2/row 3 off 1 0 taken 2/row 4 scale/row 5 outside\
    /row 6 blocked/row 7 none taken 1/row 8 none taken 0/row 9 agree 0 0 taken 1\
    /sum 9 agree 2 near 1 off 1 other 5 taken 8
taken | scen m s show=taken engine=by-arrival rule=none | ...@./.@.@./..... | version 1/8 m 5 3 0 0 4 0 8 \
    => 0 row 1 agree 8 0 taken 8/sum 1 agree 1 near 0 off 0 other 0 taken 8
taken | scen m s show=taken engine=by-cell rule=none | ...@./.@.@./..... | version 1/8 m 5 3 0 0 4 0 8 \
    => 0 row 1 agree 8 0 taken 6/sum 1 agree 1 near 0 off 0 other 0 taken 6
taken | scen m s show=taken engine=by-arrival rule=slipping | ...@./.@.@./..... \
    | version 1/1 m 5 3 0 0 4 0 6.24264 \
    => 0 row 1 agree 2 3 taken 9/sum 1 agree 1 near 0 off 0 other 0 taken 9
taken | scen m s show=taken engine=by-cell rule=slipping | ...@./.@.@./..... \
    | version 1/1 m 5 3 0 0 4 0 6.24264 \
    => 0 row 1 agree 2 3 taken 8/sum 1 agree 1 near 0 off 0 other 0 taken 8
taken | scen m s show=taken engine=boxes rule=any | ..@.W | version 1/0 m 5 1 0 0 1 0 1/0 m 5 1 0 0 3 0 3 \
    => 1 row 1 agree 1 0 taken 2/row 2 none taken 1/sum 2 agree 1 near 0 off 0 other 1 taken 3
taken | scen m s show=taken engine=moves rule=any | ..@.W | version 1 => 2 jps: word 5
agree, done, streams | scen m s engine=any rule=any | .. | version 1/0 m 2 1 1 0 0 0 1.0 \
    => 0 row 1 agree 1 0/sum 1 agree 1 near 0 off 0 other 0
near, done | scen m s engine=any rule=any | .. | version 1.0/~3/0 m 2 1 0 0 1 0 1.005 \
    => 0 row 1 near 1 0/sum 1 agree 0 near 1 off 0 other 0
empty, done | scen m s engine=any rule=any | .. | version 1 => 0 sum 0 agree 0 near 0 off 0 other 0
water | scen m s engine=any rule=none | W.W/WWW | version 1/0 m 3 2 0 0 2 0 4/0 m 3 2 0 0 0 1 1 \
    => 0 row 1 agree 4 0/row 2 agree 1 0/sum 2 agree 2 near 0 off 0 other 0
water | scen m s engine=any rule=slipping | W.W/WWW | version 1/0 m 3 2 0 0 2 0 2.82842712/0 m 3 2 0 0 2 0 4 \
    => 1 row 1 agree 0 2/row 2 off 0 2/sum 2 agree 1 near 0 off 1 other 0
states | scen m s states=cell engine=jumpless rule=any | ... | version 1 => 2 jps: word 5
states | scen m s engine=jumpless states=arrival rule=any | ... | version 1 => 2 jps: word 5
tables, streams | scen m s tables=t engine=loading rule=any | ... | version 1/0 m 3 1 0 0 2 0 2 | % \
    => 0 row 1 agree 2 0/sum 1 agree 1 near 0 off 0 other 0
water tables | scen m s tables=t engine=loading rule=any | .WW | version 1/0 m 3 1 1 0 2 0 1 | %water \
    => 0 row 1 agree 1 0/sum 1 agree 1 near 0 off 0 other 0
tables | scen m s tables=t engine=other rule=any | ... | version 1 | % => 2 jps: word 5
tables | scen m s tables=t engine=small rule=any | ... | version 1 | % => 2 jps: word 5
";

#[test]
fn scenarios_are_judged_by_each_engine_under_each_rule(rt: HostRuntime) -> Result<(), Fail> {
    check_table(rt.alloc(), &rt, SCENARIOS)
}

// Walks on the row `..@.W`, and round the land cell of the bay.
pub(crate) const CLAIMED: &str = "
accepted, none, apart, point, water, done, streams | judge m s t rule=any | ..@.W \
    | version 1/0 m 5 1 0 0 1 0 1/0 m 5 1 0 0 3 0 3/0 m 5 1 4 0 4 0 0/0 m 5 1 0 0 4 0 4 \
    | 0,0 1,0/none/4,0/none \
    => 0 row 1 accepted 1 0/row 2 accepted none/row 3 accepted 0 0/row 4 accepted none\
    /sum 4 accepted 4 refused 0 other 0
refused, scale, outside, blocked, apart, point | judge m s t rule=any | ..@.W \
    | version 1/0 m 5 1 0 0 1 0 1/0 m 5 1 0 0 1 0 1/0 m 5 1 0 0 1 0 1/0 m 5 1 0 0 1 0 1/0 m 5 2 0 0 1 0 1\
    /0 m 5 1 5 0 1 0 1/0 m 5 1 2 0 1 0 1/0 m 5 1 0 0 4 0 4/0 m 5 1 4 0 4 0 0 \
    | none/0,0 1,0 0,0 1,0/0,0 3,0/1,0/none/none/none/0,0 4,0/4,0 \
    => 1 row 1 refused none 1 0/row 2 refused longer 3 0 1 0/row 3 refused walk 1/row 4 refused walk 0\
    /row 5 scale/row 6 outside/row 7 blocked/row 8 refused walk 1/row 9 accepted 0 0\
    /sum 9 accepted 1 refused 5 other 3
water | judge m s t rule=none | W.W/WWW | version 1/0 m 3 2 0 0 2 0 4/0 m 3 2 0 0 2 0 4 \
    | 0,0 0,1 2,1 2,0/0,0 1,1 2,0 \
    => 1 row 1 accepted 4 0/row 2 refused walk 1/sum 2 accepted 1 refused 1 other 0
water | judge m s t rule=slipping | W.W/WWW | version 1/0 m 3 2 0 0 2 0 4/0 m 3 2 0 0 2 0 4 \
    | 0,0 0,1 2,1 2,0/0,0 1,1 2,0 \
    => 1 row 1 refused longer 4 0 0 2/row 2 accepted 0 2/sum 2 accepted 1 refused 1 other 0
water, done | judge m s t rule=any | WWW | version 1/0 m 3 1 0 0 2 0 2/0 m 3 1 2 0 2 0 0 | 0,0 2,0/2,0 \
    => 0 row 1 accepted 2 0/row 2 accepted 0 0/sum 2 accepted 2 refused 0 other 0
empty, done | judge m s t rule=any | . | version 1 => 0 sum 0 accepted 0 refused 0 other 0
K1 | judge m s t rule=any | .. | version 1/0 m 2 1 0 0 1 0 1/0 m 2 1 0 0 1 0 1 | none/0;0 1,0 \
    => 3 jps: walks K1 line 2
K2 | judge m s t rule=any | .. | version 1/0 m 2 1 0 0 1 0 1/0 m 2 1 0 0 1 0 1 | none/~1/none/none \
    => 3 jps: walks K2 line 4
K2 | judge m s t rule=any | .. | version 1/0 m 2 1 0 0 1 0 1/0 m 2 1 0 0 1 0 1 | none/~1 \
    => 3 jps: walks K2 line 3
";

#[test]
fn claimed_walks_are_judged_under_each_rule(rt: HostRuntime) -> Result<(), Fail> {
    check_table(rt.alloc(), &rt, CLAIMED)
}

// Listed are the cells whose sum is below the least cost; of the pillar see docs/FORMATS.md.
pub(crate) const PROVED: &str = "
least, streams | prove m 0 0 2 0 rule=any | ... \
    => 0 jps-cert 1/size 3 1/ends 0 0 2 0/least 2 0/points 0,0 2,0/end
least | prove m 0 0 2 2 rule=none | .../.@./... \
    => 0 jps-cert 1/size 3 3/ends 0 0 2 2/least 4 0/points 0,0 2,0 2,2/value 0 0 0 0/value 1 0 1 0\
    /value 0 1 1 0/end
least | prove m 0 0 2 2 rule=slipping | .../.@./... \
    => 0 jps-cert 1/size 3 3/ends 0 0 2 2/least 2 1/points 0,0 1,0 2,1 2,2/value 0 0 0 0/end
water | prove m 2 0 0 0 rule=any | WWW \
    => 0 jps-cert 1/size 3 1/ends 2 0 0 0/least 2 0/points 2,0 0,0/end
water | prove m 0 0 2 0 rule=none | W.W/WWW \
    => 0 jps-cert 1/size 3 2/ends 0 0 2 0/least 4 0/points 0,0 0,1 2,1 2,0\
    /value 0 0 0 0/value 0 1 1 0/value 1 1 2 0/end
water | prove m 0 0 2 0 rule=slipping | W.W/WWW \
    => 0 jps-cert 1/size 3 2/ends 0 0 2 0/least 0 2/points 0,0 1,1 2,0/value 0 0 0 0/end
point | prove m 1 0 1 0 rule=any | ... => 0 jps-cert 1/size 3 1/ends 1 0 1 0/least 0 0/points 1,0/end
point, water | prove m 0 0 0 0 rule=any | W => 0 jps-cert 1/size 1 1/ends 0 0 0 0/least 0 0/points 0,0/end
none | prove m 1 0 3 0 rule=any | ..@. => 0 jps-cert 1/size 4 1/ends 1 0 3 0/none/in 0 0/in 1 0/end
none | prove m 0 0 1 1 rule=strict | .@/@. => 0 jps-cert 1/size 2 2/ends 0 0 1 1/none/in 0 0/end
none, water | prove m 0 0 2 0 rule=any | W.W => 0 jps-cert 1/size 3 1/ends 0 0 2 0/none/in 0 0/end
apart | prove m 0 0 1 0 rule=any | .W => 1 apart
apart, water | prove m 1 0 0 0 rule=any | .W => 1 apart
outside, streams | prove m 0 0 2 0 rule=any | @. => 1 outside
blocked | prove m 0 0 1 0 rule=any | @. => 1 blocked
";

#[test]
fn certificates_are_printed_under_each_rule(rt: HostRuntime) -> Result<(), Fail> {
    check_table(rt.alloc(), &rt, PROVED)
}

// A listed value takes the place of the least cost less the estimate; no other end of a move is listed.
pub(crate) const CHECKED: &str = "
least, streams | check m s rule=any | ... | jps-cert 1/size 3 1/ends 0 0 2 0/least 2 0/points 0,0 2,0/end \
    => 0 accepted least 2 0
least | check m s rule=any | ... \
    | jps-cert 1/size 3 1/ends 0 0 2 0/least 2 0/points 0,0 1,0 2,0/value 0 0 0 0/value 1 0 1 0/end \
    => 0 accepted least 2 0
least | check m s rule=slipping | .../.@./... \
    | jps-cert 1/size 3 3/ends 0 0 2 2/least 2 1/points 0,0 1,0 2,1 2,2/value 0 0 0 0/end \
    => 0 accepted least 2 1
water | check m s rule=any | WWW | jps-cert 1/size 3 1/ends 0 0 2 0/least 2 0/points 0,0 2,0/end \
    => 0 accepted least 2 0
point | check m s rule=any | ... | jps-cert 1/size 3 1/ends 1 0 1 0/least 0 0/points 1,0/end \
    => 0 accepted least 0 0
point, water | check m s rule=any | W | jps-cert 1/size 1 1/ends 0 0 0 0/least 0 0/points 0,0/end \
    => 0 accepted least 0 0
none | check m s rule=any | ..@. | jps-cert 1/size 4 1/ends 1 0 3 0/none/in 0 0/in 1 0/end => 0 accepted none
none, water | check m s rule=any | W.W | jps-cert 1/size 3 1/ends 0 0 2 0/none/in 0 0/end => 0 accepted none
size, streams | check m s rule=any | .. | jps-cert 1/size 3 1/ends 0 0 2 0/least 2 0/points 0,0 2,0/end \
    => 1 refused size
ends | check m s rule=any | ..@ | jps-cert 1/size 3 1/ends 0 0 2 0/least 2 0/points 0,0 2,0/end \
    => 1 refused ends
ends, apart | check m s rule=any | .W | jps-cert 1/size 2 1/ends 0 0 1 0/none/in 0 0/end => 1 refused ends
walk | check m s rule=any | ... | jps-cert 1/size 3 1/ends 0 0 2 0/least 2 0/points 1,0 2,0/end \
    => 1 refused walk 0
walk | check m s rule=any | .@. | jps-cert 1/size 3 1/ends 0 0 2 0/least 2 0/points 0,0 2,0/end \
    => 1 refused walk 1
walk | check m s rule=any | ... | jps-cert 1/size 3 1/ends 0 0 2 0/least 3 0/points 0,0 2,0/end \
    => 1 refused walk 2
start | check m s rule=any | ... \
    | jps-cert 1/size 3 1/ends 0 0 2 0/least 2 0/points 0,0 2,0/value 0 0 1 0/end => 1 refused start
start, none | check m s rule=any | .@. | jps-cert 1/size 3 1/ends 0 0 2 0/none/end => 1 refused start
goal | check m s rule=any | ... \
    | jps-cert 1/size 3 1/ends 0 0 2 0/least 2 0/points 0,0 2,0/value 2 0 1 0/end => 1 refused goal
goal, none | check m s rule=any | .@. | jps-cert 1/size 3 1/ends 0 0 2 0/none/in 0 0/in 2 0/end \
    => 1 refused goal
move | check m s rule=any | ... \
    | jps-cert 1/size 3 1/ends 0 0 2 0/least 2 0/points 0,0 2,0/value 1 0 2 0/end => 1 refused move 0,0 1,0
open, none | check m s rule=any | ... | jps-cert 1/size 3 1/ends 0 0 2 0/none/in 0 0/end \
    => 1 refused open 0,0 1,0
P1 | check m s rule=any | ... | jps-cert 2/size 3 1 => 3 jps: cert P1 line 1
P1, none | check m s rule=any | .@. | jps-cert 1/size 3 1/ends 0 0 2 0/none/in 0 0/end/end \
    => 3 jps: cert P1 line 7
P1, point | check m s rule=any | ... | jps-cert 1/size 3 1/ends 1 0 1 0/least 0 0/points 1,0 \
    => 3 jps: cert P1 line 6
P2 | check m s rule=any | ... \
    | jps-cert 1/size 3 1/ends 0 0 2 0/least 2 0/points 0,0 2,0/value 1 0 1 0/value 1 0 1 0/end \
    => 3 jps: cert P2 line 7
P2, none | check m s rule=any | .@. | jps-cert 1/size 3 1/ends 0 0 2 0/none/in 1 0/in 0 0/end \
    => 3 jps: cert P2 line 6
";

#[test]
fn certificates_are_judged_under_each_rule(rt: HostRuntime) -> Result<(), Fail> {
    check_table(rt.alloc(), &rt, CHECKED)
}
