//! Rows of `costs`, `boxes`, `moves`, `make`, `--version` and `tables`, and pictures, counted on squared
//! paper.

use crate::table::{Row, Trial, check_calls, check_table, is_shown, row_of, sides_of};
use std::alloc::{AllocError, Global};
use std::process::Abort;
use std::test::Fail;

// Beside a pillar a diagonal move is legal where one blocked cell may be passed, and between two blocked
// cells where both may be.
pub(crate) const CELLS: &str = "
costs, streams | costs m 1 0 rule=any | ...@. => 0 1,0 0,0 1,0 - -
costs | costs m 0 0 rule=any | ../.. => 0 0,0 1,0/1,0 0,1
costs | costs m 0 0 rule=none | .../.@./... => 0 0,0 1,0 2,0/1,0 - 3,0/2,0 3,0 4,0
costs | costs m 0 0 rule=slipping | .../.@./... => 0 0,0 1,0 2,0/1,0 - 1,1/2,0 1,1 2,1
costs | costs m 0 0 rule=strict | .@/@. => 0 0,0 -/- -
water | costs m 1 0 rule=any | .WW => 0 - 0,0 1,0
outside | costs m 0 1 rule=any | .. => 0 outside
blocked | costs m 1 0 rule=any | .T => 0 blocked
boxes, streams | boxes m 1 0 rule=any | ... \
    => 0 box N none/box NE none/box E 2 0 2 0/box SE none/box S none/box SW none/box W 0 0 0 0/box NW none
boxes | boxes m 0 0 rule=any | .../.@./... \
    => 0 box N none/box NE none/box E 1 0 2 2/box SE none/box S 0 1 2 2/box SW none/box W none/box NW none
boxes | boxes m 0 0 rule=strict | .@/@. \
    => 0 box N none/box NE none/box E none/box SE none/box S none/box SW none/box W none/box NW none
water | boxes m 1 0 rule=any | .WW \
    => 0 box N none/box NE none/box E 2 0 2 0/box SE none/box S none/box SW none/box W none/box NW none
outside | boxes m 2 0 rule=any | .. => 0 outside
blocked | boxes m 1 0 rule=any | .O => 0 blocked
moves, streams | moves m 1 0 rule=any | ... => 0 run 0,0 W/run 1,0 -/run 2,0 E
moves | moves m 0 0 rule=any | .../.@./... \
    => 0 run 0,0 -/run 1,0 E/run 0,1 S/run 1,1 -/run 2,1 E/run 0,2 S/run 2,2 E
moves | moves m 0 0 rule=strict | .@/@. => 0 run 0,0 -
water | moves m 1 0 rule=any | .WW => 0 run 0,0 -/run 2,0 E
outside | moves m 2 0 rule=any | .. => 0 outside
blocked | moves m 1 0 rule=any | .@ => 0 blocked
tables, streams | tables m rule=any | ... | | % => 0 %
water tables | tables m rule=any | .WW | | %water => 0 %
make, streams | make 7 3 2 0 => 0 type octile/height 2/width 3/map/.../...
make | make 0 2 1 100 => 0 type octile/height 1/width 2/map/@@
version, streams | --version => 0 jps 1.3.0
";

#[test]
fn cells_are_printed_under_each_rule(rt: HostRuntime) -> Result<(), Fail> {
    check_table(rt.alloc(), &rt, CELLS)
}

// Of the strokes the runs of swamp, trees, other blocked cells and water, and where they are shown of the
// taken states; then the points, none where no walk exists, and the head of the title. The row of trees and
// water under the upper one marks nothing, as no cell of land lies in it.
pub(crate) const PICTURES: &str = "
walk | draw m 0 0 2 0 engine=each rule=any | .S.@/TW@O | M1 0h1;M0 1h1;M3 0h1M2 1h2;M1 1h1 | 0,0 2,0 \
    => 0 walk 2 0
walk, streams | draw m 0 0 2 0 engine=each rule=any show=points | G.. | ;;; | 0,0 2,0 => 0 walk 2 0
trace | draw m 0 0 2 0 show=trace engine=plain rule=any | .S.@/TW@O \
    | M1 0h1;M0 1h1;M3 0h1M2 1h2;M1 1h1;M0 0h1M1 0h1M2 0h1 | 0,0 2,0 => 0 walk 2 0
trace | draw m 0 0 2 0 show=trace engine=jumping rule=any | .S.@/TW@O \
    | M1 0h1;M0 1h1;M3 0h1M2 1h2;M1 1h1;M0 0h1M2 0h1 | 0,0 2,0 => 0 walk 2 0
trace | draw m 0 0 2 2 show=trace engine=by-arrival rule=none | .../.@./... \
    | ;;M1 1h1;;M0 0h1M2 0h1M0 2h1M2 2h1 | 0,0 0,2 2,2 => 0 walk 4 0
trace | draw m 0 0 2 2 show=trace engine=by-cell rule=none | .../.@./... \
    | ;;M1 1h1;;M0 0h1M2 0h1M0 2h1M2 2h1 | 0,0 2,0 2,2 => 0 walk 4 0
water | draw m 0 0 2 0 engine=each rule=none | W.W/WWW | ;;;M0 0h1M2 0h1M0 1h3 | 0,0 0,1 2,1 2,0 => 0 walk 4 0
water | draw m 0 0 2 0 engine=each rule=slipping | W.W/WWW | ;;;M0 0h1M2 0h1M0 1h3 | 0,0 1,1 2,0 => 0 walk 0 2
point | draw m 1 0 1 0 show=trace engine=each rule=any | .S. | M1 0h1;;;;M1 0h1 | 1,0 => 0 walk 0 0
none | draw m 0 0 2 0 engine=each rule=any | .@. | ;;M1 0h1; => 0 none
none, trace | draw m 0 0 2 0 show=trace engine=each rule=any | .@. | ;;M1 0h1;;M0 0h1 => 0 none
apart | draw m 0 0 1 0 engine=each rule=any | .W | ;;;M1 0h1 => 0 none
apart, trace | draw m 1 0 0 0 show=trace engine=each rule=any | .W | ;;;M1 0h1; => 0 none
";

const COLOURS: [&str; 5] = ["c9bf8f", "5c8a57", "3b3f46", "8fbfe0", "f2b84b"];

// The picture of a row, by the description of the format; its map has at most 31 columns and rows.
fn picture_of(alloc: Global, row: Row<'_>) -> Result<String, AllocError> {
    let mut words = row.words.split_whitespace().skip(2);
    let sx = words.next().unwrap_or("");
    let sy = words.next().unwrap_or("");
    let gx = words.next().unwrap_or("");
    let gy = words.next().unwrap_or("");
    let (width, height) = sides_of(row.map);
    let head = row.lines;
    let mut text = format!(in alloc;
        "<svg xmlns=\"http://www.w3.org/2000/svg\" viewBox=\"0 0 {width} {height}\">\n\
        <title>{head} from {sx},{sy} to {gx},{gy}</title>\n\
        <rect width=\"{width}\" height=\"{height}\" fill=\"#f4f1e8\"/>\n"
    )?;
    for (colour, runs) in COLOURS.into_iter().zip(row.second.split(';')) {
        let stroke = format!(in alloc;
            "<path transform=\"translate(0 .5)\" shape-rendering=\"crispEdges\" stroke=\"#{colour}\" \
            d=\"{runs}\"/>\n"
        )?;
        text.push_str(stroke.as_str())?;
    }
    if !row.third.is_empty() {
        let points = row.third;
        let walk = format!(in alloc;
            "<polyline transform=\"translate(.5 .5)\" fill=\"none\" stroke=\"#d1352b\" stroke-width=\"0.4\" \
            points=\"{points}\"/>\n"
        )?;
        text.push_str(walk.as_str())?;
    }
    let ends = format!(in alloc;
        "<circle cx=\"{sx}.5\" cy=\"{sy}.5\" r=\"0.4\" fill=\"#1f6f43\"/>\n\
        <circle cx=\"{gx}.5\" cy=\"{gy}.5\" r=\"0.4\" fill=\"#7b2d8b\"/>\n</svg>\n"
    )?;
    text.push_str(ends.as_str())?;
    Ok(text)
}

// The pictures of the rows, each by all its calls; where calls fail, of those that show their streams.
pub(crate) fn check_pictures(alloc: Global, rt: &impl Abort, trial: Trial) -> Result<(), Fail> {
    for line in PICTURES.lines() {
        let Some(row) = row_of(line) else {
            continue;
        };
        if trial == Trial::Whole || is_shown(row, "streams") {
            let picture = picture_of(alloc, row)?;
            check_calls(alloc, rt, row, (picture.as_bytes(), b""), trial)?;
        }
    }
    Ok(())
}

pub(crate) const UNDRAWN: &str = "
outside, streams | draw m 0 0 2 0 engine=each rule=any | .. => 1 outside
outside | draw m 0 0 2 0 show=trace engine=each rule=any | @. => 1 outside
blocked | draw m 0 0 1 0 engine=each rule=any | .T => 1 blocked
blocked | draw m 1 0 1 0 show=trace engine=each rule=any | .O => 1 blocked
states | draw m 0 0 1 0 states=cell engine=plain rule=any | .. => 2 jps: word 8
states | draw m 0 0 1 0 engine=plain states=arrival rule=any | .. => 2 jps: word 8
";

#[test]
fn queries_are_drawn_by_each_engine_under_each_rule(rt: HostRuntime) -> Result<(), Fail> {
    check_table(rt.alloc(), &rt, UNDRAWN)?;
    check_pictures(rt.alloc(), &rt, Trial::Whole)
}
