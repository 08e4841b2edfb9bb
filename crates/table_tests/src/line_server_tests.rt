//! Sessions that answer lines, by values worked by hand.

ghost use Rattle.std.specs.Prelude.{◌≡◌, ◌<◌};

use edit_replay::{Engine, Layout, Session};
use grid_moves::Corner;
use io_edge::MemSink;
use line_server::LineServer;
use map_text::read_map;
use std::alloc::{AllocError, Global};
use std::marker::Brand;
use std::process::Abort;
use std::sync::ledger::{Blank, Ledger};
use std::test::Fail;
use steps::Steps;
use word_list::Show;

const RULES: [Corner; 3] = [Corner::Never, Corner::One, Corner::Both];

const ONE: &[u8] = b"type octile\nheight 1\nwidth 1\nmap\n.\n";

// A map, and a text that comes in.
#[derive(Clone, Copy)]
struct Talk<'a> {
    map: &'a [u8],
    corner: Corner,
    text: &'a [u8],
}

// A server on the map of the talk.
fn server_on(
    alloc: Global,
    rt: &impl Abort,
    talk: Talk<'_>,
    engine: Engine,
) -> Result<LineServer, Fail> {
    assert!(rt; talk.map.len() < 100);
    let map = read_map(alloc, talk.map)?;
    let session = Session::new(alloc, &map, engine, talk.corner)?;
    let server = LineServer::new(alloc, session, Show::Cells)?;
    Ok(server)
}

// In pieces of so many bytes the text has these answers.
fn check_pieces<L: Ledger>(
    alloc: Global,
    rt: &impl Abort,
    talk: Talk<'_>,
    engine: Engine,
    size: usize,
    answers: &[u8],
    blank: Blank,
) -> Result<(), Fail>
    requires name { blank.name ≡ L.name }
    requires parts { blank.parts ≡ L.parts }
    requires some { 0 < L.parts }
{
    assert!(rt; size > 0);
    let mut steps = Steps::<L>::new(blank);
    let mut server = server_on(alloc, rt, talk, engine)?;
    let mut out = MemSink::new(alloc, 1000, 5, Vec::new(alloc))?;
    for piece in talk.text.chunks(size) {
        assert!(rt; server.feed(alloc, piece, &mut out, &mut steps).is_ok());
    }
    assert!(rt; server.end(alloc, &mut out, &mut steps).is_ok());
    assert_eq!(rt; out.bytes(), answers, "{engine:?} in pieces of {size}");
    Ok(())
}

// By two engines, byte by byte and whole, the text has these answers.
fn check(alloc: Global, rt: &impl Abort, talk: Talk<'_>, answers: &[u8]) -> Result<(), Fail> {
    for engine in [Engine::Plain, Engine::Block(Layout::ByCell)] {
        for size in [1, 4096] {
            check_pieces::<Brand>(alloc, rt, talk, engine, size, answers, Blank::new(1))?;
        }
    }
    Ok(())
}

// On the map `.@./.../.@.` the middle is blocked, freed and flooded: it parts the columns, and joins them.
// The goals of `near` are reached, behind the block, on it, and in the other layer.
#[test]
fn what_edits_part_and_join(rt: HostRuntime) -> Result<(), Fail> {
    let map = b"type octile\nheight 3\nwidth 3\nmap\n.@.\n...\n.@.\n";
    let text =
        b"query 0 1 2 1\nnear 0 1 2 1\nblock 1 1\nquery 0 1 2 1\nnear 0 0 2 0\nnear 0 0 2 1\n\
near 0 0 1 1\nfree 1 1\nfree 1 1\nquery 0 1 2 1\nflood 1 1\nquery 0 1 1 1\nnear 0 1 1 1\n\
near 1 1 0 0\n";
    let answers = b"walk 2 0 0,1 1,1 2,1\nwalk 2 0 0,1 1,1 2,1\nok\nnone\nwalk 0 0 0,0\n\
walk 1 0 0,0 0,1\nwalk 1 0 0,0 0,1\nok\nsame\nwalk 2 0 0,1 1,1 2,1\nok\nnone\nwalk 0 0 0,1\n\
walk 0 0 1,1\n";
    for corner in RULES {
        check(rt.alloc(), &rt, Talk { map, corner, text }, answers)?;
    }
    Ok(())
}

// On the map `...../.@@@./.....` one of the doors at the borders is closed, then both, and one is opened.
#[test]
fn what_closed_doors_leave(rt: HostRuntime) -> Result<(), Fail> {
    let map = b"type octile\nheight 3\nwidth 5\nmap\n.....\n.@@@.\n.....\n";
    let text =
        b"block 0 1\nquery 0 0 0 2\nnear 0 0 0 1\nblock 4 1\nquery 0 0 0 2\nnear 0 0 0 2\nfree 0 1\n\
query 0 0 0 2\n";
    let answers: [&[u8]; 2] = [
        b"ok\nwalk 10 0 0,0 1,0 2,0 3,0 4,0 4,1 4,2 3,2 2,2 1,2 0,2\nwalk 0 0 0,0\nok\nnone\n\
walk 0 0 0,0\nok\nwalk 2 0 0,0 0,1 0,2\n",
        b"ok\nwalk 6 2 0,0 1,0 2,0 3,0 4,1 3,2 2,2 1,2 0,2\nwalk 0 0 0,0\nok\nnone\n\
walk 0 0 0,0\nok\nwalk 2 0 0,0 0,1 0,2\n",
    ];
    for i in 0..3 {
        let corner = RULES[i];
        let told = if i == 0 { answers[0] } else { answers[1] };
        check(rt.alloc(), &rt, Talk { map, corner, text }, told)?;
    }
    Ok(())
}

// On the map `../@.` a corner is cut or not, and where the upper right cell is blocked too, the ends of the
// diagonal are joined under the third rule alone.
#[test]
fn what_each_rule_joins(rt: HostRuntime) -> Result<(), Fail> {
    let map = b"type octile\nheight 2\nwidth 2\nmap\n..\n@.\n";
    let text = b"query 0 0 1 1\nblock 1 0\nquery 0 0 1 1\nnear 0 0 1 1\nfree 0 1\nquery 0 0 1 1\n";
    let answers: [&[u8]; 3] = [
        b"walk 2 0 0,0 1,0 1,1\nok\nnone\nwalk 0 0 0,0\nok\nwalk 2 0 0,0 0,1 1,1\n",
        b"walk 0 1 0,0 1,1\nok\nnone\nwalk 0 0 0,0\nok\nwalk 0 1 0,0 1,1\n",
        b"walk 0 1 0,0 1,1\nok\nwalk 0 1 0,0 1,1\nwalk 0 1 0,0 1,1\nok\nwalk 0 1 0,0 1,1\n",
    ];
    for i in 0..3 {
        let corner = RULES[i];
        check(rt.alloc(), &rt, Talk { map, corner, text }, answers[i])?;
    }
    Ok(())
}

// On the map `.../.@.` the block is passed above, by its corner where that may be cut; then the middle column
// is blocked, and flooded.
#[test]
fn fields_and_costs_are_framed(rt: HostRuntime) -> Result<(), Fail> {
    let map = b"type octile\nheight 2\nwidth 3\nmap\n...\n.@.\n";
    let text =
        b"field 0 0\ncosts 0 0\nblock 1 0\nfield 0 0\ncosts 2 1\nfield 1 0\ncosts 3 0\nflood 1 0\n\
field 1 0\n";
    let answers: [&[u8]; 2] = [
        b"field 3 2\n*66\n0-0\ncosts 3 2\n0,0 1,0 2,0\n1,0 - 3,0\nok\nfield 3 2\n*--\n0--\n\
costs 3 2\n- - 1,0\n- - 0,0\nblocked\noutside\nok\nfield 3 2\n-*-\n---\n",
        b"field 3 2\n*66\n0-7\ncosts 3 2\n0,0 1,0 2,0\n1,0 - 1,1\nok\nfield 3 2\n*--\n0--\n\
costs 3 2\n- - 1,0\n- - 0,0\nblocked\noutside\nok\nfield 3 2\n-*-\n---\n",
    ];
    for i in 0..2 {
        let corner = RULES[i];
        check(rt.alloc(), &rt, Talk { map, corner, text }, answers[i])?;
    }
    Ok(())
}

// Each refused line leaves the session as it was; a last line of a walk needs no line feed.
#[test]
fn refused_lines_change_nothing(rt: HostRuntime) -> Result<(), Fail> {
    let text =
        b"query 0 0 0\nquery 0 0 0 0 0\nquery 0 0 0 -1\nquery 0 0 0 1234567890\nQUERY 0 0 0 0\n\
near 0 0\nfield 0\ncosts 0 0 0\nblock\x000 0\n\xff\xfe 0 0\n\r\r\nquery 0 0 0 123456789\nnear 1 0 0 0\n\
near 0 0 0 1\n\n \t\n\r\nblock 1 0\nfree 0 0\r\nblock 0 0\nnear 0 0 0 0\nquery 0 0 0 0\nfree 0 0\n\
query 0 0 0 0";
    let answers =
        b"refused T1\nrefused T1\nrefused T1\nrefused T1\nrefused T1\nrefused T1\nrefused T1\n\
refused T1\nrefused T1\nrefused T1\nrefused T1\noutside\noutside\noutside\noutside\nsame\nok\nblocked\n\
blocked\nok\nwalk 0 0 0,0\n";
    let talk = Talk {
        map: ONE,
        corner: Corner::Never,
        text,
    };
    check(rt.alloc(), &rt, talk, answers)
}

// A line that is filled up to so many bytes by blanks, and its end.
fn put_line(text: &mut Vec<u8>, line: &[u8], bytes: usize, end: &[u8]) -> Result<(), AllocError> {
    text.extend_from_slice(line)?;
    for _ in line.len()..bytes {
        text.push(b' ')?;
    }
    text.extend_from_slice(end)
}

// Of 129 bytes, a carriage return counted, a line is too long, and is not obeyed; the last one needs no line
// feed.
#[test]
fn long_lines_are_not_obeyed(rt: HostRuntime) -> Result<(), Fail> {
    let mut text = Vec::new(rt.alloc());
    put_line(&mut text, b"block 0 0", 129, b"\n")?;
    put_line(&mut text, b"free 0 0", 128, b"\n")?;
    put_line(&mut text, b"block 0 0", 128, b"\r\n")?;
    put_line(&mut text, b"free 0 0", 127, b"\r\n")?;
    put_line(&mut text, b"", 128, b"\n")?;
    put_line(&mut text, b"", 300, b"\n")?;
    put_line(&mut text, b"block 0 0", 128, b"\n")?;
    put_line(&mut text, b"", 129, b"")?;
    let talk = Talk {
        map: ONE,
        corner: Corner::Never,
        text: text.as_slice(),
    };
    check(
        rt.alloc(),
        &rt,
        talk,
        b"refused T2\nsame\nrefused T2\nsame\nrefused T2\nok\nrefused T2\n",
    )
}

// The fourth write of three bytes fails: a first part of the answers is written.
fn check_failing<L: Ledger>(alloc: Global, rt: &impl Abort, blank: Blank) -> Result<(), Fail>
    requires name { blank.name ≡ L.name }
    requires parts { blank.parts ≡ L.parts }
    requires some { 0 < L.parts }
{
    let talk = Talk {
        map: ONE,
        corner: Corner::Never,
        text: b"block 0 0\nfree 0 0\nquery 0 0 0 0\nquery 0 0 0 0\n",
    };
    let mut steps = Steps::<L>::new(blank);
    let mut server = server_on(alloc, rt, talk, Engine::Plain)?;
    let mut out = MemSink::new(alloc, 100, 3, vec![in alloc; 4]?)?;
    assert!(rt; server.feed(alloc, talk.text, &mut out, &mut steps).is_err());
    assert_eq!(rt; out.bytes(), b"ok\nok\nwal".as_slice());
    Ok(())
}

#[test]
fn a_failed_write_stops_the_answers(rt: HostRuntime) -> Result<(), Fail> {
    check_failing::<Brand>(rt.alloc(), &rt, Blank::new(1))
}

// This line, so many times in one piece, has answers of so many bytes in the first write; a second write fails,
// if there is one.
fn check_first_write<L: Ledger>(
    alloc: Global,
    rt: &impl Abort,
    talk: Talk<'_>,
    times: usize,
    bytes: usize,
    is_all: bool,
    blank: Blank,
) -> Result<(), Fail>
    requires name { blank.name ≡ L.name }
    requires parts { blank.parts ≡ L.parts }
    requires some { 0 < L.parts }
{
    let mut steps = Steps::<L>::new(blank);
    let mut server = server_on(alloc, rt, talk, Engine::Plain)?;
    let mut piece = Vec::new(alloc);
    for _ in 0..times {
        piece.extend_from_slice(talk.text)?;
    }
    let mut out = MemSink::new(alloc, 70_000, 70_000, vec![in alloc; 2]?)?;
    let fed = server.feed(alloc, piece.as_slice(), &mut out, &mut steps);
    assert_eq!(rt; fed.is_ok(), is_all, "{times} lines");
    assert_eq!(rt; out.bytes().len(), bytes, "{times} lines");
    Ok(())
}

// 200 answers `walk 0 0 0,0` are one write. On a row of 40 cells an answer to `costs` has 201 bytes, 11 of them
// in its first line: 326 of them have 65,526 bytes, and one more is more than 64 KiB.
#[test]
fn answers_to_a_piece_are_one_write_up_to_64_kib(rt: HostRuntime) -> Result<(), Fail> {
    let alloc = rt.alloc();
    let walks = Talk {
        map: ONE,
        corner: Corner::Never,
        text: b"query 0 0 0 0\n",
    };
    let costs = Talk {
        map: b"type octile\nheight 1\nwidth 40\nmap\n........................................\n",
        corner: Corner::Never,
        text: b"costs 0 0\n",
    };
    for (talk, times, bytes, is_all) in [
        (walks, 200, 2600, true),
        (costs, 326, 65_526, true),
        (costs, 327, 65_526, false),
    ] {
        check_first_write::<Brand>(alloc, &rt, talk, times, bytes, is_all, Blank::new(1))?;
    }
    Ok(())
}
