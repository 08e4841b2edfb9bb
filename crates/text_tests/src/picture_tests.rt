use grid_moves::Cell;
use map_text::read_map;
use picture::*;
use root2_cost::Cost;
use std::alloc::Global;
use std::test::*;
use text_line::put;

// The lines, with a line feed behind each.
fn text_of(alloc: Global, lines: &[&[u8]]) -> Result<Vec<u8>, NoMemory> {
    let mut text = Vec::new(alloc);
    for line in lines {
        put(&mut text, line)?;
        put(&mut text, b"\n")?;
    }
    Ok(text)
}

// The lines are those of the format's description, written by hand.
#[test]
fn a_walk_and_its_taken_states_are_drawn(rt: HostRuntime) -> Result<(), Fail> {
    let map = read_map(
        rt.alloc(),
        b"type octile\nheight 2\nwidth 4\nmap\n..GT\nS@OW\n",
    )?;
    let (start, goal) = (Cell { x: 0, y: 0 }, Cell { x: 2, y: 0 });
    let walk = DrawnWalk {
        points: &[start, goal],
        cost: Cost { a: 2, b: 0 },
    };
    let text = draw(
        rt.alloc(),
        &map,
        start,
        goal,
        Some(walk),
        Some(&[8, 17, 24]),
    )?;
    let lines = text_of(
        rt.alloc(),
        &[
            b"<svg xmlns=\"http://www.w3.org/2000/svg\" viewBox=\"0 0 4 2\">",
            b"<title>walk 2 0 from 0,0 to 2,0</title>",
            b"<rect width=\"4\" height=\"2\" fill=\"#f4f1e8\"/>",
            b"<path transform=\"translate(0 .5)\" shape-rendering=\"crispEdges\" \
            stroke=\"#c9bf8f\" d=\"M0 1h1\"/>",
            b"<path transform=\"translate(0 .5)\" shape-rendering=\"crispEdges\" \
            stroke=\"#5c8a57\" d=\"M3 0h1\"/>",
            b"<path transform=\"translate(0 .5)\" shape-rendering=\"crispEdges\" \
            stroke=\"#3b3f46\" d=\"M1 1h2\"/>",
            b"<path transform=\"translate(0 .5)\" shape-rendering=\"crispEdges\" \
            stroke=\"#8fbfe0\" d=\"M3 1h1\"/>",
            b"<path transform=\"translate(0 .5)\" shape-rendering=\"crispEdges\" \
            stroke=\"#f2b84b\" d=\"M0 0h1M1 0h1M2 0h1\"/>",
            b"<polyline transform=\"translate(.5 .5)\" fill=\"none\" stroke=\"#d1352b\" \
            stroke-width=\"0.4\" points=\"0,0 2,0\"/>",
            b"<circle cx=\"0.5\" cy=\"0.5\" r=\"0.4\" fill=\"#1f6f43\"/>",
            b"<circle cx=\"2.5\" cy=\"0.5\" r=\"0.4\" fill=\"#7b2d8b\"/>",
            b"</svg>",
        ],
    )?;
    assert_eq!(rt; text.as_slice(), lines.as_slice());
    Ok(())
}

// A run over a whole row, runs that end rows and begin the next ones, and no walk.
#[test]
fn runs_are_not_joined_over_rows(rt: HostRuntime) -> Result<(), Fail> {
    let map = read_map(
        rt.alloc(),
        b"type octile\nheight 4\nwidth 3\nmap\nO@@\n..O\n@@.\n.TT\n",
    )?;
    let (start, goal) = (Cell { x: 0, y: 1 }, Cell { x: 0, y: 3 });
    let text = draw(rt.alloc(), &map, start, goal, None, None)?;
    let lines = text_of(
        rt.alloc(),
        &[
            b"<svg xmlns=\"http://www.w3.org/2000/svg\" viewBox=\"0 0 3 4\">",
            b"<title>none from 0,1 to 0,3</title>",
            b"<rect width=\"3\" height=\"4\" fill=\"#f4f1e8\"/>",
            b"<path transform=\"translate(0 .5)\" shape-rendering=\"crispEdges\" \
            stroke=\"#c9bf8f\" d=\"\"/>",
            b"<path transform=\"translate(0 .5)\" shape-rendering=\"crispEdges\" \
            stroke=\"#5c8a57\" d=\"M1 3h2\"/>",
            b"<path transform=\"translate(0 .5)\" shape-rendering=\"crispEdges\" \
            stroke=\"#3b3f46\" d=\"M0 0h3M2 1h1M0 2h2\"/>",
            b"<path transform=\"translate(0 .5)\" shape-rendering=\"crispEdges\" \
            stroke=\"#8fbfe0\" d=\"\"/>",
            b"<circle cx=\"0.5\" cy=\"1.5\" r=\"0.4\" fill=\"#1f6f43\"/>",
            b"<circle cx=\"0.5\" cy=\"3.5\" r=\"0.4\" fill=\"#7b2d8b\"/>",
            b"</svg>",
        ],
    )?;
    assert_eq!(rt; text.as_slice(), lines.as_slice());
    Ok(())
}
