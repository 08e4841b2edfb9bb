ghost use Rattle.std.specs.Prelude.{◌<◌, length};

use script_text::*;
use std::alloc::{AllocError, Global};
use std::test::*;

/// A text of so many spaces and an ending.
fn blank(alloc: Global, spaces: usize, ending: &[u8]) -> Result<Vec<u8>, AllocError> {
    let mut text = vec![in alloc; b' '; spaces]?;
    text.extend_from_slice(ending)?;
    Ok(text)
}

// The commands are those of a script that blocks, frees and floods one cell between queries.
#[test]
fn commands_are_read_in_order(rt: HostRuntime) -> Result<(), Fail> {
    let text =
        b"query 0 1 2 1\nblock 1 1\nquery 0 1 2 1\nfree 1 1\n\tflood  01 1\r\n\nquery 0 1 2 1\nblock 3 0";
    assert!(rt; text.len() < 200);
    let commands = read_script(rt.alloc(), text)?;
    let query = ScriptCommand::Query {
        sx: 0,
        sy: 1,
        gx: 2,
        gy: 1,
    };
    let free = ScriptCommand::Free { x: 1, y: 1 };
    let flood = ScriptCommand::Flood { x: 1, y: 1 };
    let block = ScriptCommand::Block { x: 1, y: 1 };
    let outside = ScriptCommand::Block { x: 3, y: 0 };
    let wanted = [query, block, query, free, flood, query, outside];
    assert_eq!(rt; commands.as_slice(), wanted.as_slice());
    Ok(())
}

#[test]
fn the_first_broken_line_is_named(rt: HostRuntime) {
    for (text, line) in [
        (b"block 1 1\n\nbolck 1 1\nfree\n".as_slice(), 3),
        (b"free 1 0000000001\n", 1),
        (b"free 1 1\nquery 0 1 2\n", 2),
        (b"block 1 1 1\n", 1),
    ] {
        assert!(rt; text.len() < 100);
        let read = read_script(rt.alloc(), text);
        assert!(rt; matches!(read, Err(ScriptFault::Line { line: named }) if named == line));
    }
}

#[test]
fn a_line_has_at_most_128_bytes(rt: HostRuntime) -> Result<(), Fail> {
    for (spaces, ending, right) in [
        (0, b"".as_slice(), true),
        (128, b"", true),
        (129, b"", false),
        (127, b"\r\n", true),
        (128, b"\r\n", false),
    ] {
        let text = blank(rt.alloc(), spaces, ending)?;
        assert!(rt; text.len() < 200);
        match read_script(rt.alloc(), &text) {
            Ok(commands) => assert!(rt; right && commands.is_empty()),
            Err(fault) => assert!(rt; !right && fault == ScriptFault::Long { line: 1 }),
        }
    }
    Ok(())
}

// Feeds the text in pieces of so many bytes, and ends it.
fn feed_all(text: &[u8], size: usize, got: &mut Vec<ScriptCommand>) -> Result<(), ScriptFault>
    requires some { 0 < size }
    requires few { length text.now < 1000 }
{
    let mut feeder = LineFeeder::new();
    for piece in text.chunks(size) {
        if feeder.taken() < 1000 && piece.len() < 1000 {
            feeder.feed(piece, got)?;
        }
    }
    feeder.end(got)
}

// Two lines, the second with a carriage return, and a last one without line feed.
#[test]
fn a_script_in_pieces_is_the_script(rt: HostRuntime) -> Result<(), Fail> {
    let query = ScriptCommand::Query {
        sx: 0,
        sy: 1,
        gx: 2,
        gy: 1,
    };
    let free = ScriptCommand::Free { x: 1, y: 1 };
    for size in [1, 7, 64] {
        let mut got = Vec::new(rt.alloc());
        feed_all(
            b"query 0 1 2 1\n\n free 1 1\r\nquery 0 1 2 1",
            size,
            &mut got,
        )?;
        assert_eq!(rt; got.as_slice(), [query, free, query].as_slice());
        got.clear();
        let fault = feed_all(b"free 1 1\n\nbolck 1 1\nquery 0 1 2 1\n", size, &mut got);
        assert!(rt; matches!(fault, Err(ScriptFault::Line { line: 3 })));
        assert_eq!(rt; got.as_slice(), [free].as_slice());
    }
    Ok(())
}

// A line of 129 blanks is refused before its line feed comes; what comes later changes nothing.
#[test]
fn a_long_line_is_refused_at_its_129th_byte(rt: HostRuntime) -> Result<(), Fail> {
    let mut got = Vec::new(rt.alloc());
    let mut feeder = LineFeeder::new();
    feeder.feed(b"free 1 1\n", &mut got)?;
    for _ in 0..128 {
        if feeder.taken() < 1000 {
            feeder.feed(b" ", &mut got)?;
        }
    }
    assert!(rt; feeder.taken() < 1000);
    for piece in [b" ".as_slice(), b"\nfree 1 1\n"] {
        assert!(rt; feeder.taken() < 1000 && piece.len() < 1000);
        let fault = feeder.feed(piece, &mut got);
        assert!(rt; matches!(fault, Err(ScriptFault::Long { line: 2 })));
    }
    assert!(rt; matches!(feeder.end(&mut got), Err(ScriptFault::Long { line: 2 })));
    assert_eq!(rt; got.len(), 1);
    Ok(())
}
