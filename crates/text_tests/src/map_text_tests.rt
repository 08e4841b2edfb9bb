use map_text::*;
use std::test::*;

// The rows are those of the format's description, counted by hand.
#[test]
fn the_first_broken_line_is_named(rt: HostRuntime) {
    for (text, fault) in [
        (b"".as_slice(), MapFault::Header { line: 1 }),
        (
            b"type octile\nheight 3\nwidth 3\nmap\n...\n...\n",
            MapFault::Missing { line: 7 },
        ),
        (
            b"type octile\nheight 3\nwidth 3\nmap\n...\n..\n...\n",
            MapFault::Short { line: 6 },
        ),
        (
            b"type octile\nheight 3\nwidth 3\nmap\n...\n...\n..",
            MapFault::Short { line: 7 },
        ),
        (
            b"type octile\nheight 1\nwidth 3\nmap\n.x.\n",
            MapFault::Byte { line: 5, column: 2 },
        ),
        (
            b"type octile\nheight 0\nwidth 3\nmap\n",
            MapFault::Side { line: 2 },
        ),
        (
            b"type octile\nheight 4097\nwidth 3\nmap\n",
            MapFault::Side { line: 2 },
        ),
        (
            b"type octile\nheight 1\nwidth 1\nmap\n.\n.\n",
            MapFault::After { line: 6 },
        ),
    ] {
        assert!(rt; text.len() < 100);
        let read = read_map(rt.alloc(), text);
        assert!(rt; matches!(read, Err(named) if named == fault), "{fault}");
    }
}

#[test]
fn tabs_returns_and_empty_lines_are_read_over(rt: HostRuntime) -> Result<(), Fail> {
    for text in [
        b"type octile\nheight 2\nwidth 3\nmap\n...\n.@.\n".as_slice(),
        b"type octile\nheight 2\nwidth 3\nmap\n...\n.@.",
        b"\ttype  octile\r\nheight\t2\r\n width 3 \r\nmap\r\n...\r\n.@.\r\n\r\n\r\n",
    ] {
        assert!(rt; text.len() < 100);
        let map = read_map(rt.alloc(), text)?;
        assert_eq!(rt; (map.width, map.height), (3, 2));
        assert_eq!(rt; map.cells.as_slice(), b"....@.".as_slice());
    }
    Ok(())
}

// The text is the one of the format's description.
#[test]
fn a_map_is_written_in_its_canonical_text(rt: HostRuntime) -> Result<(), Fail> {
    let text = b"type octile\nheight 2\nwidth 3\nmap\n...\n.@.\n";
    let map = read_map(
        rt.alloc(),
        b"type octile\r\nheight 02\nwidth\t3\nmap\n...\n.@.\n\n",
    )?;
    let mut out = Vec::new(rt.alloc());
    write_map(&map, &mut out)?;
    assert_eq!(rt; out.as_slice(), text.as_slice());
    Ok(())
}

#[test]
fn bytes_are_appended(rt: HostRuntime) -> Result<(), Fail> {
    let mut bytes = Bytes::new(rt.alloc());
    bytes.push(b'@')?;
    bytes.push(b'.')?;
    assert_eq!(rt; bytes.as_slice(), b"@.".as_slice());
    Ok(())
}
