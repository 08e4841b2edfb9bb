use root2_cost::Decimal;
use scen_text::*;
use std::test::*;

// Queries from the top left cell of a map of 4 by 2 to its lower right one, in line `line`.
fn corner_to_corner(line: u32, start: u32, end: u32, digits: u64, places: u8) -> Entry {
    Entry {
        line,
        bucket: 0,
        name: ByteRange { start, end },
        w: 4,
        h: 2,
        sx: 0,
        sy: 0,
        gx: 3,
        gy: 1,
        length: Decimal { digits, places },
    }
}

// The places are counted by hand.
#[test]
fn lengths_keep_their_decimals(rt: HostRuntime) -> Result<(), Fail> {
    let text = b"version 1\n0 m 4 2 0 0 3 1 3.41421\n\n0 m 4 2 0 0 3 1 8\n";
    let entries = read_scen(rt.alloc(), text)?;
    let expected = [
        corner_to_corner(2, 12, 13, 341421, 5),
        corner_to_corner(4, 37, 38, 8, 0),
    ];
    assert_eq!(rt; entries.as_slice(), expected.as_slice());
    Ok(())
}

#[test]
fn a_name_holds_spaces(rt: HostRuntime) -> Result<(), Fail> {
    let text =
        b"version 1.0\r\n0\tmy maps/a b.map\t4\t2\t0\t0\t3\t1\t3.41421356\r\n1 m 8 4 0 0 7 3 9.24264";
    let entries = read_scen(rt.alloc(), text)?;
    let second = Entry {
        line: 3,
        bucket: 1,
        name: ByteRange { start: 57, end: 58 },
        w: 8,
        h: 4,
        sx: 0,
        sy: 0,
        gx: 7,
        gy: 3,
        length: Decimal {
            digits: 924264,
            places: 5,
        },
    };
    let expected = [corner_to_corner(2, 15, 30, 341421356, 8), second];
    assert_eq!(rt; entries.as_slice(), expected.as_slice());
    Ok(())
}

#[test]
fn the_version_alone_lists_nothing(rt: HostRuntime) -> Result<(), Fail> {
    assert!(rt; read_scen(rt.alloc(), b"version 1\n")?.is_empty());
    Ok(())
}

#[test]
fn the_first_broken_line_is_named(rt: HostRuntime) {
    for (text, fault) in [
        (b"".as_slice(), ScenFault::Version { line: 1 }),
        (b"\nversion 1\n", ScenFault::Version { line: 1 }),
        (b"version 2\n", ScenFault::Version { line: 1 }),
        (b"version 1\n0 m 4 2 0 0\n", ScenFault::Fields { line: 2 }),
        (
            b"version 1\n0 m 4 2 1234567890 0 3 1 .5\n",
            ScenFault::Number { line: 2 },
        ),
        (
            b"version 1\n0 m 4 2 0 0 3 1 3.\n",
            ScenFault::Length { line: 2 },
        ),
        (
            b"version 1\n0 m 4 2 0 0 3 1 .5\n",
            ScenFault::Length { line: 2 },
        ),
        (
            b"version 1\n0 m 4 2 0 0 3 1 1e3\n",
            ScenFault::Length { line: 2 },
        ),
        (
            b"version 1\n0 m 4 2 0 0 3 1 123456789\n",
            ScenFault::Length { line: 2 },
        ),
    ] {
        assert!(rt; text.len() < 100);
        let read = read_scen(rt.alloc(), text);
        assert!(rt; matches!(read, Err(named) if named == fault), "{fault}");
    }
}
