use std::test::*;
use text_line::*;

#[test]
fn bytes_and_numbers_are_appended(rt: HostRuntime) -> Result<(), Fail> {
    let mut out = Vec::new(rt.alloc());
    put(&mut out, b"row ")?;
    put_number(&mut out, 10)?;
    assert_eq!(rt; out.as_slice(), b"row 10".as_slice());
    Ok(())
}

#[test]
fn lines_carry_their_number(rt: HostRuntime) {
    let mut lines = Lines::of(b"map\r\n\n...");
    for (number, bytes) in [(1, b"map".as_slice()), (2, b""), (3, b"...")] {
        let line = lines.next();
        assert!(rt; matches!(line, Some(line) if line.number == number && line.bytes == bytes));
    }
    assert!(rt; lines.next().is_none());
}

// The places are counted by hand.
#[test]
fn fields_carry_their_places(rt: HostRuntime) {
    let mut lines = LinesAt::of(b"map\r\n ab c");
    assert!(rt;
        matches!(lines.next(), Some(line) if line.place == 0 && line.bytes == b"map".as_slice())
    );
    for line in lines {
        assert_eq!(rt; (line.number, line.place), (2, 5));
        let mut fields = FieldsAt::of(line);
        for (start, end, bytes) in [(6, 8, b"ab".as_slice()), (9, 10, b"c")] {
            let field = fields.next();
            assert!(rt;
                matches!(field, Some(field)
                if field.start == start && field.end == end && field.bytes == bytes)
            );
        }
        assert!(rt; fields.next().is_none());
    }
}
