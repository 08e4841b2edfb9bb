use root2_cost::{Cost, Decimal};
use scen_lines::*;
use scen_text::read_scen;
use std::test::*;

// A query on a map of 4 by 4 from the top left cell to the lower right one.
fn across() -> Problem {
    Problem {
        w: 4,
        h: 4,
        sx: 0,
        sy: 0,
        gx: 3,
        gy: 3,
    }
}

// 3√2 is 4.242640687..
#[test]
fn a_line_is_read_again(rt: HostRuntime) -> Result<(), Fail> {
    let mut text = Vec::new(rt.alloc());
    put_version(&mut text)?;
    put_entry(
        &mut text,
        b"my maps/a  b.map",
        across().with_cost(Cost { a: 0, b: 3 }),
    )?;
    let line = b"version 1\n1\tmy maps/a  b.map\t4\t4\t0\t0\t3\t3\t4.24264069\n";
    assert_eq!(rt; text.as_slice(), line.as_slice());
    assert!(rt; text.len() < 100);
    let entries = read_scen(rt.alloc(), text.as_slice())?;
    assert_eq!(rt; entries.len(), 1);
    let length = Decimal {
        digits: 424264069,
        places: 8,
    };
    assert_eq!(rt; entries[0].length, length);
    Ok(())
}

#[test]
fn a_word_names_its_map(rt: HostRuntime) -> Result<(), Fail> {
    for (word, name) in [
        (b"maps/old ones/a\tb.map".as_slice(), b"a_b.map".as_slice()),
        (b"game.map", b"game.map"),
        (b"a\x7fb", b"a_b"),
        (b"maps/", b"map"),
        (b"", b"map"),
    ] {
        assert_eq!(rt; problem_name(rt.alloc(), word)?.as_slice(), name);
    }
    Ok(())
}
