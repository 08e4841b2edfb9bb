use map_maker::*;
use map_text::{read_map, write_map};
use rand_core::utils::NextWord;
use rand_pcg::Lcg64Xsh32;
use script_text::ScriptCommand;
use std::test::*;

// What PCG's own code prints.
#[test]
fn the_generator_gives_its_reference_words(rt: HostRuntime) {
    let mut generator = Lcg64Xsh32::new(42, 54);
    for word in [
        0xa15c02b7, 0x7b47f409, 0xba1d3330, 0x83d2f293, 0xbfa4784b, 0xcbed606e,
    ] {
        assert_eq!(rt; generator.next_word(), word);
    }
}

// The cells are those that a program of its own made, after PCG's paper.
#[test]
fn a_map_is_made_row_by_row(rt: HostRuntime) -> Result<(), Fail> {
    let made = make(rt.alloc(), 7, 8, 4, 40)?;
    assert_eq!(rt; (made.width, made.height), (8, 4));
    assert_eq!(rt;
        made.cells.as_slice(),
        b"@@.@......@..@@..@.@.@...@.@....".as_slice()
    );
    Ok(())
}

#[test]
fn a_made_map_is_read_back(rt: HostRuntime) -> Result<(), Fail> {
    for (seed, w, h) in [(1, 1, 1), (2, 4096, 1), (3, 1, 64), (u64::MAX, 17, 9)] {
        let made = make(rt.alloc(), seed, w, h, 25)?;
        let mut text = Vec::new(rt.alloc());
        write_map(&made, &mut text)?;
        let read = read_map(rt.alloc(), text.as_slice())?;
        let mut again = Vec::new(rt.alloc());
        write_map(&read, &mut again)?;
        assert!(rt; again.as_slice() == text.as_slice(), "seed {seed}");
    }
    Ok(())
}

// The commands are those that a program of its own made, after PCG's paper.
#[test]
fn a_drill_queries_twice_and_edits(rt: HostRuntime) -> Result<(), Fail> {
    let commands = drill_script(rt.alloc(), 1)?;
    assert_eq!(rt; commands.len(), 150);
    let first = [
        ScriptCommand::Query {
            sx: 3,
            sy: 215,
            gx: 211,
            gy: 62,
        },
        ScriptCommand::Query {
            sx: 155,
            sy: 133,
            gx: 142,
            gy: 14,
        },
        ScriptCommand::Free { x: 192, y: 62 },
        ScriptCommand::Query {
            sx: 156,
            sy: 165,
            gx: 238,
            gy: 174,
        },
        ScriptCommand::Query {
            sx: 33,
            sy: 161,
            gx: 18,
            gy: 99,
        },
        ScriptCommand::Block { x: 6, y: 15 },
    ];
    for (k, command) in first.iter().enumerate() {
        assert!(rt; commands.get(k) == Some(command));
    }
    assert!(rt; commands.get(149) == Some(&ScriptCommand::Free { x: 219, y: 228 }));
    Ok(())
}
