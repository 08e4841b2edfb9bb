//! Writing the text of a map.

ghost use Rattle.std.specs.Prelude.{◌≡◌, ◌++◌, ◌*◌, ◌^◌, ◌≤◌, OnOk, OnErr, length};
ghost use Rattle.map_text.specs.Faults.{plain};
ghost use Rattle.map_text.specs.Spelling.{Spells};
ghost use Rattle.map_text.specs.Writing.{canonical_text, rows_of, text_of};
ghost use Rattle.text_line.specs.Writing.{Begins};

use crate::NoMemory;
use crate::map::MapText;
use text_line::{put, put_number, whole_or_nothing};

/// Appends the canonical text of the map: the words of the header parted by one space, a line for
/// each row, a line feed behind each line, and nothing after the last row.
///
/// Room is asked for once, and each row is copied once.
pub fn write_map(map: &MapText, out: &mut Vec<u8>) -> Result<(), NoMemory>
    ensures text { OnOk result (out.new.items ≡ out.old.items ++ canonical_text (plain map.now)) }
    // This text spells the map, so that it is read back as the map.
    ensures spelled { Spells (canonical_text (plain map.now)) (plain map.now) }
    // It is short enough for a reader.
    ensures short { length (canonical_text (plain map.now)) ≤ 2 ^ 26 }
    // For want of memory nothing is appended.
    ensures err { OnErr result (out.new.items ≡ out.old.items) }
{
    let before = out.len();
    let written = put_map(map, out);
    whole_or_nothing(out, before, written)
}

/// Appends the text, or a first part of it where memory runs out.
#[tactic(auto, unfolding(crate::specs::Writing::canonical_text))]
fn put_map(map: &MapText, out: &mut Vec<u8>) -> Result<(), NoMemory>
    ensures ok { OnOk result (out.new.items ≡ out.old.items ++ canonical_text (plain map.now)) }
    ensures err { OnErr result (Begins out.old.items out.new.items) }
{
    let width = map.width as usize;
    let height = map.height as usize;
    out.reserve(HEADER_ROOM + height * (width + 1))?;
    put(out, b"type octile\nheight ")?;
    put_number(out, map.height as u64)?;
    put(out, b"\nwidth ")?;
    put_number(out, map.width as u64)?;
    put(out, b"\nmap\n")?;
    put_rows(map.cells.as_slice(), width, height, out)
}

/// The most bytes of the four header lines.
const HEADER_ROOM: usize = 39;

/// Appends a line for each row of the cells.
fn put_rows(cells: &[u8], width: usize, height: usize, out: &mut Vec<u8>) -> Result<(), NoMemory>
    requires { length cells.now ≡ height * width }
    ensures ok { OnOk result (out.new.items ≡ out.old.items ++ text_of (rows_of height width cells.now)) }
    ensures err { OnErr result (Begins out.old.items out.new.items) }
{
    let mut left = cells;
    for _done in 0..height {
        let (row, others) = left.split_at(width);
        put(out, row)?;
        put(out, b"\n")?;
        left = others;
    }
    Ok(())
}
