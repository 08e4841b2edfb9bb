//! The name that a scenario gives a map.

ghost use Rattle.std.specs.Prelude.{◌≡◌, IfOk};
ghost use Rattle.std.specs.List.{after_last};
ghost use Rattle.scen_lines.specs.Naming as spec;

use crate::NoMemory;
use memchr::memrchr;
use std::alloc::Global;
use text_line::put;

/// The name of the map that a word names: what stands behind the last slash, with `_` for each byte up to
/// 32 and for byte 127, or `map` where nothing stands there.
pub fn problem_name(alloc: Global, word: &[u8]) -> Result<Vec<u8>, NoMemory>
    ensures { IfOk result (λ name. name.items ≡ spec.name_of word.now) }
{
    let part = behind_slash(word);
    let mut name = Vec::new(alloc);
    if part.is_empty() {
        put(&mut name, b"map")?;
        return Ok(name);
    }
    for byte in part {
        name.push(name_byte(*byte))?;
    }
    Ok(name)
}

/// What stands behind the last slash of a word, the whole word where it has none.
fn behind_slash(word: &[u8]) -> &[u8]
    ensures { result.now ≡ after_last spec.is_slash word.now }
{
    match memrchr(b'/', word) {
        Some(place) => &word[place + 1..],
        None => word,
    }
}

/// The byte, or `_` for one that prints nothing.
fn name_byte(byte: u8) -> u8
    ensures { result ≡ spec.name_byte byte }
{
    if byte <= b' ' || byte == 127 {
        b'_'
    } else {
        byte
    }
}
