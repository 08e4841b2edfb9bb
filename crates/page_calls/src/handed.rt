//! Words and texts, as they are handed over: as bytes.

ghost use Rattle.std.specs.Prelude.{◌≡◌, ◌++◌, true, false, map, string_bytes, IfOk};
ghost use Rattle.io_edge.specs.Named.{named_bytes};
ghost use Rattle.page_calls.specs.Handed.{AreTexts, words_in, texts_in, text_at};

use io_edge::NoMemory;
use std::alloc::Global;

/// The words before the first one that is no text, and whether these are all.
#[derive(Drop)]
pub struct Handed {
    pub words: Vec<String>,
    pub are_all: bool,
}

/// The words of these bytes, each of which ends by a byte 0.
pub fn words_of(alloc: Global, bytes: &[u8]) -> Result<Handed, NoMemory>
    ensures all { IfOk result
        (λ handed. handed.are_all ≡ true → map string_bytes handed.words.items ≡ words_in bytes.now) }
    ensures some { IfOk result (λ handed. handed.are_all ≡ false → ¬ AreTexts (words_in bytes.now)) }
{
    let mut words = Vec::new(alloc);
    let mut word = Vec::new(alloc);
    for byte in bytes {
        if *byte != 0 {
            word.push(*byte)?;
            continue;
        }
        let ended = word;
        word = Vec::new(alloc);
        match String::from_utf8(ended) {
            Ok(text) => words.push(text)?,
            Err(_) => return Ok(Handed {
                words,
                are_all: false,
            }),
        }
    }
    Ok(Handed {
        words,
        are_all: true,
    })
}

// Puts the text of this place under its name, if it has one.
fn add_text(
    alloc: Global,
    names: &[String],
    place: usize,
    text: &[u8],
    files: &mut Vec<(String, Vec<u8>)>,
) -> Result<(), NoMemory>
    ensures { IfOk result
        (λ _. named_bytes files.new.items ≡ named_bytes files.old.items
        ++ text_at (map string_bytes names.now) place text.now) }
{
    if place < names.len() {
        let name = String::from_str(alloc, names[place].as_str())?;
        files.push((name, Vec::from_slice(alloc, text)?))?;
    }
    Ok(())
}

/// The texts under their names.
pub fn files_of(
    alloc: Global,
    names: &[String],
    first: &[u8],
    second: &[u8],
    third: &[u8],
) -> Result<Vec<(String, Vec<u8>)>, NoMemory>
    ensures { IfOk result
        (λ files. named_bytes files.items
        ≡ texts_in (map string_bytes names.now) first.now second.now third.now) }
{
    let mut files = Vec::new(alloc);
    add_text(alloc, names, 0, first, &mut files)?;
    add_text(alloc, names, 1, second, &mut files)?;
    add_text(alloc, names, 2, third, &mut files)?;
    Ok(files)
}
