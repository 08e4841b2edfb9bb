//! Reading a scenario from its text.

ghost use Rattle.std.specs.Prelude.{◌≡◌, ◌≤◌, ◌+◌, ◌^◌, ℕ, length, slice_get, Some, IfOk};
ghost use Rattle.text_line.specs.Places.{lines_at, line_at};
ghost use Rattle.text_line.specs.Numbers.{number_of};
ghost use Rattle.text_line.specs.Reading.{IsRightReading, Judges};
ghost use Rattle.scen_text.specs.declared.fault.ScenFault.TheVariants.{NoMemory};
ghost use Rattle.scen_text.specs.declared.entry.Entry.{Entry};
ghost use Rattle.scen_text.specs.Lengths.{IsKept};
ghost use Rattle.scen_text.specs.Spelling.{Spells};
ghost use Rattle.scen_text.specs.Faults.{number_fault, has_version, words_fault, entry_in, line_read};
ghost use Rattle.scen_text.specs.Faults.{scen_of, BreaksFirst, Tells};
ghost use Rattle.scen_text.specs.Progress.{plain_words, line_given};

use crate::entry::Entry;
use crate::fault::ScenFault;
use crate::length;
use crate::words::Words;
use std::alloc::Global;
use text_line::{Fields, FieldsAt, LinesAt, PlacedLine, number};

/// The entries that a text of at most 2^26 bytes spells, or the fault of its first broken line.
///
/// On one line the faults are looked for in the order C1, C2, C3, C4. The text is passed over twice:
/// line by line, and field by field.
pub fn read_scen(alloc: Global, text: &[u8]) -> Result<Vec<Entry>, ScenFault>
    requires { length text.now ≤ 2 ^ 26 }
    // What is read is spelled so, what is spelled so is read, and a fault is that of the first line that
    // breaks the grammar.
    ensures reads { IsRightReading NoMemory (λ entries. entries.items) (Spells text.now)
        (BreaksFirst (lines_at text.now)) (scen_of text.now) result }
    // Each length has at most 18 digits, at most ten of them behind the point.
    ensures kept { IfOk result (λ read. (k : ℕ) (entry : Entry) → slice_get read.items k ≡ Some entry
        → IsKept entry.length) }
    // There are no more entries than bytes.
    ensures few { IfOk result (λ read. length read.items ≤ 2 ^ 26) }
{
    read(alloc, text)
}

/// The same, whose clause is the one function of the text.
fn read(alloc: Global, text: &[u8]) -> Result<Vec<Entry>, ScenFault>
    requires { length text.now ≤ 2 ^ 26 }
    ensures { Tells result (scen_of text.now) }
{
    let mut lines = LinesAt::of(text);
    if !is_version(lines.next()) {
        return Err(ScenFault::Version { line: 1 });
    }
    let mut entries = Vec::new(alloc);
    for line in lines {
        if let Some(entry) = entry_on(line)? {
            entries.push(entry)?;
        }
    }
    Ok(entries)
}

/// Whether the line is there and names version 1.
fn is_version(line: Option<PlacedLine<'_>>) -> bool
    ensures { result ≡ has_version (line_given line.entry) }
{
    let Some(line) = line else {
        return false;
    };
    let mut fields = Fields::of(line.bytes);
    let Some(word) = fields.next() else {
        return false;
    };
    let Some(version) = fields.next() else {
        return false;
    };
    word == b"version".as_slice()
        && (version == b"1".as_slice() || version == b"1.0".as_slice())
        && fields.next().is_none()
}

/// The entry on a line after the first, none on a blank one.
fn entry_on(line: PlacedLine<'_>) -> Result<Option<Entry>, ScenFault>
    requires { line.place + length line.bytes.now ≤ 2 ^ 31 }
    ensures { result ≡ line_read (line_at line.entry) }
{
    let mut fields = FieldsAt::of(line);
    let Some(bucket) = fields.next() else {
        return Ok(None);
    };
    let Some(words) = Words::of(bucket, fields) else {
        return Err(ScenFault::Fields { line: line.number });
    };
    match entry(line.number, words) {
        Ok(entry) => Ok(Some(entry)),
        Err(fault) => Err(fault),
    }
}

/// The entry on the line with this number that has these words.
fn entry(line: u32, words: Words<'_>) -> Result<Entry, ScenFault>
    ensures { let plain = plain_words words.entry in
        Judges result (words_fault line plain) (λ entry. entry ≡ entry_in line plain) }
{
    Ok(Entry {
        line,
        bucket: number_in(line, words.bucket.bytes)?,
        name: words.name,
        w: number_in(line, words.w.bytes)?,
        h: number_in(line, words.h.bytes)?,
        sx: number_in(line, words.sx.bytes)?,
        sy: number_in(line, words.sy.bytes)?,
        gx: number_in(line, words.gx.bytes)?,
        gy: number_in(line, words.gy.bytes)?,
        length: length::length(words.length.bytes).ok_or(ScenFault::Length { line })?,
    })
}

/// The number that a word on the line with this number spells.
fn number_in(line: u32, word: &[u8]) -> Result<u32, ScenFault>
    ensures { Judges result (number_fault line word.now) (λ n. number_of word.now ≡ Some n) }
{
    number(word).ok_or(ScenFault::Number { line })
}
