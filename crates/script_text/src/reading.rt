//! Reading commands from a text.

ghost use Rattle.std.specs.Prelude.{◌≡◌, ◌≤◌, ◌^◌, ◌∷◌, length};
ghost use Rattle.text_line.specs.Left.{numbered};
ghost use Rattle.text_line.specs.Reading.{IsRightReading};
ghost use Rattle.script_text.specs.declared.fault.ScriptFault.TheVariants.{NoMemory};
ghost use Rattle.script_text.specs.Spelling.{Spells};
ghost use Rattle.script_text.specs.Lines as spec;
ghost use Rattle.script_text.specs.Lines.{command_in, piece_read};
ghost use Rattle.script_text.specs.Faults.{script_of, BreaksFirst, Tells};

use crate::command::ScriptCommand;
use crate::fault::ScriptFault;
use std::alloc::Global;
use text_line::{Fields, Line, Pieces, number, without_cr};

/// The most bytes that a line has before its line feed or the end, with its carriage return.
pub(crate) const MAX_LINE: usize = 128;

/// The commands that a text of at most 2^26 bytes spells, in order, or the fault of its first broken
/// line.
///
/// On one line T2 goes before T1. The text is passed over once, and memory is taken for the commands
/// alone.
pub fn read_script(alloc: Global, text: &[u8]) -> Result<Vec<ScriptCommand>, ScriptFault>
    requires { length text.now ≤ 2 ^ 26 }
    // What is read is spelled so, what is spelled so is read, and a fault is that of the first line that
    // breaks the grammar.
    ensures { IsRightReading NoMemory (λ commands. commands.items) (Spells text.now) (BreaksFirst text.now)
        (script_of text.now) result }
{
    read(alloc, text)
}

/// The same, whose clause is the one function of the text.
fn read(alloc: Global, text: &[u8]) -> Result<Vec<ScriptCommand>, ScriptFault>
    requires { length text.now ≤ 2 ^ 26 }
    ensures { Tells result (script_of text.now) }
{
    let mut commands = Vec::new(alloc);
    for piece in Pieces::of(text) {
        if let Some(command) = command_on(piece)? {
            commands.push(command)?;
        }
    }
    Ok(commands)
}

/// The command of a line, or none where it is blank.
pub(crate) fn command_on(piece: Line<'_>) -> Result<Option<ScriptCommand>, ScriptFault>
    ensures { result ≡ piece_read (numbered piece.entry) }
{
    if piece.bytes.len() > MAX_LINE {
        return Err(ScriptFault::Long { line: piece.number });
    }
    let mut fields = Fields::of(without_cr(piece.bytes));
    let Some(word) = fields.next() else {
        return Ok(None);
    };
    match command_of(word, fields) {
        Some(command) => Ok(Some(command)),
        None => Err(ScriptFault::Line { line: piece.number }),
    }
}

/// The command of a word and the fields after it, if they are one.
pub fn command_of(word: &[u8], fields: Fields<'_>) -> Option<ScriptCommand>
    ensures { result ≡ command_in (word.now ∷ fields.entry) }
{
    if word == b"block".as_slice() {
        let (x, y) = two_numbers(fields)?;
        Some(ScriptCommand::Block { x, y })
    } else if word == b"free".as_slice() {
        let (x, y) = two_numbers(fields)?;
        Some(ScriptCommand::Free { x, y })
    } else if word == b"flood".as_slice() {
        let (x, y) = two_numbers(fields)?;
        Some(ScriptCommand::Flood { x, y })
    } else if word == b"query".as_slice() {
        let (sx, sy, gx, gy) = four_numbers(fields)?;
        Some(ScriptCommand::Query { sx, sy, gx, gy })
    } else {
        None
    }
}

/// The numbers of two fields, if there are two and each is a number.
pub fn two_numbers(mut fields: Fields<'_>) -> Option<(u32, u32)>
    ensures { result ≡ spec.two_numbers fields.entry }
{
    let x = number(fields.next()?)?;
    let y = number(fields.next()?)?;
    if fields.next().is_some() {
        return None;
    }
    Some((x, y))
}

/// The numbers of four fields, if there are four and each is a number.
pub fn four_numbers(mut fields: Fields<'_>) -> Option<(u32, u32, u32, u32)>
    ensures { result ≡ spec.four_numbers fields.entry }
{
    let sx = number(fields.next()?)?;
    let sy = number(fields.next()?)?;
    let (gx, gy) = two_numbers(fields)?;
    Some((sx, sy, gx, gy))
}
