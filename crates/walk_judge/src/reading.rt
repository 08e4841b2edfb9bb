//! Reading claimed walks from their text.

ghost use Rattle.std.specs.Prelude.{◌≡◌, ◌≤◌, ◌+◌, ◌^◌, ℕ, length, slice_get, Some, IfOk};
ghost use Rattle.text_line.specs.Reading.{IsRightReading};
ghost use Rattle.walk_judge.specs.declared.fault.WalkFault.TheVariants.{NoMemory};
ghost use Rattle.walk_judge.specs.declared.claims.Claimed.{Claimed};
ghost use Rattle.walk_judge.specs.Claims.{IsFit};
ghost use Rattle.walk_judge.specs.Walks.{at_line, BreaksFirst, Spells, Tells, TellsLine, place_read};
ghost use Rattle.walk_judge.specs.Walks.{walks_of};

use crate::claims::Claimed;
use crate::fault::WalkFault;
use crate::point::points_on;
use std::alloc::Global;
use text_line::{Fields, Lines};

/// The walks that a text of at most 2^30 bytes tells for so many entries, one for each in order, or
/// the fault of its first broken line.
///
/// The text is passed over line by line and field by field, and each point is read from its field.
pub fn read_walks(alloc: Global, text: &[u8], entries: u32) -> Result<Vec<Claimed>, WalkFault>
    requires { length text.now ≤ 2 ^ 30 }
    // What is read is spelled so, one walk for each entry; what is spelled so is read, and a fault is that
    // of the first line that breaks the form.
    ensures reads { IsRightReading NoMemory (λ walks. walks.items) (Spells text.now entries)
        (BreaksFirst text.now entries) (walks_of text.now entries) result }
    // Each walk has one point or more, and fewer than 2^30.
    ensures fit { IfOk result (λ read. (k : ℕ) (claimed : Claimed) → slice_get read.items k ≡ Some claimed
        → IsFit claimed) }
{
    read(alloc, text, entries)
}

/// The same, whose clause is the one function.
fn read(alloc: Global, text: &[u8], entries: u32) -> Result<Vec<Claimed>, WalkFault>
    requires { length text.now ≤ 2 ^ 30 }
    ensures { Tells result (walks_of text.now entries) }
{
    let mut walks = Vec::new(alloc);
    let mut next = 1;
    for line in Lines::of(text) {
        match claimed_on(alloc, line.bytes, next, walks.len(), entries) {
            Ok(Some(claimed)) => walks.push(claimed)?,
            Ok(None) => {}
            Err(fault) => return Err(fault),
        }
        next += 1;
    }
    if walks.len() < entries as usize {
        return Err(WalkFault::Count { line: next });
    }
    Ok(walks)
}

/// What the line with this number tells, none where it is blank; so many lines before it are not.
fn claimed_on(
    alloc: Global,
    line: &[u8],
    number: u32,
    before: usize,
    entries: u32,
) -> Result<Option<Claimed>, WalkFault>
    ensures { TellsLine result (place_read entries (at_line number before line.now)) }
{
    let mut fields = Fields::of(line);
    let Some(first) = fields.next() else {
        return Ok(None);
    };
    if before >= entries as usize {
        return Err(WalkFault::Count { line: number });
    }
    if first == b"none".as_slice() && fields.next().is_none() {
        return Ok(Some(Claimed::None));
    }
    match points_on(alloc, line) {
        Ok(Some(points)) => Ok(Some(Claimed::Walk(points))),
        Ok(None) => Err(WalkFault::Line { line: number }),
        Err(_) => Err(WalkFault::NoMemory),
    }
}
