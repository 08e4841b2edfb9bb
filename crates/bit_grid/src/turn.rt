//! Lines turned: from the words of rows those of columns.
//!
//! What all rows have in one word is gathered first, for 64 columns, and from it what they have in one byte,
//! for eight columns, so that the bits of a column lie side by side. So the rows, which are far apart in
//! memory, are gone through once for 64 columns.

ghost use Rattle.std.specs.Prelude.{◌≡◌, ℕ, ◌+◌, ◌*◌, ◌/◌, ◌%◌, ◌<◌, ◌≤◌, Bool, IfOk, List, length};
ghost use Rattle.grid_moves.specs.Bits.{is_set};
ghost use Rattle.bit_grid.specs.Turn.{AreWordsTo, AreBytesTo, IsStrip, IsWhole, ArePackedSoFar};

use crate::NoMemory;
use crate::pack::{push_line, zeros};
use std::alloc::Global;

// So many words, all 0.
fn zero_words(alloc: Global, n: usize) -> Result<Vec<u64>, NoMemory>
    ensures { IfOk result (λ v. length v.items ≡ n) }
{
    vec![in alloc; 0u64; n]
}

// Gathers one word of each row, and 0 where there is no such row.
fn gather(down: &mut [u64], words: &[u64], lines: usize, per_line: usize, word: usize)
    requires whole { length words.now ≡ lines * per_line }
    requires word { word < per_line }
    requires room { lines ≤ length down.old }
    ensures long { length down.new ≡ length down.old }
    ensures gathered { AreWordsTo (length down.new) down.new words.now lines per_line word }
{
    for line in 0..lines {
        down[line] = words[line * per_line + word];
    }
    for line in lines..down.len() {
        down[line] = 0;
    }
}

// Gathers the word of each row that has the bits of this column, where the one at hand does not.
#[inline(always)]
fn gather_for(down: &mut [u64], words: &[u64], lines: usize, per_line: usize, column: usize)
    requires whole { length words.now ≡ lines * per_line }
    requires column { column < per_line * 64 }
    requires room { lines ≤ length down.old }
    requires at_hand { 0 < column % 64
        → AreWordsTo (length down.old) down.old words.now lines per_line (column / 64) }
    ensures long { length down.new ≡ length down.old }
    ensures gathered { AreWordsTo (length down.new) down.new words.now lines per_line (column / 64) }
{
    if column % 64 == 0 {
        gather(down, words, lines, per_line, column / 64);
    }
}

// A byte of a word.
#[inline(always)]
fn byte_of(word: u64, place: usize) -> u8
    requires { place < 8 }
    ensures { (k : ℕ) → k < 8 → is_set result k ≡ is_set word (place * 8 + k) }
{
    (word >> (place * 8) & 255) as u8
}

// Takes from each word the byte at a place.
fn take_bytes(strip: &mut [u8], down: &[u64], place: usize)
    requires place { place < 8 }
    requires alike { length strip.old ≡ length down.now }
    ensures long { length strip.new ≡ length strip.old }
    ensures taken { AreBytesTo (length strip.new) strip.new down.now place }
{
    for line in 0..strip.len() {
        strip[line] = byte_of(down[line], place);
    }
}

// Takes the byte of each row that has the bits of this column, where the one at hand does not.
#[inline(always)]
fn take_bytes_for(strip: &mut [u8], down: &[u64], column: usize)
    requires alike { length strip.old ≡ length down.now }
    ensures long { length strip.new ≡ length strip.old }
    ensures taken { (words : List ℕ) (lines per_line : ℕ)
        → AreWordsTo (length down.now) down.now words lines per_line (column / 64)
        → (0 < column % 8 → IsStrip strip.old words lines per_line (column / 8))
        → IsStrip strip.new words lines per_line (column / 8) }
{
    if column % 8 == 0 {
        take_bytes(strip, down, column % 64 / 8);
    }
}

/// The words of columns, given those of so many rows: for each of the first so many columns so many words.
pub(crate) fn turned(
    alloc: Global,
    words: &[u64],
    lines: usize,
    per_line: usize,
    columns: usize,
    per_column: usize,
) -> Result<Vec<u64>, NoMemory>
    requires whole { length words.now ≡ lines * per_line }
    requires columns { columns ≤ per_line * 64 }
    requires rows { lines ≤ per_column * 64 }
    requires small { per_column ≤ 65536 }
    requires few { columns ≤ 65536 }
    ensures as_many { IfOk result (λ v. length v.items ≡ columns * per_column) }
    ensures turned { IfOk result (λ v. (free : ℕ → ℕ → Bool) → IsWhole words.now lines per_line free
        → ArePackedSoFar (λ column row. free row column) per_column v.items) }
{
    let mut found = Vec::with_capacity(alloc, columns * per_column)?;
    let mut down = zero_words(alloc, per_column * 64)?;
    let down = down.as_mut_slice();
    let mut strip = zeros(alloc, per_column * 64)?;
    let strip = strip.as_mut_slice();
    for column in 0..columns {
        gather_for(down, words, lines, per_line, column);
        take_bytes_for(strip, down, column);
        push_line(&mut found, strip, (column % 8) as u32, per_column)?;
    }
    Ok(found)
}
