//! Cells packed to words of bits, 64 bytes to a word.

ghost use Rattle.std.specs.Prelude.{◌≡◌, ℕ, suc, ◌+◌, ◌*◌, ◌<◌, ◌≤◌, Bool, IfOk, OnOk, length};
ghost use Rattle.std.specs.Prelude.{slice_index_or, nat_eq};
ghost use Rattle.std.specs.Int.Bits.{bit_and};
ghost use Rattle.grid_moves.specs.Bits.{is_set};
ghost use Rattle.bit_grid.specs.Pack.{AreFlags, IsBordered, ArePacked};
ghost use Rattle.bit_grid.specs.Turn.{ArePackedSoFar};

use crate::NoMemory;
use grid_moves::{Grid, Terrain};
use std::alloc::Global;
use std::simd::prelude::*;

// So many bytes, all 0.
pub(crate) fn zeros(alloc: Global, n: usize) -> Result<Vec<u8>, NoMemory>
    ensures as_many { IfOk result (λ v. length v.items ≡ n) }
    ensures zeros { IfOk result (λ v. (p : ℕ) → p < n → slice_index_or v.items p 0 ≡ 0) }
{
    vec![in alloc; 0u8; n]
}

// The lanes that have this bit.
#[inline(always)]
fn lanes_with(bytes: u8x64, bit: u8) -> u64
    ensures { (j : ℕ) → j < 64
        → is_set result j ≡ nat_eq (bit_and (slice_index_or bytes j 0) bit) bit }
{
    (bytes & u8x64::splat(bit))
        .simd_eq(u8x64::splat(bit))
        .to_bitmask()
}

// The word whose bit i is the bit at a place of the i-th byte from this one on.
#[inline(always)]
fn bits_at(bytes: &[u8], first: usize, place: u32) -> u64
    requires inside { first + 64 ≤ length bytes.now }
    requires place { place < 8 }
    ensures { (j : ℕ) → j < 64 → is_set result j ≡ is_set (slice_index_or bytes.now (first + j) 0) place }
{
    lanes_with(u8x64::from_slice(&bytes[first..first + 64]), 1 << place)
}

// Pushes the words of one line, made of one bit of each byte.
pub(crate) fn push_line(
    words: &mut Vec<u64>,
    bytes: &[u8],
    place: u32,
    per_line: usize,
) -> Result<(), NoMemory>
    requires place { place < 8 }
    requires long { per_line * 64 ≤ length bytes.now }
    ensures long { OnOk result (length words.new.items ≡ length words.old.items + per_line) }
    ensures shown { OnOk result ((free : ℕ → ℕ → Bool) (line : ℕ) → length words.old.items ≡ line * per_line
        → ((l : ℕ) → l < per_line * 64 → is_set (slice_index_or bytes.now l 0) place ≡ free line l)
        → ArePackedSoFar free per_line words.old.items → ArePackedSoFar free per_line words.new.items) }
{
    for w in 0..per_line {
        words.push(bits_at(bytes, w * 64, place))?;
    }
    Ok(())
}

// Writes the flags of a row's cells, between those of the border.
fn read_row(grid: &Grid, y: u16, flags: &mut [u8])
    requires inside { y < grid.now.height }
    requires room { grid.now.width + 2 ≤ length flags.old }
    requires border { IsBordered grid.now flags.old }
    ensures long { length flags.new ≡ length flags.old }
    ensures border { IsBordered grid.now flags.new }
    ensures flags { AreFlags grid.now (suc y) flags.new }
{
    let row = grid.row(y);
    for x in 0..row.len() {
        flags[x + 1] = u8::from(row[x]);
    }
}

/// The words of a grid's rows and of the border's two, so many words each.
pub(crate) fn words_on(alloc: Global, grid: &Grid, per_line: usize) -> Result<Vec<u64>, NoMemory>
    requires ample { grid.now.width + 2 ≤ per_line * 64 }
    requires few { per_line ≤ 1024 }
    ensures shown { IfOk result (λ words. ArePacked grid.now (grid.now.height + 2) per_line words.items) }
    ensures as_many { IfOk result (λ words. length words.items ≡ (grid.now.height + 2) * per_line) }
{
    let height = grid.height();
    let mut words = Vec::with_capacity(alloc, (height as usize + 2) * per_line)?;
    let border = zeros(alloc, per_line * 64)?;
    let mut flags = zeros(alloc, per_line * 64)?;
    let flags = flags.as_mut_slice();
    push_line(&mut words, flags, 0, per_line)?;
    for y in 0..height {
        read_row(grid, y, flags);
        push_line(&mut words, flags, 0, per_line)?;
    }
    push_line(&mut words, &border, 0, per_line)?;
    Ok(words)
}
