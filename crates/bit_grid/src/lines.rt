//! Lines of bits.

ghost use Rattle.std.specs.Prelude.{◌≡◌, ℕ, ◌+◌, ◌-◌, ◌*◌, ◌<◌, ◌≤◌, Bool, false, IfOk, length};
ghost use Rattle.std.specs.Prelude.{slice_index_or, nat_eq, if◌then◌else◌};
ghost use Rattle.bit_grid.specs.Pack.{is_free_in};
ghost use Rattle.grid_moves.specs.Bits.{is_set};
ghost use Rattle.bit_grid.specs.Bits.{Shows, with_cell};

use crate::NoMemory;
use crate::pack::words_on;
use crate::turn::turned;
use grid_moves::{Grid, Terrain};
use std::alloc::Global;
use std::marker::Model;
use std::sync::ledger::Ledger;
use steps::Steps;

// The word with one bit set or cleared.
#[inline(always)]
fn with_bit(word: u64, place: u32, free: bool) -> u64
    requires { place < 64 }
    ensures { (j : ℕ) → j < 64 → is_set result j ≡ (if nat_eq j place then free else is_set word j) }
{
    if free {
        word | 1 << place
    } else {
        word & !(1 << place)
    }
}

// The eight words from a place on.
#[inline(always)]
fn eight_from(words: &[u64], start: usize) -> &[u64]
    requires { start + 8 ≤ length words.now }
    ensures eight { length result.now ≡ 8 }
    ensures same { (k : ℕ) → k < 8 → slice_index_or result.now k 0 ≡ slice_index_or words.now (start + k) 0 }
{
    &words[start..start + 8]
}

/// Lines of bits side by side, each in blocks of 512.
#[derive(Drop)]
pub struct Lines {
    lines: u32,
    blocks: u32,
    words: Vec<u64>,
}

/// The same word of a line, of the line before it and of the line after it.
#[derive(Clone, Copy)]
pub struct ThreeWords {
    pub middle: u64,
    pub before: u64,
    pub after: u64,
}

/// The same block of a line, of the line before it and of the line after it, eight words each.
#[derive(Clone, Copy)]
pub struct ThreeLanes<'a> {
    pub middle: &'a [u64],
    pub before: &'a [u64],
    pub after: &'a [u64],
}

/// The rows of a grid: line `l` is row `l - 1`, and its bit `p` column `p - 1`.
pub type Rows<'a> = &'a Lines;

/// The columns of a grid: line `l` is column `l - 1`, and its bit `p` row `p - 1`.
pub type Columns<'a> = &'a Lines;

impl Model for Lines {
    ghost use Rattle.std.specs.Prelude.{◌≡◌, ◌*◌, length};
    ghost use Rattle.bit_grid.specs.Bits.{LineData};

    ghost Value = { LineData };

    ghost view = { λ l. record {
      lines = l.lines;
      blocks = l.blocks;
      words = l.words.items;
    } };

    ghost invariant = { λ l. length l.words.items ≡ l.lines * (l.blocks * 8) };
}

// How many blocks hold so many bits.
fn blocks_for(bits: u32) -> u32
    requires { bits ≤ 65536 }
    ensures enough { bits ≤ result * 512 }
    ensures few { result * 512 < bits + 512 }
{
    bits.div_ceil(512)
}

impl Lines {
    // The rows of a grid.
    pub(crate) fn rows_of(alloc: Global, grid: &Grid) -> Result<Lines, NoMemory>
        ensures { IfOk result (λ l. Shows l grid.now.height grid.now.width (is_free_in grid.now)) }
    {
        let blocks = blocks_for(u32::from(grid.width()) + 2);
        let words = words_on(alloc, grid, blocks as usize * 8)?;
        Ok(Lines {
            lines: u32::from(grid.height()) + 2,
            blocks,
            words,
        })
    }

    // The columns, given the rows: so many columns of so many cells.
    pub(crate) fn turned(&self, alloc: Global, columns: u16, cells: u16) -> Result<Lines, NoMemory>
        requires columns { columns ≤ 4096 }
        requires cells { cells ≤ 4096 }
        requires wide { columns + 2 ≤ self.now.blocks * 512 }
        requires high { self.now.lines ≡ cells + 2 }
        requires short { self.now.blocks ≤ 128 }
        ensures { IfOk result (λ l. (free : ℕ → ℕ → Bool) → Shows self.now cells columns free
            → ((line place : ℕ) → cells + 2 ≤ line → free line place ≡ false)
            → Shows l columns cells (λ line place. free place line)) }
    {
        let lines = u32::from(columns) + 2;
        let blocks = blocks_for(u32::from(cells) + 2);
        let words = turned(
            alloc,
            &self.words,
            self.lines as usize,
            self.blocks as usize * 8,
            lines as usize,
            blocks as usize * 8,
        )?;
        Ok(Lines {
            lines,
            blocks,
            words,
        })
    }

    // Sets the bit at a position of a line, or clears it; all others stay.
    pub(crate) fn set(&mut self, line: u32, position: u32, free: bool)
        requires line { line < self.old.lines }
        requires position { position < self.old.blocks * 512 }
        ensures edited { (lines positions : ℕ) (shown : ℕ → ℕ → Bool) → Shows self.old lines positions shown
            → Shows self.new lines positions (with_cell shown line position free) }
        ensures lines { self.new.lines ≡ self.old.lines }
        ensures blocks { self.new.blocks ≡ self.old.blocks }
    {
        let place = line as usize * self.blocks as usize * 8 + position as usize / 64;
        self.words[place] = with_bit(self.words[place], position % 64, free);
    }

    /// The number of lines, the border's two among them.
    pub fn lines(&self) -> u32
        ensures { result ≡ self.now.lines }
    {
        self.lines
    }

    /// The number of blocks in a line.
    pub fn blocks(&self) -> u32
        ensures { result ≡ self.now.blocks }
    {
        self.blocks
    }

    /// A block of a line, both counted from 0: its eight words, where bit `j` of word `k` is the line's bit
    /// `512·index + 64·k + j`. It counts one step for each block that it hands out, however many of its words
    /// are read. Bits are read so, or by `three_lanes` or `three`.
    #[inline(always)]
    pub fn lane<L: Ledger>(&self, line: u32, index: u32, steps: &mut Steps<L>) -> &[u64]
        requires line { line < self.now.lines }
        requires index { index < self.now.blocks }
        ensures eight { length result.now ≡ 8 }
        ensures shown { (lines positions : ℕ) (free : ℕ → ℕ → Bool) → Shows self.now lines positions free
            → (k j : ℕ) → k < 8 → j < 64
            → is_set (slice_index_or result.now k 0) j ≡ free line (index * 512 + k * 64 + j) }
        ensures one_step { steps.new ≡ steps.old + 1 }
    {
        steps.tick();
        eight_from(
            &self.words,
            (line as usize * self.blocks as usize + index as usize) * 8,
        )
    }

    /// A block of a line and the same of the two lines beside it, as `lane` hands them out, by one product.
    /// It counts three steps.
    #[inline(always)]
    pub fn three_lanes<L: Ledger>(
        &self,
        line: u32,
        index: u32,
        steps: &mut Steps<L>,
    ) -> ThreeLanes<'_>
        requires first { 1 ≤ line }
        requires last { line + 1 < self.now.lines }
        requires index { index < self.now.blocks }
        ensures eight { (length result.middle.now ≡ 8) × (length result.before.now ≡ 8)
            × (length result.after.now ≡ 8) }
        ensures middle { (lines positions : ℕ) (free : ℕ → ℕ → Bool) → Shows self.now lines positions free
            → (k j : ℕ) → k < 8 → j < 64
            → is_set (slice_index_or result.middle.now k 0) j ≡ free line (index * 512 + k * 64 + j) }
        ensures before { (lines positions : ℕ) (free : ℕ → ℕ → Bool) → Shows self.now lines positions free
            → (k j : ℕ) → k < 8 → j < 64
            → is_set (slice_index_or result.before.now k 0) j ≡ free (line - 1) (index * 512 + k * 64 + j) }
        ensures after { (lines positions : ℕ) (free : ℕ → ℕ → Bool) → Shows self.now lines positions free
            → (k j : ℕ) → k < 8 → j < 64
            → is_set (slice_index_or result.after.now k 0) j ≡ free (line + 1) (index * 512 + k * 64 + j) }
        ensures three_steps { steps.new ≡ steps.old + 3 }
    {
        steps.tick();
        steps.tick();
        steps.tick();
        let per_line = self.blocks as usize * 8;
        let start = line as usize * per_line + index as usize * 8;
        ThreeLanes {
            middle: eight_from(&self.words, start),
            before: eight_from(&self.words, start - per_line),
            after: eight_from(&self.words, start + per_line),
        }
    }

    /// The words of this number of a line and of the two beside it, where bit `j` is each line's bit
    /// `64·word + j`. It counts three steps, as the blocks of three lines do.
    #[inline(always)]
    pub fn three<L: Ledger>(&self, line: u32, word: u32, steps: &mut Steps<L>) -> ThreeWords
        requires first { 1 ≤ line }
        requires last { line + 1 < self.now.lines }
        requires word { word < self.now.blocks * 8 }
        ensures middle { (lines positions : ℕ) (free : ℕ → ℕ → Bool) → Shows self.now lines positions free
            → (j : ℕ) → j < 64 → is_set result.middle j ≡ free line (word * 64 + j) }
        ensures before { (lines positions : ℕ) (free : ℕ → ℕ → Bool) → Shows self.now lines positions free
            → (j : ℕ) → j < 64 → is_set result.before j ≡ free (line - 1) (word * 64 + j) }
        ensures after { (lines positions : ℕ) (free : ℕ → ℕ → Bool) → Shows self.now lines positions free
            → (j : ℕ) → j < 64 → is_set result.after j ≡ free (line + 1) (word * 64 + j) }
        ensures three_steps { steps.new ≡ steps.old + 3 }
    {
        steps.tick();
        steps.tick();
        steps.tick();
        let per_line = self.blocks as usize * 8;
        let place = line as usize * per_line + word as usize;
        ThreeWords {
            middle: self.words[place],
            before: self.words[place - per_line],
            after: self.words[place + per_line],
        }
    }
}
