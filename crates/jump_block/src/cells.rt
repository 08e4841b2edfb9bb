//! The bits around a cell, read from three rows.

ghost use Rattle.std.specs.Prelude.{◌≡◌, ℕ, suc, ◌+◌, ◌*◌, ◌/◌, ◌%◌, ◌<◌, ◌≤◌, Bool};
ghost use Rattle.grid_moves.specs.Move as moves;
ghost use Rattle.grid_moves.specs.Ring.{is_free_on};
ghost use Rattle.pruning.specs.Eight.{ring_of};
ghost use Rattle.grid_moves.specs.Bits.{is_set};
ghost use Rattle.bit_grid.specs.Bits.{Shows};
ghost use Rattle.jump_block.specs.Near.{AreThree, AreThreeBeside};
ghost use Rattle.jump_block.specs.Source.{OnSome, OnEach};

use crate::straight::Bits;
use bit_grid::{Lines, ThreeWords};
use grid_moves::{Cell, is_set};
use std::sync::ledger::Ledger;
use steps::Steps;

// The word from this bit on.
#[inline(always)]
#[tactic(auto, using(grid_moves::proofs::Bits::set_from))]
fn from_bit(word: u64, place: u32) -> u64
    requires { place < 64 }
    ensures { (j : ℕ) → is_set result j ≡ is_set word (place + j) }
{
    word >> place
}

// A word with one more bit, below the others.
#[inline(always)]
fn with_lowest(word: u64, bit: bool) -> u64
    ensures lowest { is_set result 0 ≡ bit }
    ensures others { (j : ℕ) → suc j < 64 → is_set result (suc j) ≡ is_set word j }
{
    word << 1 | u64::from(bit)
}

// The word of a line with this bit.
#[inline(always)]
fn word_with<L: Ledger>(lines: &Lines, line: u32, place: u32, steps: &mut Steps<L>) -> u64
    requires line { line < lines.now.lines }
    requires place { place < lines.now.blocks * 512 }
    ensures shown { (count positions : ℕ) (free : ℕ → ℕ → Bool) → Shows lines.now count positions free
        → (j : ℕ) → j < 64 → is_set result j ≡ free line (place / 64 * 64 + j) }
    ensures one_step { steps.new ≡ steps.old + 1 }
{
    let lane = lines.lane(line, place / 512, steps);
    lane[(place / 64 % 8) as usize]
}

// Whether a line's bit is set.
#[inline(always)]
pub(crate) fn bit_of<L: Ledger>(lines: &Lines, line: u32, place: u32, steps: &mut Steps<L>) -> bool
    requires line { line < lines.now.lines }
    requires place { place < lines.now.blocks * 512 }
    ensures shown { (count positions : ℕ) (free : ℕ → ℕ → Bool) → Shows lines.now count positions free
        → result ≡ free line place }
    ensures one_step { steps.new ≡ steps.old + 1 }
{
    is_set(word_with(lines, line, place, steps), place % 64)
}

// Three bits that lie in two words.
#[inline(never)]
fn three_apart<L: Ledger>(lines: &Lines, line: u32, first: u32, steps: &mut Steps<L>) -> u64
    requires line { line < lines.now.lines }
    requires places { first + 2 < lines.now.blocks * 512 }
    requires small { first + 2 < 65536 }
    ensures shown { (count positions : ℕ) (free : ℕ → ℕ → Bool) → Shows lines.now count positions free
        → AreThree free line first result }
    ensures three_steps { steps.new ≡ steps.old + 3 }
{
    let zeroth = bit_of(lines, line, first, steps);
    let next = bit_of(lines, line, first + 1, steps);
    let last = bit_of(lines, line, first + 2, steps);
    with_lowest(with_lowest(u64::from(last), next), zeroth)
}

// The three bits of a line from this one on, and those of the lines beside it.
#[inline(always)]
fn three_beside<L: Ledger>(lines: &Lines, line: u32, first: u32, steps: &mut Steps<L>) -> ThreeWords
    requires line { 1 ≤ line }
    requires few { line ≤ 65536 }
    requires inside { line + 1 < lines.now.lines }
    requires places { first + 2 < lines.now.blocks * 512 }
    requires small { first + 2 < 65536 }
    ensures shown { (count positions : ℕ) (free : ℕ → ℕ → Bool) → Shows lines.now count positions free
        → AreThreeBeside free line first result }
    ensures some { steps.old + 3 ≤ steps.new }
    ensures most { steps.new ≤ steps.old + 9 }
{
    if first % 64 < 62 {
        let words = lines.three(line, first / 64, steps);
        ThreeWords {
            middle: from_bit(words.middle, first % 64),
            before: from_bit(words.before, first % 64),
            after: from_bit(words.after, first % 64),
        }
    } else {
        ThreeWords {
            middle: three_apart(lines, line, first, steps),
            before: three_apart(lines, line - 1, first, steps),
            after: three_apart(lines, line + 1, first, steps),
        }
    }
}

// The bits around the middle one of each line's lowest three: three of the line before from the lowest, then
// two of the line, and three of the line after.
#[inline(always)]
fn around_middle(words: ThreeWords) -> usize
    ensures is { result
        ≡ words.before % 8 + words.middle % 2 * 8 + words.middle / 4 % 2 * 16 + words.after % 8 * 32 }
    ensures few { result < 256 }
{
    let beside = words.middle % 2 * 8 + words.middle / 4 % 2 * 16;
    (words.before % 8 + beside + words.after % 8 * 32) as usize
}

impl<'a> Bits<'a> {
    /// Reads which of the cells around a free cell are free, as eight bits in the order of pruning's
    /// `ring_of`.
    #[inline(always)]
    pub(crate) fn eight<L: Ledger>(&self, at: Cell, steps: &mut Steps<L>) -> usize
        requires stands { OnSome self.now at }
        ensures few { result < 256 }
        ensures around { OnEach self.now at
            (λ g. (d : _) → is_free_on (ring_of result) d ≡ moves.is_open g at d) }
        ensures most { steps.new ≤ steps.old + 9 }
        ensures fewest { steps.old + 3 ≤ steps.new }
    {
        let (x, y) = (u32::from(at.x), u32::from(at.y));
        around_middle(three_beside(self.rows, y + 1, x, steps))
    }
}
