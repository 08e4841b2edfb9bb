//! The words around a cell: what a scan from it asks that is short, and what a move on from it asks.

ghost use Rattle.std.specs.Prelude.{◌≡◌, ℕ, ◌+◌, ◌*◌, ◌/◌, ◌<◌, ◌&&◌, Bool, true};
ghost use Rattle.grid_moves.specs.Move as moves;
ghost use Rattle.grid_moves.specs.Bits.{is_set};
ghost use Rattle.bit_grid.specs.Bits.{Shows};
ghost use Rattle.jump_block.specs.Near as spec;
ghost use Rattle.jump_block.specs.Near.{AreNear, AreNearStart, HasNextBit, HasNextWord};
ghost use Rattle.jump_block.specs.Scan.{IsStart};
ghost use Rattle.jump_block.specs.Source as source;
ghost use Rattle.jump_block.specs.declared.straight.Axis.TheVariants.{Row, Column};

use crate::diagonal::way_on;
use crate::straight::Axis;
use crate::word::Way;
use bit_grid::{Lines, ThreeWords};
use grid_moves::{Corner, Dir, is_set, passable_bits};
use std::sync::ledger::Ledger;
use steps::Steps;

/// Reads the words of this number of a line and of those beside it.
#[inline(always)]
pub(crate) fn words_beside<L: Ledger>(
    lines: &Lines,
    line: u32,
    word: u32,
    steps: &mut Steps<L>,
) -> ThreeWords
    requires starts { (free : ℕ → ℕ → Bool) × (place : ℕ) × IsStart lines.now free line place }
    requires word { word < lines.now.blocks * 8 }
    ensures beside { (count positions : ℕ) (free : ℕ → ℕ → Bool) → Shows lines.now count positions free
        → AreNear free line (word * 64) result }
    ensures three_steps { steps.new ≡ steps.old + 3 }
{
    lines.three(line, word, steps)
}

/// Reads those that have this place, at which a cell is free.
#[inline(always)]
pub(crate) fn words_near<L: Ledger>(
    lines: &Lines,
    line: u32,
    place: u32,
    steps: &mut Steps<L>,
) -> ThreeWords
    requires starts { (free : ℕ → ℕ → Bool) × IsStart lines.now free line place }
    ensures near { AreNearStart lines.now line place result }
    ensures three_steps { steps.new ≡ steps.old + 3 }
{
    words_beside(lines, line, place / 64, steps)
}

/// Whether a line of so many words has the one next to this on the way.
#[inline(always)]
pub(crate) fn has_next_word(way: Way, per_line: u32, word: u32) -> bool
    requires { word < per_line }
    ensures { result ≡ true → HasNextWord way per_line word }
{
    match way {
        Way::Forward => word + 1 < per_line,
        Way::Back => 0 < word,
    }
}

/// That word's number.
#[inline(always)]
pub(crate) fn next_word(way: Way, word: u32) -> u32
    requires few { word < 65536 }
    requires more { (per_line : ℕ) × HasNextWord way per_line word }
    ensures { result ≡ spec.next_word way word }
{
    match way {
        Way::Forward => word + 1,
        Way::Back => word - 1,
    }
}

/// Whether the word also has the bit next to this one on the way.
#[inline(always)]
pub(crate) fn has_next_bit(way: Way, place: u32) -> bool
    requires { place < 64 }
    ensures { result ≡ true → HasNextBit way place }
{
    match way {
        Way::Forward => place < 63,
        Way::Back => 0 < place,
    }
}

// The word with each bit where the one before it on the way was.
#[inline(always)]
fn drawn_back(way: Way, word: u64) -> u64
    ensures { (j : ℕ) → j < 64 → HasNextBit way j → is_set result j ≡ is_set word (spec.next_bit way j) }
{
    match way {
        Way::Forward => word >> 1,
        Way::Back => word << 1,
    }
}

// The words of the side to which a way across the lines leads.
#[inline(always)]
fn side_word(way: Way, words: ThreeWords) -> u64
    ensures { result ≡ spec.side_word way words }
{
    match way {
        Way::Forward => words.after,
        Way::Back => words.before,
    }
}

/// Whether a diagonal move from this bit is legal, given the words of its row and of those beside it.
#[inline(always)]
pub(crate) fn leads_from_bit(rule: Corner, d: Dir, words: ThreeWords, place: u32) -> bool
    requires small { place < 64 }
    requires more { HasNextBit (source.way_on Row d) place }
    ensures { result
        ≡ (is_set (spec.side_word (source.way_on Column d) words) (spec.next_bit (source.way_on Row d) place)
        && moves.is_passable rule (is_set (spec.side_word (source.way_on Column d) words) place)
        (is_set words.middle (spec.next_bit (source.way_on Row d) place))) }
{
    let way = way_on(Axis::Row, d);
    let side = side_word(way_on(Axis::Column, d), words);
    let passes = passable_bits(rule, side, drawn_back(way, words.middle));
    is_set(drawn_back(way, side) & passes, place)
}
