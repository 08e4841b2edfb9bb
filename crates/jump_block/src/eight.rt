//! The eight words of a block at once, as one vector.
//!
//! A scan that comes to a block mostly passes it: all its cells are free, and each of the two lines beside
//! it goes on as it was just before, free all along or blocked all along, so that no side opens. That is
//! asked of all words together, with no exit between them: a few vector instructions for each two words. Any
//! other block is searched word by word.

ghost use Rattle.std.specs.Prelude.{◌≡◌, true, length};
ghost use Rattle.grid_moves.specs.Bits.{is_set};
ghost use Rattle.jump_block.specs.Eight.{HasNone, IsAllAs, last_bit};

use crate::word::Way;
use std::simd::u64x8;

// Whether the word's last bit on the way is set.
#[inline(always)]
fn ends_set(way: Way, word: u64) -> bool
    ensures { result ≡ is_set word (last_bit way) }
{
    match way {
        Way::Forward => word >> 63 == 1,
        Way::Back => word & 1 == 1,
    }
}

/// The bits of eight words that differ from the last bit on the way of the word before them.
#[inline(always)]
pub(crate) fn changed(way: Way, side: &[u64], last: u64) -> u64x8
    requires eight { length side.now ≡ 8 }
    ensures { HasNone result → IsAllAs (is_set last (last_bit way)) side.now }
{
    let alike = if ends_set(way, last) { u64::MAX } else { 0 };
    u64x8::from_slice(side) ^ u64x8::splat(alike)
}

/// The bits of blocked cells in eight words.
#[inline(always)]
#[tactic(auto, using(crate::proofs::Lanes::all_free))]
pub(crate) fn blocked(middle: &[u64]) -> u64x8
    requires eight { length middle.now ≡ 8 }
    ensures { HasNone result → IsAllAs true middle.now }
{
    !u64x8::from_slice(middle)
}

/// Whether no bit is set in any of three times eight words.
#[inline(always)]
#[tactic(auto, using(crate::proofs::Lanes::none_of_three))]
pub(crate) fn are_none(a: u64x8, b: u64x8, c: u64x8) -> bool
    ensures { result ≡ true → HasNone a × HasNone b × HasNone c }
{
    (a | b | c).reduce_or() == 0
}
