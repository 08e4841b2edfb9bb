//! Words of bits: 64 places of a line, and of the two lines beside it.
//!
//! A scan halts where the next cell is blocked or a side opens, which is blocked at one cell and free at the
//! next. For 64 cells at a time: a side's bits, shifted by one on the way, are those of the cells before,
//! with the last bit of the word before carried in; `side & !shifted` are the cells at which it opens.
//!
//! Where it halts and the next cell is free, a side opens, which shows a mark. Where the next one is blocked,
//! the run ends, and a side that opens beside it shows one only where a diagonal move may pass between two
//! blocked cells, here from `u` to `n`:
//!
//! ```text
//! # n
//! u #
//! ```

ghost use Rattle.std.specs.Prelude.{◌≡◌, ℕ, ◌+◌, ◌-◌, ◌<◌, false, true, nat_eq, not};
ghost use Rattle.grid_moves.specs.Move as moves;
ghost use Rattle.grid_moves.specs.Bits.{is_set};
ghost use Rattle.jump_block.specs.Trail as trails;
ghost use Rattle.jump_block.specs.Trail.{Trail, begun};
ghost use Rattle.jump_block.specs.Word as spec;
ghost use Rattle.jump_block.specs.Word.{AreWordsOf, IsOpened, TellTrails, is_past};

use bit_grid::ThreeWords;
use grid_moves::{Corner, may_cut, may_slip};

/// Which way a scan goes along a line: to higher places, or back to lower ones.
#[derive(Clone, Copy)]
pub(crate) enum Way {
    Forward,
    Back,
}

// The bits at which a side opens, given the word that the way led through before.
#[inline(always)]
#[tactic(auto, using(crate::proofs::Words::opened_on_forward, crate::proofs::Words::opened_on_back))]
fn opened(way: Way, word: u64, last: u64) -> u64
    ensures { IsOpened way word last result }
{
    match way {
        Way::Forward => word & !(word << 1 | last >> 63),
        Way::Back => word & !(word >> 1 | last << 63),
    }
}

// The bits of blocked cells.
#[inline(always)]
#[tactic(auto, using(bit_grid::proofs::Words::set_not))]
fn blocked(middle: u64) -> u64
    ensures { (j : ℕ) → j < 64 → is_set result j ≡ not (is_set middle j) }
{
    !middle
}

// The bits at which one of both sides opens.
#[inline(always)]
#[tactic(auto, using(crate::proofs::Words::either_there))]
fn opened_beside(way: Way, words: ThreeWords, last: ThreeWords) -> u64
    ensures { TellTrails trails.opens_beside way words last result }
{
    opened(way, words.before, last.before) | opened(way, words.after, last.after)
}

/// The bits that a scan does not reach from the cell before: blocked, or a side opens there.
#[inline(always)]
#[tactic(auto, using(crate::proofs::Words::halts_there))]
pub(crate) fn halts(way: Way, words: ThreeWords, last: ThreeWords) -> u64
    ensures { TellTrails trails.halts way words last result }
{
    blocked(words.middle) | opened_beside(way, words, last)
}

/// Of these bits, those at which a scan shows a mark.
#[inline(always)]
#[tactic(auto, using(crate::proofs::Words::either_there, crate::proofs::Words::shows_too))]
pub(crate) fn marks(way: Way, rule: Corner, words: ThreeWords, last: ThreeWords) -> u64
    ensures { TellTrails (trails.shows_mark rule) way words last result }
{
    if may_slip(rule) {
        words.middle | opened_beside(way, words, last)
    } else {
        words.middle
    }
}

/// The bits past a place, on the way.
#[inline(always)]
#[tactic(auto, using(crate::proofs::Bits::set_above, crate::proofs::Bits::set_below))]
pub(crate) fn past(way: Way, place: u32) -> u64
    requires { place < 64 }
    ensures { (j : ℕ) → j < 64 → is_set result j ≡ is_past way place j }
{
    match way {
        Way::Forward => !(u64::MAX >> (63 - place)),
        Way::Back => (1 << place) - 1,
    }
}

/// The first bit that is set, on the way.
#[inline(always)]
pub(crate) fn first(way: Way, word: u64) -> u32
    requires { 0 < word }
    ensures small { result < 64 }
    ensures set { is_set word result ≡ true }
    ensures first { (j : ℕ) → j < 64 → is_past way j result ≡ true → is_set word j ≡ false }
{
    match way {
        Way::Forward => word.trailing_zeros(),
        Way::Back => 63 - word.leading_zeros(),
    }
}

// The bit of the start, where the sides count as free there.
#[inline(always)]
#[tactic(auto, using(crate::proofs::Bits::set_one))]
fn start_bit(rule: Corner, place: u32) -> u64
    requires { place < 64 }
    ensures uncut { moves.may_cut rule ≡ false → result ≡ 0 }
    ensures cut { moves.may_cut rule ≡ true → (j : ℕ) → j < 64 → is_set result j ≡ nat_eq j place }
{
    if may_cut(rule) { 1 << place } else { 0 }
}

/// The words of a scan that starts at this place.
#[inline(always)]
pub(crate) fn begun(rule: Corner, words: ThreeWords, place: u32) -> ThreeWords
    requires { place < 64 }
    ensures { (t : Trail) (way : Way) (base : ℕ) → AreWordsOf t way (base + place) base words
        → AreWordsOf (begun rule t) way (base + place) base result }
{
    let bit = start_bit(rule, place);
    ThreeWords {
        middle: words.middle,
        before: words.before | bit,
        after: words.after | bit,
    }
}
