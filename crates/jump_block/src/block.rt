//! Blocks of 512 places, searched word by word, or passed whole.

ghost use Rattle.std.specs.Prelude.{◌≡◌, ℕ, ◌+◌, ◌*◌, ◌-◌, ◌/◌, ◌<◌, ◌≤◌, Bool, false, true, is_some, IfSome};
ghost use Rattle.bit_grid.specs.Bits.{Shows};
ghost use Rattle.jump_block.specs.Trail as trails;
ghost use Rattle.jump_block.specs.Trail.{Trail, IsClear, begun, trail_on};
ghost use Rattle.jump_block.specs.Word as spec;
ghost use Rattle.jump_block.specs.Word.{AreEdgesOf, AreEight, AreWordsOf, IsBlockOf, IsAhead, edge_before};
ghost use Rattle.jump_block.specs.Word.{moves_before, words_of, nth_word};
ghost use Rattle.jump_block.specs.Seek.{HasPassed, IsSought};
ghost use Rattle.jump_block.specs.Near.{AreNear};
ghost use Rattle.jump_block.specs.Scan.{IsStart};

use crate::eight::{are_none, blocked, changed};
use crate::near::{has_next_word, next_word, words_beside};
use crate::word::{Way, begun, first, halts, marks, past};
use bit_grid::{Lines, ThreeWords};
use grid_moves::Corner;
use std::sync::ledger::Ledger;
use steps::Steps;

/// The same block of three lines that lie side by side, eight words of each.
#[derive(Clone, Copy)]
pub(crate) struct Block<'a> {
    pub(crate) middle: &'a [u64],
    pub(crate) before: &'a [u64],
    pub(crate) after: &'a [u64],
}

/// Where a scan halts.
#[derive(Clone, Copy)]
pub(crate) struct Halt {
    /// How many moves it makes before, below 65536. It has a register of its own, and is left out where a
    /// caller asks only whether a mark shows.
    pub(crate) passed: u64,
    /// Whether a side that opens there shows a mark; else the run ends, and the next cell is blocked.
    pub(crate) marked: bool,
}

/// What the search of a block finds: where the scan halts, or the last words that it passes.
#[derive(Clone, Copy)]
pub(crate) enum Seek {
    Halted(Halt),
    Passed(ThreeWords),
}

// No bits: what a scan has passed before its first word. Its bits up to the start are left out.
const NOTHING: ThreeWords = ThreeWords {
    middle: 0,
    before: 0,
    after: 0,
};

// The place in the block of the i-th word on the way.
#[inline(always)]
fn nth_word(way: Way, i: u32) -> u32
    requires { i < 8 }
    ensures is { result ≡ nth_word way i }
    ensures small { result < 8 }
{
    match way {
        Way::Forward => i,
        Way::Back => 7 - i,
    }
}

// How many moves are made before the one to a place.
#[inline(always)]
fn moves_short_of(way: Way, from: u32, place: u32) -> u64
    requires place { place < 65536 }
    requires from { from < 65536 }
    ensures { result ≡ spec.moves_short_of way from place }
{
    match way {
        Way::Forward => u64::from(place.saturating_sub(from + 1)),
        Way::Back => u64::from(from.saturating_sub(place + 1)),
    }
}

// Where a scan halts, given the bits of a word at which it does, those of them that show a mark, and the
// word's first place.
#[inline(always)]
fn halt_at(way: Way, marks: u64, found: u64, from: u32, base: u32) -> Halt
    requires some { 0 < found }
    requires small { base + 64 ≤ 65536 }
    requires start { from < 65536 }
    ensures { (rule : Corner) (t : Trail) (n : ℕ) → spec.IsFound t way from base n found
        → spec.TellMoves (trails.shows_mark rule t) way from base marks
        → trails.Halts rule t result.passed result.marked }
{
    let bit = first(way, found);
    Halt {
        passed: moves_short_of(way, from, base + bit),
        marked: marks >> bit & 1 == 1,
    }
}

/// Where a scan halts among the places of the word in which it starts, given the words around its start, or
/// `None` where it leaves the word.
#[inline(always)]
pub(crate) fn halt_near(way: Way, rule: Corner, near: ThreeWords, from: u32) -> Option<Halt>
    requires from { from < 65536 }
    ensures halts { (t : Trail) → AreWordsOf t way from (from / 64 * 64) near
        → IfSome result (λ h. trails.Halts rule (begun rule t) h.passed h.marked) }
    ensures clear { is_some result ≡ false → (t : Trail) → AreWordsOf t way from (from / 64 * 64) near
        → IsClear (begun rule t) (moves_before way from (spec.far way (from / 64 * 64))) }
{
    let place = from % 64;
    let words = begun(rule, near, place);
    let found = halts(way, words, NOTHING) & past(way, place);
    if found == 0 {
        return None;
    }
    let marks = marks(way, rule, words, NOTHING);
    Some(halt_at(way, marks, found, from, from / 64 * 64))
}

/// The same for the next word of a line, if it has one, where nothing halts the scan before.
#[inline(always)]
pub(crate) fn halt_next<L: Ledger>(
    way: Way,
    rule: Corner,
    lines: &Lines,
    line: u32,
    from: u32,
    near: ThreeWords,
    steps: &mut Steps<L>,
) -> Option<Halt>
    requires starts { (free : ℕ → ℕ → Bool) × IsStart lines.now free line from }
    ensures halts { (free : ℕ → ℕ → Bool) → IsStart lines.now free line from → AreNear free line from near
        → IsClear (begun rule (trail_on free way line from))
        (moves_before way from (spec.far way (from / 64 * 64)))
        → IfSome result
        (λ h. trails.Halts rule (begun rule (trail_on free way line from)) h.passed h.marked) }
    ensures most { steps.new ≤ steps.old + 3 }
    ensures more { steps.old ≤ steps.new }
{
    let word = from / 64;
    if !has_next_word(way, lines.blocks() * 8, word) {
        return None;
    }
    let next = next_word(way, word);
    let words = words_beside(lines, line, next, steps);
    let last = begun(rule, near, from % 64);
    let found = halts(way, words, last);
    if found == 0 {
        return None;
    }
    let marks = marks(way, rule, words, last);
    Some(halt_at(way, marks, found, from, next * 64))
}

impl<'a> Block<'a> {
    /// Reads a block of a line and of the lines beside it.
    #[inline(always)]
    pub(crate) fn read<L: Ledger>(
        lines: &'a Lines,
        line: u32,
        index: u32,
        steps: &mut Steps<L>,
    ) -> Block<'a>
        requires line { 1 ≤ line }
        requires inside { line + 1 < lines.now.lines }
        requires index { index < lines.now.blocks }
        ensures shown { (count positions : ℕ) (free : ℕ → ℕ → Bool) → Shows lines.now count positions free
            → (way : Way) (from : ℕ)
            → IsBlockOf (trail_on free way line from) way from (index * 512) 0 result }
        ensures eight { AreEight result }
        ensures three_steps { steps.new ≡ steps.old + 3 }
    {
        let lanes = lines.three_lanes(line, index, steps);
        Block {
            middle: lanes.middle,
            before: lanes.before,
            after: lanes.after,
        }
    }

    // The words of this number.
    #[inline(always)]
    fn words(&self, w: u32) -> ThreeWords
        requires eight { AreEight self.now }
        requires inside { w < 8 }
        ensures { result ≡ words_of self.now w }
    {
        let w = w as usize;
        ThreeWords {
            middle: self.middle[w],
            before: self.before[w],
            after: self.after[w],
        }
    }

    /// Searches the block from the i-th word on the way, given the words before.
    #[inline(always)]
    pub(crate) fn seek(
        &self,
        way: Way,
        rule: Corner,
        i: u32,
        last: ThreeWords,
        from: u32,
        start: u32,
    ) -> Seek
        requires eight { AreEight self.now }
        requires some { i ≤ 8 }
        requires small { start + 512 ≤ 65536 }
        requires ahead { IsAhead way from (edge_before way start i) }
        requires from { from < 65536 }
        ensures { (t : Trail) → IsBlockOf t way from start i self.now
            → AreEdgesOf t way from (edge_before way start i) last
            → IsClear t (moves_before way from (edge_before way start i))
            → IsSought rule t way from (edge_before way start 8) result }
    {
        let mut last = last;
        for n in i..8 {
            let w = nth_word(way, n);
            let words = self.words(w);
            let found = halts(way, words, last);
            if found != 0 {
                let marks = marks(way, rule, words, last);
                return Seek::Halted(halt_at(way, marks, found, from, start + w * 64));
            }
            last = words;
        }
        Seek::Passed(last)
    }

    // Whether all cells of the block are free and nothing changes beside it, given the words before: a scan
    // that comes to it passes it then. It passes some other blocks too, which are searched word by word.
    #[inline(always)]
    fn is_passed(&self, way: Way, last: ThreeWords) -> bool
        requires eight { AreEight self.now }
        ensures { result ≡ true → (t : Trail) (from start : ℕ) → IsBlockOf t way from start 0 self.now
            → IsAhead way from (edge_before way start 0)
            → HasPassed t way from (edge_before way start 0) last
            → HasPassed t way from (edge_before way start 8) (words_of self.now (spec.nth_word way 7)) }
    {
        are_none(
            blocked(self.middle),
            changed(way, self.before, last.before),
            changed(way, self.after, last.after),
        )
    }

    /// Searches the whole block, given the words before. Mostly it is passed, which a quick test finds first.
    #[inline(always)]
    pub(crate) fn seek_whole(
        &self,
        way: Way,
        rule: Corner,
        last: ThreeWords,
        from: u32,
        start: u32,
    ) -> Seek
        requires eight { AreEight self.now }
        requires small { start + 512 ≤ 65536 }
        requires ahead { IsAhead way from (edge_before way start 0) }
        requires from { from < 65536 }
        ensures { (t : Trail) → IsBlockOf t way from start 0 self.now
            → AreEdgesOf t way from (edge_before way start 0) last
            → IsClear t (moves_before way from (edge_before way start 0))
            → IsSought rule t way from (edge_before way start 8) result }
    {
        if self.is_passed(way, last) {
            return Seek::Passed(self.words(nth_word(way, 7)));
        }
        self.seek(way, rule, 0, last, from, start)
    }

    /// Where a scan halts among the places of the word in which it starts, given the block with this word, or
    /// `None` where it leaves the word.
    #[inline(always)]
    pub(crate) fn halt_first(&self, way: Way, rule: Corner, from: u32) -> Option<Halt>
        requires eight { AreEight self.now }
        requires from { from < 65536 }
        ensures halts { (t : Trail) → IsBlockOf t way from (from / 512 * 512) 0 self.now
            → IfSome result (λ h. trails.Halts rule (begun rule t) h.passed h.marked) }
        ensures clear { is_some result ≡ false → (t : Trail)
            → IsBlockOf t way from (from / 512 * 512) 0 self.now
            → IsClear (begun rule t) (moves_before way from (spec.far way (from / 64 * 64))) }
    {
        halt_near(way, rule, self.words(from % 512 / 64), from)
    }

    /// Searches the words of that block that come after that word, where nothing halts the scan before.
    #[inline(always)]
    pub(crate) fn seek_rest(&self, way: Way, rule: Corner, from: u32) -> Seek
        requires eight { AreEight self.now }
        requires from { from < 65536 }
        ensures { (t : Trail) → IsBlockOf t way from (from / 512 * 512) 0 self.now
            → IsClear (begun rule t) (moves_before way from (spec.far way (from / 64 * 64)))
            → IsSought rule (begun rule t) way from (edge_before way (from / 512 * 512) 8) result }
    {
        let w = from % 512 / 64;
        let words = begun(rule, self.words(w), from % 64);
        self.seek(
            way,
            rule,
            nth_word(way, w) + 1,
            words,
            from,
            from / 512 * 512,
        )
    }

    /// Searches the block in which a scan starts.
    #[inline(always)]
    pub(crate) fn seek_start(&self, way: Way, rule: Corner, from: u32) -> Seek
        requires eight { AreEight self.now }
        requires from { from < 65536 }
        ensures { (t : Trail) → IsBlockOf t way from (from / 512 * 512) 0 self.now
            → IsSought rule (begun rule t) way from (edge_before way (from / 512 * 512) 8) result }
    {
        match self.halt_first(way, rule, from) {
            Some(halt) => Seek::Halted(halt),
            None => self.seek_rest(way, rule, from),
        }
    }
}
