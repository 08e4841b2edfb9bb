//! Scans along a line, block by block.

ghost use Rattle.std.specs.Prelude.{◌≡◌, ℕ, ◌+◌, ◌-◌, ◌<◌, ◌≤◌, ◌&&◌, Bool, false, nat_lt, nat_le};
ghost use Rattle.grid_moves.specs.Ruled as ruled;
ghost use Rattle.jump_block.specs.Scan.{ClearFrom, FindsFrom, HasFirst, IsStart, PassedFrom, looked};
ghost use Rattle.jump_block.specs.Scan.{most_lanes};
ghost use Rattle.jump_block.specs.Word as spec;
ghost use Rattle.jump_block.specs.Word.{AreEight};

use crate::block::{Block, Halt, Seek};
use crate::word::Way;
use bit_grid::{Lines, ThreeWords};
use grid_moves::{Corner, rule_of_number};
use std::sync::ledger::Ledger;
use steps::Steps;

// The number of moves that lead to the block's last place on the way.
#[inline(always)]
fn moves_through(way: Way, from: u32, start: u32) -> u32
    requires start { start + 512 ≤ 65536 }
    requires from { from < 65536 }
    ensures { result ≡ spec.moves_before way from (spec.edge_before way start 8) }
{
    match way {
        Way::Forward => (start + 512).saturating_sub(from + 1),
        Way::Back => from.saturating_sub(start),
    }
}

// Whether the goal is among the next so many cells.
#[inline(always)]
fn is_met(to_goal: u32, moves: u32) -> bool
    ensures { result ≡ (nat_lt 0 to_goal && nat_le to_goal moves) }
{
    0 < to_goal && to_goal <= moves
}

// The next block on the way.
#[inline(always)]
fn next_block(way: Way, index: u32) -> u32
    requires more { spec.HasNext way index }
    ensures { result ≡ spec.next_block way index }
{
    match way {
        Way::Forward => index + 1,
        Way::Back => index - 1,
    }
}

// Goes on past the block in which a scan started, given the last words that it passed there.
//
// It reads three blocks at a time: of the line, and of those beside it. The next ones are read only where
// neither a halt nor the goal is found in those at hand.
#[inline(always)]
fn scan_on<L: Ledger>(
    way: Way,
    rule: Corner,
    lines: &Lines,
    line: u32,
    place: u32,
    to_goal: u32,
    last: ThreeWords,
    steps: &mut Steps<L>,
) -> Option<Halt>
    requires starts { (free : ℕ → ℕ → Bool) × IsStart lines.now free line place }
    requires passed { PassedFrom lines.now rule way line place last }
    ensures finds { FindsFrom lines.now rule way to_goal line place result }
    ensures most { steps.new + 3 ≤ steps.old + most_lanes (looked to_goal result) }
    ensures more { steps.old ≤ steps.new }
{
    let mut index = place / 512;
    let mut last = last;
    'blocks: while !is_met(to_goal, moves_through(way, place, index * 512)) {
        index = next_block(way, index);
        let block = Block::read(lines, line, index, steps);
        last = match block.seek_whole(way, rule, last, place, index * 512) {
            Seek::Halted(halt) => return Some(halt),
            Seek::Passed(words) => words,
        };
    }
    None
}

/// The way forward, or else the way back, so that it can be a constant of a function,
/// which has code of its own for each.
#[inline(always)]
pub(crate) fn way_of(forward: bool) -> Way
    ensures { result ≡ spec.way_of forward }
{
    if forward { Way::Forward } else { Way::Back }
}

// How many moves on the goal lies: 0, which the compiler then knows, where it is known not to be ahead.
#[inline(always)]
fn moves_to_goal<const AIMED: bool>(to_goal: u32) -> u32
    requires aside { AIMED ≡ false → to_goal ≡ 0 }
    ensures { result ≡ to_goal }
{
    if AIMED { to_goal } else { 0 }
}

// The same out of line, on a way and under a rule that the compiler knows: each has a loop of its own, and
// another one in which the goal is not looked for.
#[inline(never)]
fn scan_on_by<const FORWARD: bool, const RULE: usize, const AIMED: bool, L: Ledger>(
    rule: Corner,
    lines: &Lines,
    line: u32,
    place: u32,
    to_goal: u32,
    last: ThreeWords,
    steps: &mut Steps<L>,
) -> Option<Halt>
    requires rule { rule ≡ ruled.rule_of_number RULE }
    requires aside { AIMED ≡ false → to_goal ≡ 0 }
    requires starts { (free : ℕ → ℕ → Bool) × IsStart lines.now free line place }
    requires passed { PassedFrom lines.now rule (spec.way_of FORWARD) line place last }
    ensures finds { FindsFrom lines.now rule (spec.way_of FORWARD) to_goal line place result }
    ensures most { steps.new + 3 ≤ steps.old + most_lanes (looked to_goal result) }
    ensures more { steps.old ≤ steps.new }
{
    let rule = rule_of_number(RULE);
    let to_goal = moves_to_goal::<AIMED>(to_goal);
    scan_on(
        way_of(FORWARD),
        rule,
        lines,
        line,
        place,
        to_goal,
        last,
        steps,
    )
}

/// Goes on with a scan past the word in which it starts, where nothing halts it before and the goal is not
/// ahead, given the block in which it starts.
#[inline(always)]
pub(crate) fn scan_rest<const FORWARD: bool, const RULE: usize, L: Ledger>(
    lines: &Lines,
    line: u32,
    place: u32,
    block: Block,
    steps: &mut Steps<L>,
) -> Option<Halt>
    requires starts { (free : ℕ → ℕ → Bool) × IsStart lines.now free line place }
    requires eight { AreEight block }
    requires block { HasFirst lines.now (spec.way_of FORWARD) line place block }
    requires clear { ClearFrom lines.now (ruled.rule_of_number RULE) (spec.way_of FORWARD) line place }
    ensures finds { FindsFrom lines.now (ruled.rule_of_number RULE) (spec.way_of FORWARD) 0
        line place result }
    ensures most { steps.new + 3 ≤ steps.old + most_lanes (looked 0 result) }
    ensures more { steps.old ≤ steps.new }
{
    let rule = rule_of_number(RULE);
    match block.seek_rest(way_of(FORWARD), rule, place) {
        Seek::Halted(halt) => Some(halt),
        Seek::Passed(words) => {
            scan_on_by::<FORWARD, RULE, false, L>(rule, lines, line, place, 0, words, steps)
        }
    }
}

/// Scans along a line from a free cell: finds where the scan halts, or `None` where the goal is met before.
/// The goal lies so many moves on, or is not ahead, which is 0.
///
/// Most scans halt in the block in which they start, so what is past it is looked at out of line.
#[inline(always)]
pub(crate) fn scan<const RULE: usize, L: Ledger>(
    way: Way,
    rule: Corner,
    lines: &Lines,
    line: u32,
    place: u32,
    to_goal: u32,
    steps: &mut Steps<L>,
) -> Option<Halt>
    requires rule { rule ≡ ruled.rule_of_number RULE }
    requires starts { (free : ℕ → ℕ → Bool) × IsStart lines.now free line place }
    ensures finds { FindsFrom lines.now rule way to_goal line place result }
    ensures most { steps.new ≤ steps.old + most_lanes (looked to_goal result) }
    ensures fewest { steps.old + 3 ≤ steps.new }
{
    let block = Block::read(lines, line, place / 512, steps);
    match block.seek_start(way, rule, place) {
        Seek::Halted(halt) => Some(halt),
        Seek::Passed(words) => match way {
            Way::Forward => {
                scan_on_by::<true, RULE, true, L>(rule, lines, line, place, to_goal, words, steps)
            }
            Way::Back => {
                scan_on_by::<false, RULE, true, L>(rule, lines, line, place, to_goal, words, steps)
            }
        },
    }
}
