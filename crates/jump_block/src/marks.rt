//! Scans along a line on which the goal is not ahead: where they halt at a mark, and whether they do.

ghost use Rattle.std.specs.Prelude.{◌≡◌, ℕ, ◌+◌, ◌<◌, ◌≤◌, Bool};
ghost use Rattle.grid_moves.specs.Ruled as ruled;
ghost use Rattle.jump_block.specs.Trail.{Halts, Trail};
ghost use Rattle.jump_block.specs.Scan.{ClearFrom, Finds, HasFirst, IsStart, MeetsFrom, looked};
ghost use Rattle.jump_block.specs.Source.{StopsFrom};
ghost use Rattle.jump_block.specs.Near.{AreNearStart};
ghost use Rattle.jump_block.specs.Word as ways;
ghost use Rattle.jump_block.specs.Word.{AreEight};

use crate::block::{Block, Halt, halt_near, halt_next};
use crate::scan::{scan_rest, way_of};
use crate::straight::stop_of;
use crate::word::Way;
use bit_grid::{Lines, ThreeWords};
use grid_moves::{Corner, rule_of_number};
use std::sync::ledger::Ledger;
use steps::Steps;

// Whether a scan halts at a mark: else its run ends there.
#[inline(always)]
fn is_mark(found: Option<Halt>) -> bool
    ensures { (rule : Corner) (t : Trail) → Finds rule t 0 found → Halts rule t (looked 0 found) result }
{
    match found {
        Some(halt) => halt.marked,
        None => false,
    }
}

// Whether a scan halts at a mark, where nothing halts it in the words around the cell: the next three are
// read before all that is past them.
#[inline(never)]
fn finds_next<const FORWARD: bool, const RULE: usize, L: Ledger>(
    rule: Corner,
    lines: &Lines,
    line: u32,
    place: u32,
    near: ThreeWords,
    steps: &mut Steps<L>,
) -> bool
    requires rule { rule ≡ ruled.rule_of_number RULE }
    requires starts { (free : ℕ → ℕ → Bool) × IsStart lines.now free line place }
    requires near { AreNearStart lines.now line place near }
    requires clear { ClearFrom lines.now rule (ways.way_of FORWARD) line place }
    ensures finds { MeetsFrom lines.now rule (ways.way_of FORWARD) line place
        (steps.old + 3) steps.new result }
    ensures more { steps.old ≤ steps.new }
{
    let found = halt_next(
        way_of(FORWARD),
        rule_of_number(RULE),
        lines,
        line,
        place,
        near,
        steps,
    );
    if found.is_some() {
        return is_mark(found);
    }
    let block = Block::read(lines, line, place / 512, steps);
    mark_past::<FORWARD, RULE, L>(
        lines,
        line,
        place,
        block.middle,
        block.before,
        block.after,
        steps,
    )
    .is_some()
}

/// Whether a scan from a free cell halts at a mark, given the words around the cell.
#[inline(always)]
pub(crate) fn finds_mark<const RULE: usize, L: Ledger>(
    way: Way,
    rule: Corner,
    lines: &Lines,
    line: u32,
    place: u32,
    near: ThreeWords,
    steps: &mut Steps<L>,
) -> bool
    requires rule { rule ≡ ruled.rule_of_number RULE }
    requires starts { (free : ℕ → ℕ → Bool) × IsStart lines.now free line place }
    requires near { AreNearStart lines.now line place near }
    ensures finds { MeetsFrom lines.now rule way line place (steps.old + 3) steps.new result }
    ensures more { steps.old ≤ steps.new }
{
    let found = halt_near(way, rule, near, place);
    if found.is_some() {
        return is_mark(found);
    }
    match way {
        Way::Forward => finds_next::<true, RULE, L>(rule, lines, line, place, near, steps),
        Way::Back => finds_next::<false, RULE, L>(rule, lines, line, place, near, steps),
    }
}

// After how many moves a jump stops, where nothing halts its scan in the word in which it starts. It is given
// the block with this word and those of the lines beside it, each by itself, so that they stay in registers.
#[inline(never)]
fn mark_past<const FORWARD: bool, const RULE: usize, L: Ledger>(
    lines: &Lines,
    line: u32,
    place: u32,
    middle: &[u64],
    before: &[u64],
    after: &[u64],
    steps: &mut Steps<L>,
) -> Option<u16>
    requires starts { (free : ℕ → ℕ → Bool) × IsStart lines.now free line place }
    requires eight { AreEight (record { middle = middle; before = before; after = after }) }
    requires block { HasFirst lines.now (ways.way_of FORWARD) line place
        (record { middle = middle; before = before; after = after }) }
    requires clear { ClearFrom lines.now (ruled.rule_of_number RULE) (ways.way_of FORWARD) line place }
    ensures stops { StopsFrom lines.now (ruled.rule_of_number RULE) (ways.way_of FORWARD) 0 line place
        steps.old (steps.new + 3) result }
    ensures more { steps.old ≤ steps.new }
{
    let block = Block {
        middle,
        before,
        after,
    };
    let found = scan_rest::<FORWARD, RULE, L>(lines, line, place, block, steps);
    stop_of(rule_of_number(RULE), found, 0)
}

/// After how many moves a jump from a free cell stops: at the mark at which its scan halts, or `None` where
/// its run ends there.
///
/// It is out of line, so that other jumps do not pay for its registers. What is past the word in which the
/// scan starts is out of line too, as about half of the scans halt in their first word.
#[inline(never)]
pub(crate) fn first_mark<const FORWARD: bool, const RULE: usize, L: Ledger>(
    lines: &Lines,
    line: u32,
    place: u32,
    steps: &mut Steps<L>,
) -> Option<u16>
    requires starts { (free : ℕ → ℕ → Bool) × IsStart lines.now free line place }
    ensures stops { StopsFrom lines.now (ruled.rule_of_number RULE) (ways.way_of FORWARD) 0 line place
        steps.old steps.new result }
    ensures fewest { steps.old + 3 ≤ steps.new }
{
    let rule = rule_of_number(RULE);
    let block = Block::read(lines, line, place / 512, steps);
    let found = block.halt_first(way_of(FORWARD), rule, place);
    if found.is_some() {
        return stop_of(rule, found, 0);
    }
    let Block {
        middle,
        before,
        after,
    } = block;
    mark_past::<FORWARD, RULE, L>(lines, line, place, middle, before, after, steps)
}
