//! Straight jumps: a scan along a row or a column, and the first stop that follows from where it halts.

ghost use Rattle.std.specs.Prelude.{◌≡◌, ℕ, ◌+◌, ◌≤◌, Bool, false};
ghost use Rattle.pruning.specs.Turns.{is_diagonal};
ghost use Rattle.grid_moves.specs.Ruled as ruled;
ghost use Rattle.jump_block.specs.Scan.{IsStart};
ghost use Rattle.jump_block.specs.Source as spec;
ghost use Rattle.jump_block.specs.Word as ways;
ghost use Rattle.jump_block.specs.Source.{FindsAside, IsNear, OnEach, OnSome, Stops, StopsAside};

use crate::block::Halt;
use crate::marks::{finds_mark, first_mark};
use crate::near::words_near;
use crate::scan::scan;
use crate::word::Way;
use bit_grid::{Columns, Lines, Rows, ThreeWords};
use grid_moves::{Cell, Corner, Dir, may_cut};
use jump_plain::jump::moves_to;
use std::sync::ledger::Ledger;
use steps::Steps;

/// The first stop, given where the scan halts: the goal where it is met before, else the mark, if any. Where
/// no corner is cut the mark is the next cell's, and else that of the cell where the scan halts.
#[inline(always)]
pub(crate) fn stop_of(rule: Corner, found: Option<Halt>, to_goal: u16) -> Option<u16>
    requires few { spec.HasFew found }
    ensures { result ≡ spec.stop_of rule found to_goal }
{
    let Some(halt) = found else {
        return Some(to_goal);
    };
    let ahead = if halt.marked && !may_cut(rule) { 1 } else { 0 };
    let moves = (halt.passed + ahead) as u16;
    if 0 < to_goal && to_goal <= moves {
        Some(to_goal)
    } else if halt.marked {
        Some(moves)
    } else {
        None
    }
}

/// Along which lines a straight jump leads. It is a constant wherever it is asked for.
#[derive(Clone, Copy)]
pub(crate) enum Axis {
    Row,
    Column,
}

// The direction of a way along such a line.
#[inline(always)]
fn dir_on(axis: Axis, way: Way) -> Dir
    ensures is { result ≡ spec.dir_on axis way }
    ensures straight { is_diagonal result ≡ false }
{
    match (axis, way) {
        (Axis::Row, Way::Forward) => Dir::E,
        (Axis::Row, Way::Back) => Dir::W,
        (Axis::Column, Way::Forward) => Dir::S,
        (Axis::Column, Way::Back) => Dir::N,
    }
}

/// Where a straight jump starts: a place on one of the lines of a grid's bits.
#[derive(Clone, Copy)]
struct Start<'a> {
    lines: &'a Lines,
    line: u32,
    place: u32,
}

/// The lines of a grid's bits and the grid's rule, as jumps read them: where the rule is known, it is a
/// constant here.
#[derive(Clone, Copy)]
pub(crate) struct Bits<'a> {
    pub(crate) rows: Rows<'a>,
    pub(crate) columns: Columns<'a>,
    pub(crate) corner: Corner,
}

impl<'a> Bits<'a> {
    // Where a free cell stands on its row or its column.
    #[inline(always)]
    fn start(&self, at: Cell, axis: Axis) -> Start<'a>
        requires stands { OnSome self.now at }
        ensures is { result ≡ spec.start_of self.now axis at }
        ensures starts { (free : ℕ → ℕ → Bool) × IsStart result.lines.now free result.line result.place }
    {
        let (x, y) = (u32::from(at.x) + 1, u32::from(at.y) + 1);
        match axis {
            Axis::Row => Start {
                lines: self.rows,
                line: y,
                place: x,
            },
            Axis::Column => Start {
                lines: self.columns,
                line: x,
                place: y,
            },
        }
    }

    /// Reads the words around a free cell, of its row or its column and of the lines beside it.
    #[inline(always)]
    pub(crate) fn near<L: Ledger>(&self, at: Cell, axis: Axis, steps: &mut Steps<L>) -> ThreeWords
        requires stands { OnSome self.now at }
        ensures near { IsNear self.now axis at result }
        ensures three_steps { steps.new ≡ steps.old + 3 }
    {
        let start = self.start(at, axis);
        words_near(start.lines, start.line, start.place, steps)
    }

    /// Whether a straight jump finds a stop, for a goal to which it does not lead, given the words around the
    /// cell.
    #[inline(always)]
    pub(crate) fn finds_mark<const RULE: usize, L: Ledger>(
        &self,
        at: Cell,
        axis: Axis,
        way: Way,
        near: ThreeWords,
        steps: &mut Steps<L>,
    ) -> bool
        requires rule { self.now.corner ≡ ruled.rule_of_number RULE }
        requires stands { OnSome self.now at }
        requires near { IsNear self.now axis at near }
        ensures finds { OnEach self.now at
            (λ g. FindsAside g at (spec.dir_on axis way) (steps.old + 3) steps.new result) }
        ensures more { steps.old ≤ steps.new }
    {
        let start = self.start(at, axis);
        finds_mark::<RULE, L>(
            way,
            self.corner,
            start.lines,
            start.line,
            start.place,
            near,
            steps,
        )
    }

    /// After how many moves a straight jump stops, for a goal to which it does not lead.
    #[inline(always)]
    pub(crate) fn mark<const FORWARD: bool, const RULE: usize, L: Ledger>(
        &self,
        at: Cell,
        axis: Axis,
        steps: &mut Steps<L>,
    ) -> Option<u16>
        requires rule { self.now.corner ≡ ruled.rule_of_number RULE }
        requires stands { OnSome self.now at }
        ensures stops { OnEach self.now at
            (λ g. StopsAside g at (spec.dir_on axis (ways.way_of FORWARD)) steps.old steps.new result) }
        ensures fewest { steps.old + 3 ≤ steps.new }
    {
        let start = self.start(at, axis);
        first_mark::<FORWARD, RULE, L>(start.lines, start.line, start.place, steps)
    }

    /// After how many moves a straight jump stops.
    #[inline(always)]
    pub(crate) fn straight<const RULE: usize, L: Ledger>(
        &self,
        at: Cell,
        axis: Axis,
        way: Way,
        goal: Cell,
        steps: &mut Steps<L>,
    ) -> Option<u16>
        requires rule { self.now.corner ≡ ruled.rule_of_number RULE }
        requires stands { OnSome self.now at }
        ensures stops { OnEach self.now at
            (λ g. Stops g goal at (spec.dir_on axis way) steps.old steps.new result) }
        ensures fewest { steps.old + 3 ≤ steps.new }
    {
        let to_goal = moves_to(dir_on(axis, way), at, goal);
        let start = self.start(at, axis);
        let found = scan::<RULE, L>(
            way,
            self.corner,
            start.lines,
            start.line,
            start.place,
            u32::from(to_goal),
            steps,
        );
        stop_of(self.corner, found, to_goal)
    }
}
