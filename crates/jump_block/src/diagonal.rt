//! Diagonal jumps: cell by cell, with a scan in each component from each cell.

ghost use Rattle.std.specs.Prelude.{◌≡◌, ◌+◌, ◌<◌, ◌≤◌, ◌&&◌, ◌||◌, false, true, nat_eq};
ghost use Rattle.grid_moves.specs.Grid.{GridData};
ghost use Rattle.grid_moves.specs.Move as moves;
ghost use Rattle.pruning.specs.Turns.{is_diagonal};
ghost use Rattle.pruning.specs.Allowed.{can_move};
ghost use Rattle.pruning.specs.Marked.{is_forced};
ghost use Rattle.bit_grid.specs.Bits.{is_free_from_one};
ghost use Rattle.pruning.specs.First as first;
ghost use Rattle.grid_moves.specs.Ruled as ruled;
ghost use Rattle.jump_block.specs.Source as spec;
ghost use Rattle.jump_block.specs.Source.{IsAside, IsNear, OnSome, OnEach};
ghost use Rattle.jump_block.specs.declared.straight.Axis.TheVariants.{Row, Column};

use crate::cells::bit_of;
use crate::near::{has_next_bit, leads_from_bit};
use crate::straight::{Axis, Bits};
use crate::word::Way;
use bit_grid::ThreeWords;
use grid_moves::{Cell, Dir, beyond, is_passable, may_cut};
use pruning::{Side, forced_on, ring_of, turn};
use std::sync::ledger::Ledger;
use steps::Steps;

/// The diagonal to the east or the west and to the south or the north, so that it can be a constant of a
/// function, which has code of its own for each.
#[inline(always)]
pub(crate) fn diagonal_of(east: bool, south: bool) -> Dir
    ensures is { result ≡ spec.diagonal_of east south }
    ensures diagonal { is_diagonal result ≡ true }
{
    match (east, south) {
        (true, false) => Dir::NE,
        (true, true) => Dir::SE,
        (false, true) => Dir::SW,
        (false, false) => Dir::NW,
    }
}

/// Which way a diagonal leads along the row, and along the column.
#[inline(always)]
pub(crate) fn way_on(axis: Axis, d: Dir) -> Way
    ensures { result ≡ spec.way_on axis d }
{
    match (axis, d) {
        (Axis::Row, Dir::NE | Dir::SE) => Way::Forward,
        (Axis::Column, Dir::SE | Dir::SW) => Way::Forward,
        _ => Way::Back,
    }
}

// Whether both hold.
#[inline(always)]
fn both(one: bool, other: bool) -> bool
    ensures { result ≡ (one && other) }
{
    one && other
}

// Whether a cell lies in another's row or column.
#[inline(always)]
fn is_in_line(one: Cell, other: Cell) -> bool
    ensures { result ≡ (nat_eq one.x other.x || nat_eq one.y other.y) }
{
    one.x == other.x || one.y == other.y
}

// Whether a number lies ahead of another one, on the way.
#[inline(always)]
fn is_ahead(way: Way, from: u16, to: u16) -> bool
    ensures { result ≡ spec.is_ahead way from to }
{
    match way {
        Way::Forward => from < to,
        Way::Back => to < from,
    }
}

/// Whether a diagonal leads to where the goal lies: of the four from a cell one at most does, and the others
/// meet it nowhere.
#[inline(always)]
pub(crate) fn is_toward(d: Dir, at: Cell, goal: Cell) -> bool
    ensures { result ≡ spec.is_toward d at goal }
{
    both(
        is_ahead(way_on(Axis::Row, d), at.x, goal.x),
        is_ahead(way_on(Axis::Column, d), at.y, goal.y),
    )
}

// Whether the goal has to be looked for at a cell of a diagonal.
#[inline(always)]
#[tactic(auto, using(crate::proofs::Aside::off_line))]
fn may_meet<const AIMED: bool>(d: Dir, at: Cell, goal: Cell) -> bool
    requires aside { AIMED ≡ false → IsAside d at goal }
    ensures aside { result ≡ false → IsAside d at goal }
{
    AIMED && is_in_line(at, goal)
}

/// A bit of a row, both counted from 0, the border's among them.
#[derive(Clone, Copy)]
pub(crate) struct Bit {
    pub(crate) line: u32,
    pub(crate) place: u32,
}

// The bit of the cell beside a cell of the map.
#[inline(always)]
fn bit_beside(at: Cell, d: Dir) -> Bit
    ensures is { (g : GridData) → is_free_from_one g result.place result.line ≡ moves.is_open g at d }
    ensures low { result.line ≤ at.y + 2 }
    ensures near { result.place ≤ at.x + 2 }
{
    let (x, y) = (u32::from(at.x), u32::from(at.y));
    let (line, place) = match d {
        Dir::N => (y, x + 1),
        Dir::NE => (y, x + 2),
        Dir::E => (y + 1, x + 2),
        Dir::SE => (y + 2, x + 2),
        Dir::S => (y + 2, x + 1),
        Dir::SW => (y + 2, x),
        Dir::W => (y + 1, x),
        Dir::NW => (y, x),
    };
    Bit { line, place }
}

impl<'a> Bits<'a> {
    // Whether the cell beside a free cell is free.
    #[inline(always)]
    fn is_open<L: Ledger>(&self, at: Cell, d: Dir, steps: &mut Steps<L>) -> bool
        requires stands { OnSome self.now at }
        ensures is { OnEach self.now at (λ g. result ≡ moves.is_open g at d) }
        ensures one_step { steps.new ≡ steps.old + 1 }
    {
        let bit = bit_beside(at, d);
        bit_of(self.rows, bit.line, bit.place, steps)
    }

    // Whether a diagonal move from a free cell is legal, for the rare cells at the end of a word.
    #[inline(never)]
    fn leads<L: Ledger>(&self, at: Cell, d: Dir, steps: &mut Steps<L>) -> bool
        requires stands { OnSome self.now at }
        requires diagonal { is_diagonal d ≡ true }
        ensures leads { OnEach self.now at (λ g. result ≡ can_move g at d) }
        ensures three_steps { steps.new ≡ steps.old + 3 }
    {
        let ahead = self.is_open(at, d, steps);
        let left = self.is_open(at, turn(Side::Left, d), steps);
        let right = self.is_open(at, turn(Side::Right, d), steps);
        both(ahead, is_passable(self.corner, left, right))
    }

    // The same, given the words around the cell, in which the cells ahead and beside it mostly are.
    #[inline(always)]
    fn leads_near<L: Ledger>(
        &self,
        at: Cell,
        d: Dir,
        near: ThreeWords,
        steps: &mut Steps<L>,
    ) -> bool
        requires stands { OnSome self.now at }
        requires near { IsNear self.now Row at near }
        requires diagonal { is_diagonal d ≡ true }
        ensures leads { OnEach self.now at (λ g. result ≡ can_move g at d) }
        ensures more { steps.old ≤ steps.new }
    {
        let place = (u32::from(at.x) + 1) % 64;
        if has_next_bit(way_on(Axis::Row, d), place) {
            return leads_from_bit(self.corner, d, near, place);
        }
        let bits = *self;
        bits.leads(at, d, steps)
    }

    // Whether, after a diagonal move to a free cell, a neighbour is forced there.
    #[inline(always)]
    fn forces<L: Ledger>(&self, at: Cell, d: Dir, steps: &mut Steps<L>) -> bool
        requires stands { OnSome self.now at }
        requires diagonal { is_diagonal d ≡ true }
        ensures forces { OnEach self.now at (λ g. result ≡ is_forced g at d) }
        ensures more { steps.old ≤ steps.new }
    {
        may_cut(self.corner) && forced_on(self.corner, ring_of(self.eight(at, steps)), d)
    }

    // Whether a diagonal jump stops at a cell: it is the goal, or a neighbour is forced there, or a straight
    // jump in a component finds a stop. For the rare cells in the goal's row or column.
    #[inline(never)]
    fn stops_in_line<const RULE: usize, L: Ledger>(
        &self,
        at: Cell,
        d: Dir,
        goal: Cell,
        steps: &mut Steps<L>,
    ) -> bool
        requires rule { self.now.corner ≡ ruled.rule_of_number RULE }
        requires stands { OnSome self.now at }
        requires diagonal { is_diagonal d ≡ true }
        ensures stops { OnEach self.now at (λ g. result ≡ spec.stops_at g goal d at) }
        ensures more { steps.old ≤ steps.new }
    {
        if at == goal {
            return true;
        }
        if self.forces(at, d, steps) {
            return true;
        }
        let way = way_on(Axis::Row, d);
        let on_row = self.straight::<RULE, L>(at, Axis::Row, way, goal, steps);
        if on_row.is_some() {
            return true;
        }
        let way = way_on(Axis::Column, d);
        let on_column = self.straight::<RULE, L>(at, Axis::Column, way, goal, steps);
        on_column.is_some()
    }

    // Whether a diagonal jump stops at a cell. Only in the goal's row or column is the goal looked for, and
    // by no jump that leads elsewhere; at all other cells a component is asked for its mark alone, given the
    // words around the cell. The call out of line gets a copy of the bits, so that their own stay in
    // registers here.
    #[inline(always)]
    fn stops_at<const RULE: usize, const AIMED: bool, L: Ledger>(
        &self,
        at: Cell,
        d: Dir,
        goal: Cell,
        near: ThreeWords,
        steps: &mut Steps<L>,
    ) -> bool
        requires rule { self.now.corner ≡ ruled.rule_of_number RULE }
        requires stands { OnSome self.now at }
        requires near { IsNear self.now Row at near }
        requires diagonal { is_diagonal d ≡ true }
        requires aside { AIMED ≡ false → IsAside d at goal }
        ensures stops { OnEach self.now at (λ g. result ≡ spec.stops_at g goal d at) }
        ensures more { steps.old ≤ steps.new }
    {
        if may_meet::<AIMED>(d, at, goal) {
            let bits = *self;
            return bits.stops_in_line::<RULE, L>(at, d, goal, steps);
        }
        if self.forces(at, d, steps) {
            return true;
        }
        if self.finds_mark::<RULE, L>(at, Axis::Row, way_on(Axis::Row, d), near, steps) {
            return true;
        }
        let beside = self.near(at, Axis::Column, steps);
        self.finds_mark::<RULE, L>(at, Axis::Column, way_on(Axis::Column, d), beside, steps)
    }

    /// After how many moves a diagonal jump stops, given whether it may lead to where the goal lies.
    #[inline(always)]
    pub(crate) fn diagonal<const RULE: usize, const AIMED: bool, L: Ledger>(
        &self,
        at: Cell,
        d: Dir,
        goal: Cell,
        steps: &mut Steps<L>,
    ) -> Option<u16>
        requires rule { self.now.corner ≡ ruled.rule_of_number RULE }
        requires stands { OnSome self.now at }
        requires diagonal { is_diagonal d ≡ true }
        requires aside { AIMED ≡ false → spec.is_toward d at goal ≡ false }
        ensures first { OnEach self.now at (λ g. result ≡ first.first_stop g goal at d) }
        ensures fewest { steps.old + 3 ≤ steps.new }
    {
        let mut cell = at;
        let mut near = self.near(at, Axis::Row, steps);
        let mut moves = 0;
        'run: while self.leads_near(cell, d, near, steps) {
            let next = beyond(cell, d);
            moves += 1;
            near = self.near(next, Axis::Row, steps);
            if self.stops_at::<RULE, AIMED, L>(next, d, goal, near, steps) {
                return Some(moves);
            }
            cell = next;
        }
        None
    }
}
