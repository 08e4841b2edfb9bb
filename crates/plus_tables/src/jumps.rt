//! Jumps read off tables.
//!
//! A straight jump stops at the goal, if it lies on the run before the first mark, else at the mark: its own
//! entry tells both. A diagonal jump can see the goal at one cell alone, where it meets the goal's row or
//! column first; if that comes before its own mark, the entry of the component there tells whether the run
//! leads on to the goal. So only a jump that leads to where the goal lies asks for it.

ghost use Rattle.std.specs.Prelude.{◌≡◌, ◌+◌, ◌<◌, ◌≤◌, false, true, Some, if◌then◌else◌};
ghost use Rattle.grid_moves.specs.Move.{cell_after, column_after, row_after};
ghost use Rattle.jump_plain.specs.Reach as reach;
ghost use Rattle.plus_tables.specs.Reading as spec;
ghost use Rattle.plus_tables.specs.Tables.{entry_at, is_on};
ghost use Rattle.pruning.specs.Turns as turns;

use crate::tables::{Tables, tells_mark};
use grid_moves::{Cell, Dir, dir_number};
use jump_plain::jump::moves_to;
use std::sync::ledger::Ledger;
use steps::Steps;

// The mark that an entry tells of.
#[inline(always)]
fn mark_of(entry: i16) -> Option<u16>
    ensures is { result ≡ spec.mark_of entry }
{
    if tells_mark(entry) {
        Some(entry.unsigned_abs())
    } else {
        None
    }
}

// Whether a run has so many moves, and no mark on them.
#[inline(always)]
fn is_clear(entry: i16, moves: u16) -> bool
    ensures is { result ≡ spec.is_clear entry moves }
{
    if 0 <= entry {
        moves < entry.unsigned_abs()
    } else {
        moves <= entry.unsigned_abs()
    }
}

// How many columns lie between, where the direction leads from the one towards the other; else 0.
#[inline(always)]
fn columns_to(d: Dir, from: u16, to: u16) -> u16
    ensures is { result ≡ spec.columns_to d from to }
{
    match d {
        Dir::NE | Dir::E | Dir::SE => to.saturating_sub(from),
        Dir::SW | Dir::W | Dir::NW => from.saturating_sub(to),
        Dir::N | Dir::S => 0,
    }
}

// How many rows lie between, where the direction leads from the one towards the other; else 0.
#[inline(always)]
fn rows_to(d: Dir, from: u16, to: u16) -> u16
    ensures is { result ≡ spec.rows_to d from to }
{
    match d {
        Dir::SE | Dir::S | Dir::SW => to.saturating_sub(from),
        Dir::N | Dir::NE | Dir::NW => from.saturating_sub(to),
        Dir::E | Dir::W => 0,
    }
}

// The column after so many moves.
#[inline(always)]
fn column_after(d: Dir, moves: u16, x: u16) -> u16
    requires { column_after d moves x < 65536 }
    ensures is { result ≡ column_after d moves x }
{
    match d {
        Dir::NE | Dir::E | Dir::SE => x + moves,
        Dir::SW | Dir::W | Dir::NW => x.saturating_sub(moves),
        Dir::N | Dir::S => x,
    }
}

// The row after so many moves.
#[inline(always)]
fn row_after(d: Dir, moves: u16, y: u16) -> u16
    requires { row_after d moves y < 65536 }
    ensures is { result ≡ row_after d moves y }
{
    match d {
        Dir::SE | Dir::S | Dir::SW => y + moves,
        Dir::N | Dir::NE | Dir::NW => y.saturating_sub(moves),
        Dir::E | Dir::W => y,
    }
}

/// The cell after so many moves.
#[inline(always)]
pub fn cell_after(d: Dir, moves: u16, c: Cell) -> Cell
    requires columns { column_after d moves c.x < 65536 }
    requires rows { row_after d moves c.y < 65536 }
    ensures is { result ≡ cell_after d moves c }
{
    Cell {
        x: column_after(d, moves, c.x),
        y: row_after(d, moves, c.y),
    }
}

// The component of a diagonal that leads along a row.
#[inline(always)]
fn row_part(d: Dir) -> Dir
    ensures is { result ≡ spec.row_part d }
{
    match d {
        Dir::NE | Dir::SE => Dir::E,
        Dir::SW | Dir::NW => Dir::W,
        _ => d,
    }
}

// The component of a diagonal that leads along a column.
#[inline(always)]
fn column_part(d: Dir) -> Dir
    ensures is { result ≡ spec.column_part d }
{
    match d {
        Dir::NE | Dir::NW => Dir::N,
        Dir::SE | Dir::SW => Dir::S,
        _ => d,
    }
}

// On which side of a number another one lies: 0 where it is less, 1 where they are the same, 2 where it is
// greater.
#[inline(always)]
fn side_of(from: u16, to: u16) -> u8
    ensures is { result ≡ spec.side_of from to }
{
    u8::from(from <= to) + u8::from(from < to)
}

// For each direction three times the side to which its rows lead, and the side to which its columns lead.
const SIDES_AHEAD: [u8; 8] = [1, 2, 5, 8, 7, 6, 3, 0];

// The sides to which a direction leads, read from a table, so that there is no branch on the direction.
#[inline(always)]
fn sides_ahead(d: Dir) -> u8
    ensures is { result ≡ spec.sides_ahead d }
{
    SIDES_AHEAD[dir_number(d) as usize]
}

// Whether a direction leads to where the goal lies, so that the jump may come to it or see it: one direction
// at most does. What is asked of the cell and the goal is the same for all directions.
#[inline(always)]
fn is_aimed(at: Cell, d: Dir, goal: Cell) -> bool
    ensures is { result ≡ spec.is_aimed at d goal }
{
    sides_ahead(d) == side_of(at.y, goal.y) * 3 + side_of(at.x, goal.x)
}

// What a jump comes to: the goal, so many moves on, where it leads there or sees it, else its mark.
#[inline(always)]
fn stop_where(goal: bool, near: u16, entry: i16) -> Option<u16>
    ensures is { result ≡ (if goal then Some near else spec.mark_of entry) }
{
    if goal { Some(near) } else { mark_of(entry) }
}

// After how many moves a straight jump stops, given its entry.
#[inline(always)]
fn straight_stop(at: Cell, d: Dir, goal: Cell, entry: i16) -> Option<u16>
    ensures is { result ≡ spec.stop_by entry (reach.moves_to d at goal) true }
{
    let near = moves_to(d, at, goal);
    stop_where(0 < near && is_clear(entry, near), near, entry)
}

// Whether the goal is at a cell in its row or column, or on the run in the component from there. It lies so
// many columns and rows on from where the diagonal jump began. At most one step.
#[inline(always)]
fn sees_goal<L: Ledger>(
    tables: &Tables,
    at: Cell,
    d: Dir,
    columns: u16,
    rows: u16,
    steps: &mut Steps<L>,
) -> bool
    requires at { is_on tables.now at ≡ true }
    ensures is { result ≡ spec.sees_goal (entry_at tables.now) d at columns rows }
    ensures most { steps.new ≤ steps.old + 1 }
    ensures fewest { steps.old ≤ steps.new }
{
    if columns == rows {
        true
    } else if rows < columns {
        is_clear(tables.entry(at, row_part(d), steps), columns - rows)
    } else {
        is_clear(tables.entry(at, column_part(d), steps), rows - columns)
    }
}

// After how many moves a diagonal jump stops, given its entry. At most one step.
#[inline(always)]
fn diagonal_stop<L: Ledger>(
    tables: &Tables,
    at: Cell,
    d: Dir,
    goal: Cell,
    entry: i16,
    steps: &mut Steps<L>,
) -> Option<u16>
    requires at { is_on tables.now at ≡ true }
    requires goal { is_on tables.now goal ≡ true }
    requires entry { entry ≡ entry_at tables.now at d }
    ensures is { result ≡ spec.diagonal_by (entry_at tables.now) at d goal }
    ensures most { steps.new ≤ steps.old + 1 }
    ensures fewest { steps.old ≤ steps.new }
{
    let columns = columns_to(d, at.x, goal.x);
    let rows = rows_to(d, at.y, goal.y);
    let near = columns.min(rows);
    let sees = 0 < near
        && is_clear(entry, near)
        && sees_goal(tables, cell_after(d, near, at), d, columns, rows, steps);
    stop_where(sees, near, entry)
}

// After how many moves a jump stops, given its entry, where the goal may lie on its way: of the directions
// from a cell one at most asks for it, so it stays out of line. Each direction has code of its own, in which
// it is a constant.
#[inline(never)]
fn stop_aimed<L: Ledger>(
    tables: &Tables,
    at: Cell,
    d: Dir,
    goal: Cell,
    entry: i16,
    steps: &mut Steps<L>,
) -> Option<u16>
    requires at { is_on tables.now at ≡ true }
    requires goal { is_on tables.now goal ≡ true }
    requires entry { entry ≡ entry_at tables.now at d }
    ensures is { result ≡ spec.stop_read (entry_at tables.now) at d goal }
    ensures straight { turns.is_diagonal d ≡ false → steps.new ≡ steps.old }
    ensures most { steps.new ≤ steps.old + 1 }
    ensures fewest { steps.old ≤ steps.new }
{
    match d {
        Dir::N => straight_stop(at, Dir::N, goal, entry),
        Dir::NE => diagonal_stop(tables, at, Dir::NE, goal, entry, steps),
        Dir::E => straight_stop(at, Dir::E, goal, entry),
        Dir::SE => diagonal_stop(tables, at, Dir::SE, goal, entry, steps),
        Dir::S => straight_stop(at, Dir::S, goal, entry),
        Dir::SW => diagonal_stop(tables, at, Dir::SW, goal, entry, steps),
        Dir::W => straight_stop(at, Dir::W, goal, entry),
        Dir::NW => diagonal_stop(tables, at, Dir::NW, goal, entry, steps),
    }
}

/// After how many moves a jump stops. One step, or two by a diagonal. Where the direction does not lead to
/// where the goal lies, the entry alone tells it.
#[inline(always)]
pub fn stop_read<L: Ledger>(
    tables: &Tables,
    at: Cell,
    d: Dir,
    goal: Cell,
    steps: &mut Steps<L>,
) -> Option<u16>
    requires at { is_on tables.now at ≡ true }
    requires goal { is_on tables.now goal ≡ true }
    ensures is { result ≡ spec.stop_read (entry_at tables.now) at d goal }
    ensures straight { turns.is_diagonal d ≡ false → steps.new ≡ steps.old + 1 }
    ensures most { steps.new ≤ steps.old + 2 }
    ensures fewest { steps.old + 1 ≤ steps.new }
{
    let entry = tables.entry(at, d, steps);
    if is_aimed(at, d, goal) {
        return stop_aimed(tables, at, d, goal, entry, steps);
    }
    mark_of(entry)
}
