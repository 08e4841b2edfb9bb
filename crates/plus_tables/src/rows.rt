//! Rows of entries, each made from those at the next cells: in another row, or further on in this one.
//!
//! What belongs to column `x` stands at `x + 1`, as in rows of flags. Across rows no entry rests on another
//! of its row: these loops have no branch, and each direction has code of its own, which the compiler turns
//! into vector code. Along a row each rests on the one before.

ghost use Rattle.std.specs.Prelude.{◌≡◌, ◌+◌, ◌<◌, ◌≤◌, true, length};
ghost use Rattle.plus_tables.specs.Fit as fit;
ghost use Rattle.plus_tables.specs.Local as local;
ghost use Rattle.plus_tables.specs.Rows as spec;
ghost use Rattle.plus_tables.specs.Tables.{IsShort};

use crate::flags::ring_at;
use crate::tables::tells_mark;
use grid_moves::{Corner, Dir};
use pruning::is_diagonal;

/// What an entry becomes from one move further back.
#[inline(always)]
pub fn from_before(entry: i16) -> i16
    ensures { IsShort entry → result ≡ local.from_before entry }
{
    if 0 < entry {
        entry.wrapping_add(1)
    } else {
        entry.wrapping_sub(1)
    }
}

// The entry of a cell, given whether the move is legal, whether the next cell is marked, and its entry.
#[inline(always)]
fn entry_from(legal: bool, mark: bool, next: i16) -> i16
    ensures { (legal ≡ true → IsShort next) → result ≡ spec.entry_from legal mark next }
{
    let further = from_before(next);
    let entry = if mark { 1 } else { further };
    if legal { entry } else { 0 }
}

// Where the column stands to which a move leads.
#[inline(always)]
fn place_after(d: Dir, x: usize) -> usize
    requires { x < 65536 }
    ensures is { result ≡ spec.place_after d x }
    ensures near { result ≤ x + 2 }
{
    match d {
        Dir::NE | Dir::E | Dir::SE => x + 2,
        Dir::SW | Dir::W | Dir::NW => x,
        Dir::N | Dir::S => x + 1,
    }
}

/// Three rows of flags: a row, the one ahead of it, which counts as above, and the one behind it.
#[derive(Clone, Copy)]
pub struct Three<'a> {
    pub ahead: &'a [bool],
    pub here: &'a [bool],
    pub behind: &'a [bool],
}

/// The entries of the next row for a direction and for those beside it.
#[derive(Clone, Copy)]
pub struct Ahead<'a> {
    pub ahead: &'a [i16],
    pub right: &'a [i16],
    pub left: &'a [i16],
}

// The entries of a row, made from those of the next.
#[inline(always)]
fn across_by(corner: Corner, rows: Three, forced: &[bool], next: Ahead, d: Dir, out: &mut [i16])
    requires { fit.FitAcross (length out.old) rows forced.now next }
    ensures { fit.AreEntriesAcross corner rows.entry forced.now next.entry d out.new }
{
    for x in 0..out.len() - 2 {
        let ring = ring_at(rows.ahead, rows.here, rows.behind, x);
        let legal = rows.here[x + 1] & ring.can_move(corner, d);
        let at = place_after(d, x);
        let aside = tells_mark(next.right[at]) | tells_mark(next.left[at]);
        let mark = forced[at] | (is_diagonal(d) & aside);
        out[x + 1] = entry_from(legal, mark, next.ahead[at]);
    }
}

// The same; each direction that leads ahead has code of its own, in which it is a constant.
#[inline(always)]
fn across_split(corner: Corner, rows: Three, forced: &[bool], next: Ahead, d: Dir, out: &mut [i16])
    requires { fit.FitAcross (length out.old) rows forced.now next }
    ensures { fit.AreEntriesAcross corner rows.entry forced.now next.entry d out.new }
{
    match d {
        Dir::N => across_by(corner, rows, forced, next, Dir::N, out),
        Dir::NE => across_by(corner, rows, forced, next, Dir::NE, out),
        Dir::NW => across_by(corner, rows, forced, next, Dir::NW, out),
        _ => across_by(corner, rows, forced, next, d, out),
    }
}

/// The entries of a row for a direction that leads ahead, made from those of the next row.
#[inline(never)]
pub fn across(corner: Corner, rows: Three, forced: &[bool], next: Ahead, d: Dir, out: &mut [i16])
    requires { fit.FitAcross (length out.old) rows forced.now next }
    ensures { fit.AreEntriesAcross corner rows.entry forced.now next.entry d out.new }
{
    match corner {
        Corner::Never => across_split(Corner::Never, rows, forced, next, d, out),
        Corner::One => across_split(Corner::One, rows, forced, next, d, out),
        Corner::Both => across_split(Corner::Both, rows, forced, next, d, out),
    }
}

// The entries of a row for E, made from its right end.
fn east(here: &[bool], forced: &[bool], out: &mut [i16])
    requires { fit.FitAlong (length out.old) here.now forced.now }
    ensures { fit.AreEntriesAlong here.now forced.now Dir.E out.new }
{
    for x in (0..out.len() - 2).rev() {
        out[x + 1] = entry_from(here[x + 1] & here[x + 2], forced[x + 2], out[x + 2]);
    }
}

// The entries of a row for W, made from its left end.
fn west(here: &[bool], forced: &[bool], out: &mut [i16])
    requires { fit.FitAlong (length out.old) here.now forced.now }
    ensures { fit.AreEntriesAlong here.now forced.now Dir.W out.new }
{
    for x in 0..out.len() - 2 {
        out[x + 1] = entry_from(here[x + 1] & here[x], forced[x], out[x]);
    }
}

/// The entries of a row for E or W.
#[inline(never)]
pub fn along(here: &[bool], forced: &[bool], d: Dir, out: &mut [i16])
    requires along { spec.is_along d ≡ true }
    requires fits { fit.FitAlong (length out.old) here.now forced.now }
    ensures { fit.AreEntriesAlong here.now forced.now d out.new }
{
    match d {
        Dir::E => east(here, forced, out),
        _ => west(here, forced, out),
    }
}
