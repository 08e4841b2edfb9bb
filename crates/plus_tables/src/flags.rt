//! Rows of flags: which cells are free, and what the cells around one tell of moves.
//!
//! What belongs to column `x` stands at `x + 1`, so that each column has one before and one after it. No loop
//! has a branch, and each direction and corner rule has code of its own, which the compiler turns into vector
//! code.

ghost use Rattle.std.specs.Prelude.{◌≡◌, ◌+◌, ◌-◌, ◌<◌, ◌≤◌, false, true, length};
ghost use Rattle.grid_moves.specs.Ruled as ruled;
ghost use Rattle.plus_tables.specs.Fit.{AreLong};
ghost use Rattle.plus_tables.specs.Rows as spec;

use grid_moves::{Corner, Dir, Ring, Terrain, rule_of_number};
use pruning::forced_on;

// The flags around a column.
#[inline(always)]
pub fn ring_at(above: &[bool], here: &[bool], below: &[bool], x: usize) -> Ring
    requires above { x + 2 < length above.now }
    requires here { x + 2 < length here.now }
    requires below { x + 2 < length below.now }
    ensures { result ≡ spec.ring_of above.now here.now below.now x }
{
    Ring {
        n: above[x + 1],
        ne: above[x + 2],
        e: here[x + 2],
        se: below[x + 2],
        s: below[x + 1],
        sw: below[x],
        w: here[x],
        nw: above[x],
    }
}

// For each column whether a neighbour is forced there, if it is free, under the rule of this number.
#[inline(always)]
fn force_by<const RULE: usize>(
    above: &[bool],
    here: &[bool],
    below: &[bool],
    d: Dir,
    forced: &mut [bool],
)
    requires some { 2 ≤ length forced.old }
    requires rows { AreLong (length forced.old) above.now here.now below.now }
    ensures { spec.AreForced (ruled.rule_of_number RULE) above.now here.now below.now d forced.new }
{
    for x in 0..forced.len() - 2 {
        forced[x + 1] = forced_on(rule_of_number(RULE), ring_at(above, here, below, x), d);
    }
}

// The same; each direction that a sweep takes has code of its own, in which it is a constant.
#[inline(never)]
fn force_under<const RULE: usize>(
    above: &[bool],
    here: &[bool],
    below: &[bool],
    d: Dir,
    forced: &mut [bool],
)
    requires some { 2 ≤ length forced.old }
    requires rows { AreLong (length forced.old) above.now here.now below.now }
    ensures { spec.AreForced (ruled.rule_of_number RULE) above.now here.now below.now d forced.new }
{
    match d {
        Dir::N => force_by::<RULE>(above, here, below, Dir::N, forced),
        Dir::NE => force_by::<RULE>(above, here, below, Dir::NE, forced),
        Dir::E => force_by::<RULE>(above, here, below, Dir::E, forced),
        Dir::W => force_by::<RULE>(above, here, below, Dir::W, forced),
        Dir::NW => force_by::<RULE>(above, here, below, Dir::NW, forced),
        _ => force_by::<RULE>(above, here, below, d, forced),
    }
}

/// For each column of a row whether a neighbour is forced there after a move, if the cell is free. `above`,
/// `here` and `below` are the row and the two beside it.
pub fn force(
    corner: Corner,
    above: &[bool],
    here: &[bool],
    below: &[bool],
    d: Dir,
    forced: &mut [bool],
)
    requires some { 2 ≤ length forced.old }
    requires rows { AreLong (length forced.old) above.now here.now below.now }
    ensures { spec.AreForced corner above.now here.now below.now d forced.new }
{
    match corner {
        Corner::Never => force_under::<0>(above, here, below, d, forced),
        Corner::One => force_under::<1>(above, here, below, d, forced),
        Corner::Both => force_under::<2>(above, here, below, d, forced),
    }
}

/// Reads which cells of a row are free; none of a row outside is.
#[inline(never)]
pub fn read_row<T: Terrain>(t: &T, y: u16, row: &mut [bool])
    requires long { length row.old ≡ (T.grid t.now).width + 2 }
    requires first { spec.flag row.old 0 ≡ false }
    requires last { spec.flag row.old ((T.grid t.now).width + 1) ≡ false }
    ensures { spec.IsFlagRow (T.grid t.now) y row.new }
{
    let end = t.width() as usize + 1;
    t.read_row(y, &mut row[1..end]);
}

/// Whether two rows have the same flags.
#[inline(never)]
pub fn are_same(one: &[bool], other: &[bool]) -> bool
    requires { length other.now ≡ length one.now }
    ensures { result ≡ true → spec.AreSame one.now other.now }
{
    let mut differ = false;
    for k in 0..one.len() {
        differ = differ | (one[k] ^ other[k]);
    }
    !differ
}
