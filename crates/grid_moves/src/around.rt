//! The legal moves from a cell, with each cell around it read once.
//!
//! The cells beside a diagonal move are the ends of straight moves. All eight are read with no branch on
//! what is found, since whether a cell is free is seldom foreseen by the processor.

ghost use Rattle.std.specs.Prelude.{◌≡◌, ◌&&◌, true};
ghost use Rattle.grid_moves.specs.Grid.{IsGrid, is_free, is_inside};
ghost use Rattle.grid_moves.specs.Move as moves;
ghost use Rattle.grid_moves.specs.Around.{IsAround, end_of};

use crate::moves::before;
use crate::terrain::is_passable;
use crate::{Cell, Corner, Dir, Terrain};

/// Which moves from a cell are legal, by direction, and the columns and rows that they lead to.
#[derive(Clone, Copy)]
pub struct Around {
    /// The column before, or 65535 before column 0.
    pub left: u16,
    /// The column after.
    pub right: u16,
    /// The row before, or 65535 before the first.
    pub up: u16,
    /// The row after.
    pub down: u16,
    pub n: bool,
    pub ne: bool,
    pub e: bool,
    pub se: bool,
    pub s: bool,
    pub sw: bool,
    pub w: bool,
    pub nw: bool,
}

// Which diagonal moves pass between the straight cells beside them.
#[derive(Clone, Copy)]
struct Passages {
    ne: bool,
    se: bool,
    sw: bool,
    nw: bool,
}

impl Passages {
    // Those under a rule, given which straight cells are free.
    #[inline(always)]
    fn by(rule: Corner, n: bool, e: bool, s: bool, w: bool) -> Passages
        ensures ne { result.ne ≡ moves.is_passable rule e n }
        ensures se { result.se ≡ moves.is_passable rule e s }
        ensures sw { result.sw ≡ moves.is_passable rule w s }
        ensures nw { result.nw ≡ moves.is_passable rule w n }
    {
        Passages {
            ne: is_passable(rule, e, n),
            se: is_passable(rule, e, s),
            sw: is_passable(rule, w, s),
            nw: is_passable(rule, w, n),
        }
    }

    // The same, with code of its own for each rule.
    #[inline(always)]
    fn between(rule: Corner, n: bool, e: bool, s: bool, w: bool) -> Passages
        ensures ne { result.ne ≡ moves.is_passable rule e n }
        ensures se { result.se ≡ moves.is_passable rule e s }
        ensures sw { result.sw ≡ moves.is_passable rule w s }
        ensures nw { result.nw ≡ moves.is_passable rule w n }
    {
        match rule {
            Corner::Never => Passages::by(Corner::Never, n, e, s, w),
            Corner::One => Passages::by(Corner::One, n, e, s, w),
            Corner::Both => Passages::by(Corner::Both, n, e, s, w),
        }
    }
}

// Whether the cell in a diagonal direction is free and the move passes, with no branch on either.
#[inline(always)]
fn is_open_past<T: Terrain>(t: &T, c: Cell, d: Dir, passes: bool) -> bool
    requires { is_inside (T.grid t.now) c ≡ true }
    ensures { result ≡ (moves.is_open (T.grid t.now) c d && passes) }
{
    passes & t.open(c, d)
}

/// The legal moves from a free cell, with the cells around it read once. These are no `Ring` here: its eight
/// flags would be packed into a word, and a plain search would take a sixth more instructions.
#[inline(always)]
pub fn moves_around<T: Terrain>(t: &T, c: Cell) -> Around
    requires free { is_free (T.grid t.now) c ≡ true }
    requires whole { IsGrid (T.grid t.now) }
    ensures around { IsAround (T.grid t.now) c result }
    ensures ends { (d : _) → end_of result c d ≡ moves.beyond d c }
{
    let (left, right) = (before(c.x), c.x + 1);
    let (up, down) = (before(c.y), c.y + 1);
    let n = t.open(c, Dir::N);
    let e = t.open(c, Dir::E);
    let s = t.open(c, Dir::S);
    let w = t.open(c, Dir::W);
    let pass = Passages::between(t.corner(), n, e, s, w);
    Around {
        left,
        right,
        up,
        down,
        n,
        ne: is_open_past(t, c, Dir::NE, pass.ne),
        e,
        se: is_open_past(t, c, Dir::SE, pass.se),
        s,
        sw: is_open_past(t, c, Dir::SW, pass.sw),
        w,
        nw: is_open_past(t, c, Dir::NW, pass.nw),
    }
}
