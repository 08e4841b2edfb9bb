//! What a sweep keeps from row to row: rows of flags, and the entries of the row that was swept last.

ghost use Rattle.std.specs.Prelude.{◌≡◌, ℕ, ◌+◌, ◌*◌, ◌<◌, ◌≤◌, IfOk, length, replicate, true, false};
ghost use Rattle.grid_moves.specs.Grid.{IsGrid};
ghost use Rattle.grid_moves.specs.Move as moves;
ghost use Rattle.plus_tables.specs.Fit.{AreLong};
ghost use Rattle.plus_tables.specs.Rows as spec;
ghost use Rattle.plus_tables.specs.Lines as lines;
ghost use Rattle.plus_tables.specs.Sweep as sweeps;
ghost use Rattle.plus_tables.specs.Laid as laid;

use crate::flags::{are_same, force, read_row};
use crate::heading::{Heading, dir_seen, has_ahead};
use crate::rows::{Ahead, Three, across, along};
use grid_moves::{Dir, NoMemory, Terrain, dir_number};
use pruning::{Side, turn};
use std::alloc::Global;
use std::mem;

/// The entries of a row for the directions that lead ahead, to the row that was swept last, and along the
/// row. What belongs to column `x` stands at `x + 1`.
#[derive(Drop)]
pub struct Line {
    pub ahead: Vec<i16>,
    pub ahead_east: Vec<i16>,
    pub ahead_west: Vec<i16>,
    pub east: Vec<i16>,
    pub west: Vec<i16>,
}

/// The rows of flags that a sweep looks at: the row that it sweeps, the two ahead of it, and the one behind.
/// Ahead of it is what was swept before.
#[derive(Drop)]
pub struct Band {
    pub far: Vec<bool>,
    pub next: Vec<bool>,
    pub here: Vec<bool>,
    pub back: Vec<bool>,
}

/// All that a sweep keeps: the rows of flags, the entries of the row that was swept last, and room for those
/// of the next and for where neighbours are forced.
#[derive(Drop)]
pub struct Rows {
    pub band: Band,
    pub last: Line,
    pub this: Line,
    pub forced: Vec<bool>,
}

// A row of numbers 0.
fn numbers(alloc: Global, width: u16) -> Result<Vec<i16>, NoMemory>
    requires { width ≤ 4096 }
    ensures { IfOk result (λ row. length row.items ≡ width + 2) }
{
    vec![in alloc; 0i16; width as usize + 2]
}

// A row in which no cell is free.
fn blocked(alloc: Global, width: u16) -> Result<Vec<bool>, NoMemory>
    requires { width ≤ 4096 }
    ensures { IfOk result (λ row. row.items ≡ replicate (width + 2) false) }
{
    vec![in alloc; false; width as usize + 2]
}

impl Line {
    // A line of numbers 0.
    fn blank<T: Terrain>(alloc: Global, t: &T) -> Result<Line, NoMemory>
        ensures { IfOk result (λ line. lines.IsLong (T.grid t.now) line) }
    {
        let width = t.width();
        Ok(Line {
            ahead: numbers(alloc, width)?,
            ahead_east: numbers(alloc, width)?,
            ahead_west: numbers(alloc, width)?,
            east: numbers(alloc, width)?,
            west: numbers(alloc, width)?,
        })
    }

    // The entries for a direction that leads ahead or along the row, as the sweep sees it.
    #[inline(always)]
    fn part(&self, d: Dir) -> &[i16]
        ensures { result.now ≡ laid.seen_part self.now d }
    {
        match d {
            Dir::NE => &self.ahead_east,
            Dir::E => &self.east,
            Dir::W => &self.west,
            Dir::NW => &self.ahead_west,
            _ => &self.ahead,
        }
    }

    /// Copies the entries along the row.
    #[inline(always)]
    pub fn copy_along(&self, east: &mut [i16], west: &mut [i16])
        requires east { length self.now.east.items ≡ length east.old }
        requires west { length self.now.west.items ≡ length west.old }
        ensures east { east.new ≡ self.now.east.items }
        ensures west { west.new ≡ self.now.west.items }
    {
        east.copy_from_slice(&self.east);
        west.copy_from_slice(&self.west);
    }

    // Writes the entries of a row for the directions of a sweep, eight being kept for each cell.
    #[inline(always)]
    fn lay_by<T: Terrain>(&self, t: &T, heading: Heading, row: &mut [i16])
        requires long { lines.IsLong (T.grid t.now) self.now }
        requires wide { length row.old ≡ (T.grid t.now).width * 8 }
        ensures { laid.AreLaid heading self.now (T.grid t.now).width row.old row.new }
    {
        let (n, ne) = (self.ahead.as_slice(), self.ahead_east.as_slice());
        let (nw, e) = (self.ahead_west.as_slice(), self.east.as_slice());
        let w = self.west.as_slice();
        for x in 0..t.width() as usize {
            let at = x + 1;
            put_cell(heading, row, x, n[at], ne[at], nw[at], e[at], w[at]);
        }
    }

    /// The same; each heading has code of its own, in which it is a constant.
    #[inline(never)]
    pub fn lay<T: Terrain>(&self, t: &T, heading: Heading, row: &mut [i16])
        requires long { lines.IsLong (T.grid t.now) self.now }
        requires wide { length row.old ≡ (T.grid t.now).width * 8 }
        ensures { laid.AreLaid heading self.now (T.grid t.now).width row.old row.new }
    {
        match heading {
            Heading::Upwards => self.lay_by(t, Heading::Upwards, row),
            Heading::Downwards => self.lay_by(t, Heading::Downwards, row),
        }
    }
}

// Changes one entry of cell `x` of a row.
#[inline(always)]
fn put(row: &mut [i16], x: usize, d: Dir, entry: i16)
    requires { x * 8 + 7 < length row.old }
    ensures is { row.new ≡ laid.with_entry row.old x d entry }
    ensures long { length row.new ≡ length row.old }
{
    row[x * 8 + dir_number(d) as usize] = entry;
}

// Changes those for the directions that lead ahead.
#[inline(always)]
fn put_ahead(heading: Heading, row: &mut [i16], x: usize, n: i16, ne: i16, nw: i16)
    requires { x * 8 + 7 < length row.old }
    ensures is { row.new ≡ laid.with_ahead heading row.old x n ne nw }
    ensures long { length row.new ≡ length row.old }
{
    put(row, x, dir_seen(heading, Dir::N), n);
    put(row, x, dir_seen(heading, Dir::NE), ne);
    put(row, x, dir_seen(heading, Dir::NW), nw);
}

// Changes those for all directions of a sweep.
#[inline(always)]
fn put_cell(heading: Heading, row: &mut [i16], x: usize, n: i16, ne: i16, nw: i16, e: i16, w: i16)
    requires { x * 8 + 7 < length row.old }
    ensures { row.new ≡ laid.with_cell heading row.old x n ne nw e w }
{
    put_ahead(heading, row, x, n, ne, nw);
    match heading {
        Heading::Upwards => {
            put(row, x, Dir::E, e);
            put(row, x, Dir::W, w);
        }
        Heading::Downwards => {}
    }
}

// The entry of cell `x` of a row.
#[inline(always)]
fn entry_of(row: &[i16], x: usize, d: Dir) -> i16
    requires { x * 8 + 7 < length row.now }
    ensures { result ≡ spec.number row.now (x * 8 + moves.dir_number d) }
{
    row[x * 8 + dir_number(d) as usize]
}

impl Band {
    // Rows in which no cell is free.
    fn blank<T: Terrain>(alloc: Global, t: &T) -> Result<Band, NoMemory>
        ensures far { IfOk result (λ band. band.far.items ≡ replicate ((T.grid t.now).width + 2) false) }
        ensures next { IfOk result (λ band. band.next.items ≡ replicate ((T.grid t.now).width + 2) false) }
        ensures here { IfOk result (λ band. band.here.items ≡ replicate ((T.grid t.now).width + 2) false) }
        ensures back { IfOk result (λ band. band.back.items ≡ replicate ((T.grid t.now).width + 2) false) }
    {
        let width = t.width();
        Ok(Band {
            far: blocked(alloc, width)?,
            next: blocked(alloc, width)?,
            here: blocked(alloc, width)?,
            back: blocked(alloc, width)?,
        })
    }

    /// Whether the four rows are the same. Then the row that was swept last lies between the same rows as
    /// this one, and has the same entries along it.
    pub fn are_alike(&self) -> bool
        requires next { length self.now.next.items ≡ length self.now.far.items }
        requires here { length self.now.here.items ≡ length self.now.next.items }
        requires back { length self.now.back.items ≡ length self.now.here.items }
        ensures { result ≡ true → lines.AreAlike self.now }
    {
        are_same(&self.far, &self.next)
            && are_same(&self.next, &self.here)
            && are_same(&self.here, &self.back)
    }
}

impl Rows {
    /// Rows of flags of which none is set, and entries 0.
    pub fn blank<T: Terrain>(alloc: Global, t: &T) -> Result<Rows, NoMemory>
        ensures { IfOk result (λ rows. lines.IsBlank (T.grid t.now) rows) }
    {
        let width = t.width();
        Ok(Rows {
            band: Band::blank(alloc, t)?,
            last: Line::blank(alloc, t)?,
            this: Line::blank(alloc, t)?,
            forced: blocked(alloc, width)?,
        })
    }

    /// Makes the row behind the one to be swept next, and keeps the entries of that which was swept now.
    pub fn go_on(&mut self)
        ensures far { self.new.band.far.items ≡ self.old.band.next.items }
        ensures next { self.new.band.next.items ≡ self.old.band.here.items }
        ensures here { self.new.band.here.items ≡ self.old.band.back.items }
        ensures back { self.new.band.back.items ≡ self.old.band.far.items }
        ensures last { self.new.last ≡ self.old.this }
        ensures this { self.new.this ≡ self.old.last }
        ensures forced { self.new.forced.items ≡ self.old.forced.items }
    {
        mem::swap(&mut self.band.far, &mut self.band.next);
        mem::swap(&mut self.band.next, &mut self.band.here);
        mem::swap(&mut self.band.here, &mut self.band.back);
        mem::swap(&mut self.last, &mut self.this);
    }
}

// The entries of a row for one direction that leads ahead, made from those of the row that was swept last:
// the entries for that direction and for those beside it.
#[inline(always)]
#[tactic(auto, using(crate::proofs::Fitting::long_as))]
fn make_ahead<T: Terrain>(
    t: &T,
    band: &Band,
    last: &Line,
    d: Dir,
    forced: &mut [bool],
    out: &mut [i16],
)
    requires whole { IsGrid (T.grid t.now) }
    requires ahead { sweeps.is_ahead d ≡ true }
    requires ready { (h : Heading) × (y : ℕ) × lines.IsReady (T.grid t.now) h y band.now last.now
        × spec.AreRowsSeen (T.grid t.now) h y band.now.next.items band.now.here.items band.now.back.items }
    requires forced { length forced.old ≡ (T.grid t.now).width + 2 }
    requires out { length out.old ≡ (T.grid t.now).width + 2 }
    ensures { (h : Heading) (y : ℕ) → lines.IsReady (T.grid t.now) h y band.now last.now
        → spec.AreRowsSeen (T.grid t.now) h y band.now.next.items band.now.here.items band.now.back.items
        → spec.IsEntryRow (T.grid t.now) y (spec.dir_seen h d) out.new }
{
    let corner = t.corner();
    force(corner, &band.far, &band.next, &band.here, d, forced);
    let rows = Three {
        ahead: &band.next,
        here: &band.here,
        behind: &band.back,
    };
    let next = Ahead {
        ahead: last.part(d),
        right: last.part(turn(Side::Right, d)),
        left: last.part(turn(Side::Left, d)),
    };
    across(corner, rows, forced, next, d, out);
}

// The entries of a row for E or W.
#[tactic(auto, using(crate::proofs::Fitting::bordered))]
fn make_one_along<T: Terrain>(t: &T, rows: Three, d: Dir, forced: &mut [bool], out: &mut [i16])
    requires whole { IsGrid (T.grid t.now) }
    requires along { spec.is_along d ≡ true }
    requires forced { length forced.old ≡ (T.grid t.now).width + 2 }
    requires out { length out.old ≡ (T.grid t.now).width + 2 }
    requires rows { AreLong ((T.grid t.now).width + 2) rows.ahead.now rows.here.now rows.behind.now }
    ensures { (h : Heading) (y : ℕ) → spec.AreRowsSeen (T.grid t.now) h y
        rows.entry.ahead.now rows.entry.here.now
        rows.entry.behind.now → spec.IsEntryRow (T.grid t.now) y d out.new }
{
    force(t.corner(), rows.ahead, rows.here, rows.behind, d, forced);
    along(rows.here, forced, d, out);
}

// Reads the entries of a row for E and W.
#[inline(never)]
fn take_along(row: &[i16], east: &mut [i16], west: &mut [i16])
    requires wide { length row.now + 16 ≡ length east.old * 8 }
    requires same { length west.old ≡ length east.old }
    ensures east { (x : ℕ) → x + 2 < length east.old
        → spec.number east.new (x + 1) ≡ spec.number row.now (x * 8 + moves.dir_number Dir.E) }
    ensures west { (x : ℕ) → x + 2 < length east.old
        → spec.number west.new (x + 1) ≡ spec.number row.now (x * 8 + moves.dir_number Dir.W) }
{
    for x in 0..east.len() - 2 {
        east[x + 1] = entry_of(row, x, Dir::E);
        west[x + 1] = entry_of(row, x, Dir::W);
    }
}

/// The entries of a row for E and W: those of the row that was swept last, where both lie between the same
/// rows; else a sweep that heads up tells them, and one that heads down reads them back.
pub fn bring_along<T: Terrain>(
    t: &T,
    heading: Heading,
    y: u16,
    band: &Band,
    last: &Line,
    row: &[i16],
    forced: &mut [bool],
    east: &mut [i16],
    west: &mut [i16],
)
    requires whole { IsGrid (T.grid t.now) }
    requires inside { y < (T.grid t.now).height }
    requires ready { lines.IsReady (T.grid t.now) heading y band.now last.now
        × spec.AreRowsSeen (T.grid t.now) heading y band.now.next.items band.now.here.items band.now.back.items }
    requires wide { length row.now ≡ (T.grid t.now).width * 8 }
    requires right { laid.IsAlongRight (T.grid t.now) heading y row.now }
    requires forced { length forced.old ≡ (T.grid t.now).width + 2 }
    requires east { length east.old ≡ (T.grid t.now).width + 2 }
    requires west { length west.old ≡ (T.grid t.now).width + 2 }
    ensures { spec.IsEntryRow (T.grid t.now) y Dir.E east.new
        × spec.IsEntryRow (T.grid t.now) y Dir.W west.new }
{
    if has_ahead(heading, y, t.height()) && band.are_alike() {
        last.copy_along(east, west);
        return;
    }
    match heading {
        Heading::Upwards => {
            let rows = Three {
                ahead: &band.next,
                here: &band.here,
                behind: &band.back,
            };
            make_one_along(t, rows, Dir::E, forced, east);
            make_one_along(t, rows, Dir::W, forced, west);
        }
        Heading::Downwards => take_along(row, east, west),
    }
}

/// The entries of a row for all directions that lead ahead, made from those of the row that was swept last.
///
/// A sweep that heads down sees the map upside down: what is ahead of it counts as above, and its E and W
/// stay. No move and no forced neighbour is another one so.
#[inline(never)]
#[tactic(auto, using(crate::proofs::Lining::row_set, crate::proofs::Lining::row_long))]
pub fn make_all_ahead<T: Terrain>(
    t: &T,
    band: &Band,
    last: &Line,
    forced: &mut [bool],
    this: &mut Line,
)
    requires whole { IsGrid (T.grid t.now) }
    requires ready { (h : Heading) × (y : ℕ) × lines.IsReady (T.grid t.now) h y band.now last.now
        × spec.AreRowsSeen (T.grid t.now) h y band.now.next.items band.now.here.items band.now.back.items }
    requires forced { length forced.old ≡ (T.grid t.now).width + 2 }
    requires long { lines.IsLong (T.grid t.now) this.old }
    ensures ahead_right { (h : Heading) (y : ℕ) → lines.IsReady (T.grid t.now) h y band.now last.now
        → spec.AreRowsSeen (T.grid t.now) h y band.now.next.items band.now.here.items band.now.back.items
        → lines.AreAhead (T.grid t.now) h y this.new }
    ensures long { lines.IsLong (T.grid t.now) this.new }
{
    make_ahead(t, band, last, Dir::N, forced, &mut this.ahead);
    make_ahead(t, band, last, Dir::NE, forced, &mut this.ahead_east);
    make_ahead(t, band, last, Dir::NW, forced, &mut this.ahead_west);
}
