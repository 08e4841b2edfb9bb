//! What a search asks of a grid, and the legal moves on it.

ghost use Rattle.std.specs.Prelude.{◌≡◌, ℕ, ◌+◌, ◌*◌, ◌<◌, Some, IfSome, false, true, length, slice_index_or};
ghost use Rattle.grid_moves.specs.Bits.{is_set};
ghost use Rattle.grid_moves.specs.Grid as grids;
ghost use Rattle.grid_moves.specs.Grid.{GridData, IsGrid, is_free, cell_number};
ghost use Rattle.grid_moves.specs.Move as spec;

use crate::moves::cell_ahead;
use crate::{Cell, Corner, Dir};

/// A grid as a search sees it: sides of 1 to 4096 cells, a corner rule, and which cells are free.
pub trait Terrain {
    ghost use Rattle.grid_moves.specs.declared.Cell.{Cell};

    ghost grid: { Self → GridData };

    /// Where a cell stands: a number of the grid's own, by which what lies around the cell is read.
    ghost place_of: { Self → Cell → ℕ };

    /// The number of columns.
    fn width(&self) -> u16
        ensures is { result ≡ (grid self.now).width }
        ensures whole { IsGrid (grid self.now) };

    /// The number of rows.
    fn height(&self) -> u16
        ensures is { result ≡ (grid self.now).height }
        ensures whole { IsGrid (grid self.now) };

    /// The corner rule.
    fn corner(&self) -> Corner
        ensures { result ≡ (grid self.now).corner };

    /// Whether the cell is free; none outside is.
    fn free(&self, c: Cell) -> bool
        ensures { result ≡ is_free (grid self.now) c };

    /// The place of a cell.
    fn place(&self, c: Cell) -> usize
        ensures { result ≡ place_of self.now c };

    /// The place of the cell ahead, given that of a cell on the map.
    fn place_ahead(&self, place: usize, c: Cell, d: Dir) -> usize
        requires inside { grids.is_inside (grid self.now) c ≡ true }
        requires given { place ≡ place_of self.now c }
        ensures { (v : _) → spec.ahead d c ≡ Some v → result ≡ place_of self.now v };

    /// Whether the cell ahead of one on the map is free, given its place; what lies outside the map is
    /// blocked.
    fn open_by(&self, place: usize, c: Cell, d: Dir) -> bool
        requires inside { grids.is_inside (grid self.now) c ≡ true }
        requires given { place ≡ place_of self.now c }
        ensures { result ≡ spec.is_open (grid self.now) c d };

    /// The same, where the place is reckoned first.
    #[inline(always)]
    fn open(&self, c: Cell, d: Dir) -> bool
        requires inside { grids.is_inside (grid self.now) c ≡ true }
        ensures { result ≡ spec.is_open (grid self.now) c d }
    {
        self.open_by(self.place(c), c, d)
    }

    /// Reads the cells of a row, from the left: for each column `true` where the cell is free. None of a row
    /// outside is. `row` has exactly a place for each column.
    fn read_row(&self, y: u16, row: &mut [bool])
        requires wide { length row.old ≡ (grid self.now).width }
        ensures wide { length row.new ≡ (grid self.now).width }
        ensures flags { (x : ℕ) → x < (grid self.now).width
            → slice_index_or row.new x false ≡ is_free (grid self.now) (record { x = x; y = y }) }
    {
        for x in 0..self.width() {
            row[x as usize] = self.free(Cell { x, y });
        }
    }
}

/// The number of a cell on a map of this width: row by row from the upper left, from 0.
pub fn number_of(width: u16, c: Cell) -> u32
    requires column { c.x < width }
    requires row { c.y < 4096 }
    ensures { result ≡ cell_number width c }
{
    u32::from(c.y) * u32::from(width) + u32::from(c.x)
}

/// Whether the corner rule lets a diagonal move pass between two cells, given whether each is free. There is
/// no branch on either.
#[inline(always)]
pub fn is_passable(rule: Corner, one: bool, other: bool) -> bool
    ensures { result ≡ spec.is_passable rule one other }
{
    match rule {
        Corner::Never => one & other,
        Corner::One => one | other,
        Corner::Both => true,
    }
}

/// Whether a diagonal move may pass one blocked cell: a corner may be cut.
#[inline(always)]
pub fn may_cut(rule: Corner) -> bool
    ensures { result ≡ spec.may_cut rule }
{
    is_passable(rule, true, false)
}

/// Whether a diagonal move may pass between two blocked cells.
#[inline(always)]
pub fn may_slip(rule: Corner) -> bool
    ensures { result ≡ spec.may_slip rule }
{
    is_passable(rule, false, false)
}

/// `is_passable` for each of the 64 bits of two words.
#[inline(always)]
pub fn passable_bits(rule: Corner, these: u64, those: u64) -> u64
    ensures { (j : ℕ) → j < 64 → is_set result j ≡ spec.is_passable rule (is_set these j) (is_set those j) }
{
    match rule {
        Corner::Never => these & those,
        Corner::One => these | those,
        Corner::Both => u64::MAX,
    }
}

/// Whether the cell lies on the map.
#[inline(always)]
pub fn is_inside<T: Terrain>(t: &T, c: Cell) -> bool
    ensures is { result ≡ grids.is_inside (T.grid t.now) c }
    ensures whole { IsGrid (T.grid t.now) }
{
    c.x < t.width() && c.y < t.height()
}

/// Whether the move is legal.
pub fn is_legal<T: Terrain>(t: &T, from: Cell, to: Cell) -> bool
    ensures { result ≡ spec.is_legal (T.grid t.now) from to }
{
    let beside = Cell { x: from.x, y: to.y };
    let across = Cell { x: to.x, y: from.y };
    from != to
        && from.x.abs_diff(to.x) <= 1
        && from.y.abs_diff(to.y) <= 1
        && t.free(from)
        && t.free(to)
        && is_passable(t.corner(), t.free(beside), t.free(across))
}

/// The cell that the move leads to, exactly where the move is legal.
pub fn step<T: Terrain>(t: &T, c: Cell, d: Dir) -> Option<Cell>
    ensures legal { result ≡ spec.legal_ahead (T.grid t.now) c d }
    ensures inside { IfSome result (λ v.
        cell_number (T.grid t.now).width v < (T.grid t.now).height * (T.grid t.now).width) }
{
    if c.x >= t.width() || c.y >= t.height() {
        return None;
    }
    let to = cell_ahead(d, c)?;
    if is_legal(t, c, to) { Some(to) } else { None }
}
