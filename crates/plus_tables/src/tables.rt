//! The tables of a grid: eight entries for each cell, each made from those at the next cell.

ghost use Rattle.std.specs.Prelude.{◌≡◌, true, IfOk, replicate, pos};
ghost use Rattle.grid_moves.specs.Grid.{IsGrid};
ghost use Rattle.plus_tables.specs.Tables as spec;
ghost use Rattle.plus_tables.specs.Local as local;

use crate::heading::Heading;
use crate::onward::{is_forced_next, next};
use crate::rows::from_before;
use grid_moves::{Cell, Corner, Dir, NoMemory, Terrain, dir_number};
use pruning::{Side, is_diagonal, turn};
use std::alloc::Global;
use std::marker::Model;
use std::sync::ledger::Ledger;
use steps::Steps;

/// The table entries of a grid, eight for each cell.
///
/// They keep the sides and the corner rule of the grid. Contracts see these and the entries, as whole
/// numbers.
#[derive(Drop)]
pub struct Tables {
    width: u16,
    height: u16,
    corner: Corner,
    // Row by row from the upper left, those of one cell in the order of the directions.
    entries: Vec<i16>,
}

impl Model for Tables {
    ghost use Rattle.plus_tables.specs.Tables.{TablesData, IsWhole};

    ghost Value = { TablesData };

    ghost view = { λ t. record {
      width = t.width;
      height = t.height;
      corner = t.corner;
      entries = t.entries.items;
    } };

    ghost invariant = { λ t. IsWhole (record {
      width = t.width;
      height = t.height;
      corner = t.corner;
      entries = t.entries.items;
    }) };
}

// The place of an entry among all.
#[inline(always)]
fn entry_place(width: u16, c: Cell, d: Dir) -> usize
    ensures { result ≡ spec.entry_place width c d }
{
    (c.y as usize * width as usize + c.x as usize) * 8 + dir_number(d) as usize
}

// So many numbers 0.
fn zeros(alloc: Global, count: usize) -> Result<Vec<i16>, NoMemory>
    ensures { IfOk result (λ numbers. numbers.items ≡ replicate count (pos 0)) }
{
    vec![in alloc; 0i16; count]
}

// Whether an entry tells of a mark.
#[inline(always)]
pub fn tells_mark(entry: i16) -> bool
    ensures { result ≡ local.tells_mark entry }
{
    0 < entry
}

impl Tables {
    ghost use Rattle.std.specs.Prelude.{◌≡◌, ◌≢◌, ◌+◌, ◌<◌, true, false, IfOk, Some, pos};
    ghost use Rattle.grid_moves.specs.Grid.{IsGrid};
    ghost use Rattle.plus_tables.specs.Entry.{table_entry};
    ghost use Rattle.grid_moves.specs.Move.{legal_ahead};
    ghost use Rattle.plus_tables.specs.Local.{is_mark_by};
    ghost use Rattle.plus_tables.specs.Tables.{AreSized, AreTablesOf, IsWhole, RestsRight, entry_at, is_on};
    ghost use Rattle.plus_tables.specs.Tables.{is_place, tables_with};
    ghost use Rattle.plus_tables.specs.Laid.{AreSwept};

    /// The number of columns.
    pub fn width(&self) -> u16
        ensures is { result ≡ self.now.width }
        ensures whole { IsWhole self.now }
    {
        self.width
    }

    /// The number of rows.
    pub fn height(&self) -> u16
        ensures { result ≡ self.now.height }
    {
        self.height
    }

    /// The corner rule.
    pub fn corner(&self) -> Corner
        ensures { result ≡ self.now.corner }
    {
        self.corner
    }

    /// The entries, row by row from the upper left, those of one cell in the order of the directions.
    pub fn entries(&self) -> &[i16]
        ensures entries { result.now ≡ self.now.entries }
        ensures whole { IsWhole self.now }
    {
        self.entries.as_slice()
    }

    // Tables of the size of a grid, with 0 everywhere.
    pub(crate) fn blank<T: Terrain>(alloc: Global, t: &T) -> Result<Tables, NoMemory>
        ensures sized { IfOk result (λ tables. AreSized tables (T.grid t.now)) }
        ensures blank { IfOk result (λ tables. (c : _) (d : _) → entry_at tables c d ≡ pos 0) }
    {
        let (width, height) = (t.width(), t.height());
        let corner = t.corner();
        let entries = zeros(alloc, height as usize * width as usize * 8)?;
        Ok(Tables {
            width,
            height,
            corner,
            entries,
        })
    }

    // The tables of a grid, given their entries.
    pub(crate) fn of_entries<T: Terrain>(t: &T, entries: Vec<i16>) -> Tables
        requires whole { IsGrid (T.grid t.now) }
        requires swept { AreSwept (T.grid t.now) Heading.Downwards (T.grid t.now).height entries.items }
        ensures { AreTablesOf result (T.grid t.now) }
    {
        Tables {
            width: t.width(),
            height: t.height(),
            corner: t.corner(),
            entries,
        }
    }

    // The entry for a cell of the map and a direction.
    #[inline(always)]
    #[tactic(auto, using(crate::proofs::Placing::read_entry))]
    fn get(&self, c: Cell, d: Dir) -> i16
        requires { is_on self.now c ≡ true }
        ensures { result ≡ entry_at self.now c d }
    {
        self.entries[entry_place(self.width, c, d)]
    }

    // Changes one entry.
    #[inline(always)]
    fn put(&mut self, c: Cell, d: Dir, entry: i16)
        requires { is_on self.old c ≡ true }
        ensures { self.new ≡ tables_with self.old c d entry }
    {
        let place = entry_place(self.width, c, d);
        self.entries[place] = entry;
    }

    // Whether the next cell is marked for a direction, by its entries.
    #[inline(always)]
    fn is_mark<T: Terrain>(&self, t: &T, at: Cell, v: Cell, d: Dir) -> bool
        requires legal { legal_ahead (T.grid t.now) at d ≡ Some v }
        requires on { is_on self.now v ≡ true }
        requires whole { IsGrid (T.grid t.now) }
        ensures { result ≡ is_mark_by (T.grid t.now) (entry_at self.now) d v }
    {
        is_forced_next(t, at, v, d)
            || (is_diagonal(d)
                && (tells_mark(self.get(v, turn(Side::Right, d)))
                    || tells_mark(self.get(v, turn(Side::Left, d)))))
    }

    // The entry of the grid for a cell and a direction, made from the entries at the next cell.
    #[inline(always)]
    #[tactic(auto, using(crate::proofs::Refreshing::on_map, crate::proofs::Refreshing::next_free))]
    fn entry_by_next<T: Terrain>(&self, t: &T, c: Cell, d: Dir) -> i16
        requires whole { IsGrid (T.grid t.now) }
        requires sized { AreSized self.now (T.grid t.now) }
        requires rests { RestsRight self.now (T.grid t.now) c d }
        ensures { result ≡ table_entry (T.grid t.now) c d }
    {
        match next(t, c, d) {
            Some(v) if self.is_mark(t, c, v, d) => 1,
            Some(v) => from_before(self.get(v, d)),
            None => 0,
        }
    }

    // The same; each direction has code of its own, in which it is a constant.
    #[inline(always)]
    #[tactic(auto, using(crate::proofs::Short::entry_stored))]
    fn entry_anew<T: Terrain>(&self, t: &T, c: Cell, d: Dir) -> i16
        requires whole { IsGrid (T.grid t.now) }
        requires sized { AreSized self.now (T.grid t.now) }
        requires rests { RestsRight self.now (T.grid t.now) c d }
        ensures { result ≡ table_entry (T.grid t.now) c d }
    {
        match d {
            Dir::N => self.entry_by_next(t, c, Dir::N),
            Dir::NE => self.entry_by_next(t, c, Dir::NE),
            Dir::E => self.entry_by_next(t, c, Dir::E),
            Dir::SE => self.entry_by_next(t, c, Dir::SE),
            Dir::S => self.entry_by_next(t, c, Dir::S),
            Dir::SW => self.entry_by_next(t, c, Dir::SW),
            Dir::W => self.entry_by_next(t, c, Dir::W),
            Dir::NW => self.entry_by_next(t, c, Dir::NW),
        }
    }

    /// The table entry for a cell of the map and a direction: above 0, the number of moves to the first
    /// marked cell of the legal run; else minus the number of moves of the run. One step.
    #[inline(always)]
    pub fn entry<L: Ledger>(&self, c: Cell, d: Dir, steps: &mut Steps<L>) -> i16
        requires { is_on self.now c ≡ true }
        ensures is { result ≡ entry_at self.now c d }
        ensures step { steps.new ≡ steps.old + 1 }
    {
        steps.tick();
        self.get(c, d)
    }

    /// Makes one entry that of a grid, from the entries at the next cell in this direction, which are to
    /// be right. All others stay. Whether the entry changed; one step.
    ///
    /// The grid has the sides and the corner rule of the tables.
    #[inline(always)]
    #[tactic(auto, using(crate::proofs::Short::entry_stored, crate::proofs::Short::same_value))]
    pub fn refresh<T: Terrain, L: Ledger>(
        &mut self,
        t: &T,
        c: Cell,
        d: Dir,
        steps: &mut Steps<L>,
    ) -> bool
        requires sized { AreSized self.old (T.grid t.now) }
        requires inside { is_on self.old c ≡ true }
        requires rests { RestsRight self.old (T.grid t.now) c d }
        ensures is { self.new ≡ tables_with self.old c d (table_entry (T.grid t.now) c d) }
        ensures entry { entry_at self.new c d ≡ table_entry (T.grid t.now) c d }
        ensures others { (b : _) (e : _) → is_on self.old b ≡ true → is_place b e c d ≡ false
            → entry_at self.new b e ≡ entry_at self.old b e }
        ensures stayed { result ≡ false → entry_at self.old c d ≡ table_entry (T.grid t.now) c d }
        ensures changed { result ≡ true → entry_at self.old c d ≢ table_entry (T.grid t.now) c d }
        ensures step { steps.new ≡ steps.old + 1 }
    {
        // (by the clause of `width` the grid is whole)
        let _whole = t.width();
        // (with a field that is read comes what holds of all tables)
        let _ = &self.width;
        steps.tick();
        let before = self.get(c, d);
        let entry = self.entry_anew(t, c, d);
        self.put(c, d, entry);
        before != entry
    }
}
