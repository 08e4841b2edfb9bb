//! Building the tables of a grid, by sweeps from the far end.
//!
//! Each entry is made from those at the next cell, so a direction is swept from where its runs end: the five
//! directions that lead up or along a row go row by row downwards, the three others upwards after them. A
//! diagonal entry looks at both its components at the next cell, so a sweep keeps the entries of the row
//! before, and for the second sweep those along a row are read back. Where rows repeat, as on open ground, so
//! do the entries along them: these are copied from the row before.

ghost use Rattle.std.specs.Prelude.{◌≡◌, ℕ, ◌+◌, ◌*◌, ◌<◌, ◌≤◌, false, IfOk, OnOk, length};
ghost use Rattle.grid_moves.specs.Grid.{IsGrid, is_free};
ghost use Rattle.plus_tables.specs.Rows.{number};
ghost use Rattle.plus_tables.specs.Laid.{AreSwept, IsAlongRight, IsRowSwept};
ghost use Rattle.plus_tables.specs.Lines.{IsBlank, IsKept};
ghost use Rattle.plus_tables.specs.Sweep as sweeps;

use crate::flags::read_row;
use crate::heading::{Heading, behind, nth_row};
use crate::lines::{Rows, bring_along, make_all_ahead};
use crate::tables::Tables;
use grid_moves::{Cell, NoMemory, Terrain};
use std::alloc::Global;

// Whether any cell is free.
fn has_cells<T: Terrain>(t: &T) -> bool
    ensures { result ≡ false → (c : _) → is_free (T.grid t.now) c ≡ false }
{
    for y in 0..t.height() {
        for x in 0..t.width() {
            if t.free(Cell { x, y }) {
                return true;
            }
        }
    }
    false
}

// Makes room for so many entries, where there are fewer.
fn make_room(entries: &mut Vec<i16>, end: usize) -> Result<(), NoMemory>
    ensures room { OnOk result (end ≤ length entries.new.items) }
    ensures grown { OnOk result (length entries.old.items ≤ end → length entries.new.items ≡ end) }
    ensures stays { OnOk result (end ≤ length entries.old.items
        → length entries.new.items ≡ length entries.old.items) }
    ensures kept { OnOk result ((i : ℕ) → i < length entries.old.items
        → number entries.new.items i ≡ number entries.old.items i) }
{
    if entries.len() < end {
        entries.resize(end, 0)?;
    }
    Ok(())
}

// Sweeps a row: writes its entries for the directions of the sweep.
fn sweep_row<T: Terrain>(t: &T, heading: Heading, y: u16, rows: &mut Rows, row: &mut [i16])
    requires whole { IsGrid (T.grid t.now) }
    requires inside { y < (T.grid t.now).height }
    requires kept { IsKept (T.grid t.now) heading y rows.old }
    requires wide { length row.old ≡ (T.grid t.now).width * 8 }
    requires along { IsAlongRight (T.grid t.now) heading y row.old }
    ensures swept { IsRowSwept (T.grid t.now) heading y row.old row.new }
    ensures kept { (n : ℕ) → sweeps.IsNext heading y n → IsKept (T.grid t.now) heading n rows.new }
{
    // (read for its bound, as a height is a `u16`)
    let _low = t.height();
    read_row(t, behind(heading, y), &mut rows.band.back);
    make_all_ahead(t, &rows.band, &rows.last, &mut rows.forced, &mut rows.this);
    bring_along(
        t,
        heading,
        y,
        &rows.band,
        &rows.last,
        row,
        &mut rows.forced,
        &mut rows.this.east,
        &mut rows.this.west,
    );
    rows.this.lay(t, heading, row);
    rows.go_on();
}

// Sweeps one row more. In the first sweep it is appended: memory is written at once after it is touched
// first.
#[tactic(auto, using(crate::proofs::Laying::along_right, crate::proofs::Laying::row_begins))]
fn sweep_next<T: Terrain>(
    t: &T,
    heading: Heading,
    n: u16,
    rows: &mut Rows,
    entries: &mut Vec<i16>,
) -> Result<(), NoMemory>
    requires whole { IsGrid (T.grid t.now) }
    requires inside { n < (T.grid t.now).height }
    requires swept { AreSwept (T.grid t.now) heading n entries.old.items }
    requires kept { IsKept (T.grid t.now) heading (sweeps.nth_row heading (T.grid t.now).height n) rows.old }
    ensures swept { OnOk result (AreSwept (T.grid t.now) heading (n + 1) entries.new.items) }
    ensures kept { OnOk result (n + 1 < (T.grid t.now).height
        → IsKept (T.grid t.now) heading (sweeps.nth_row heading (T.grid t.now).height (n + 1)) rows.new) }
{
    let y = nth_row(heading, t.height(), n);
    let wide = t.width() as usize * 8;
    let start = y as usize * wide;
    make_room(entries, start + wide)?;
    sweep_row(t, heading, y, rows, &mut entries[start..start + wide]);
    Ok(())
}

// Sweeps all rows.
fn sweep<T: Terrain>(
    t: &T,
    heading: Heading,
    rows: &mut Rows,
    entries: &mut Vec<i16>,
) -> Result<(), NoMemory>
    requires whole { IsGrid (T.grid t.now) }
    requires blank { IsBlank (T.grid t.now) rows.old }
    requires none { AreSwept (T.grid t.now) heading 0 entries.old.items }
    ensures { OnOk result (AreSwept (T.grid t.now) heading (T.grid t.now).height entries.new.items) }
{
    read_row(t, nth_row(heading, t.height(), 0), &mut rows.band.here);
    for n in 0..t.height() {
        sweep_next(t, heading, n, rows, entries)?;
    }
    Ok(())
}

// The same in memory of its own.
fn sweep_alone<T: Terrain>(
    alloc: Global,
    t: &T,
    heading: Heading,
    entries: &mut Vec<i16>,
) -> Result<(), NoMemory>
    requires whole { IsGrid (T.grid t.now) }
    requires none { AreSwept (T.grid t.now) heading 0 entries.old.items }
    ensures { OnOk result (AreSwept (T.grid t.now) heading (T.grid t.now).height entries.new.items) }
{
    let mut rows = Rows::blank(alloc, t)?;
    sweep(t, heading, &mut rows, entries)
}

impl Tables {
    ghost use Rattle.std.specs.Prelude.{IfOk};
    ghost use Rattle.plus_tables.specs.Tables.{AreTablesOf};

    /// The tables of a grid, with its sides and its corner rule.
    #[tactic(auto, using(crate::proofs::Laying::swept_up))]
    pub fn build<T: Terrain>(alloc: Global, t: &T) -> Result<Tables, NoMemory>
        ensures { IfOk result (λ tables. AreTablesOf tables (T.grid t.now)) }
    {
        let (width, height) = (t.width() as usize, t.height() as usize);
        if !has_cells(t) {
            return Tables::blank(alloc, t);
        }
        let mut entries = Vec::with_capacity(alloc, height * width * 8)?;
        sweep_alone(alloc, t, Heading::Upwards, &mut entries)?;
        sweep_alone(alloc, t, Heading::Downwards, &mut entries)?;
        Ok(Tables::of_entries(t, entries))
    }
}
