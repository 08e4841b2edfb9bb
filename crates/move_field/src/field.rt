//! The letters of all cells, row by row.

ghost use Rattle.std.specs.Prelude.{◌≡◌, ◌++◌, ◌<◌, true, OnOk, OnErr};
ghost use Rattle.grid_moves.specs.Grid.{is_free};
ghost use Rattle.text_line.specs.Writing.{Begins};
ghost use Rattle.move_field.specs.Field.{field_text, row_line};
ghost use Rattle.move_field.specs.Priced.{ArePriced};

use crate::NoMemory;
use crate::letter::letter;
use cost_waves::CostWaves;
use grid_moves::{Cell, Terrain};
use root2_cost::Cost;
use std::alloc::Global;
use text_line::whole_or_nothing;

// Appends the line of a row, or a first part of it where memory runs out.
fn put_row<T: Terrain>(
    out: &mut Vec<u8>,
    t: &T,
    costs: &[Option<Cost>],
    goal: Cell,
    y: u16,
) -> Result<(), NoMemory>
    requires priced { ArePriced (T.grid t.now) goal costs.now }
    requires row { y < (T.grid t.now).height }
    ensures ok { OnOk result (out.new.items ≡ out.old.items ++ row_line (T.grid t.now) goal y) }
    ensures err { OnErr result (Begins out.old.items out.new.items) }
{
    for x in 0..t.width() {
        out.push(letter(t, costs, goal, Cell { x, y }))?;
    }
    out.push(b'\n')?;
    Ok(())
}

// Appends the lines of all rows, or a first part of them where memory runs out.
fn put_rows<T: Terrain>(
    out: &mut Vec<u8>,
    t: &T,
    costs: &[Option<Cost>],
    goal: Cell,
) -> Result<(), NoMemory>
    requires { ArePriced (T.grid t.now) goal costs.now }
    ensures ok { OnOk result (out.new.items ≡ out.old.items ++ field_text (T.grid t.now) goal) }
    ensures err { OnErr result (Begins out.old.items out.new.items) }
{
    for y in 0..t.height() {
        put_row(out, t, costs, goal, y)?;
    }
    Ok(())
}

/// Appends the field of first moves to a free cell: a line for each row, from the upper one,
/// with a letter for each cell.
///
/// `waves` is memory for passes over maps of these sides, of which one is made. Besides it takes 12 bytes for
/// each cell, and room for the text. For want of memory nothing is appended.
pub fn put_field<T: Terrain>(
    alloc: Global,
    waves: &mut CostWaves,
    t: &T,
    goal: Cell,
    out: &mut Vec<u8>,
) -> Result<(), NoMemory>
    requires free { is_free (T.grid t.now) goal ≡ true }
    requires width { waves.old.width ≡ (T.grid t.now).width }
    requires height { waves.old.height ≡ (T.grid t.now).height }
    ensures ok { OnOk result (out.new.items ≡ out.old.items ++ field_text (T.grid t.now) goal) }
    ensures err { OnErr result (out.new.items ≡ out.old.items) }
    ensures width { waves.new.width ≡ waves.old.width }
    ensures height { waves.new.height ≡ waves.old.height }
{
    out.reserve(t.height() as usize * (t.width() as usize + 1))?;
    waves.pass(t, goal)?;
    let costs = waves.all_costs(alloc)?;
    let before = out.len();
    let written = put_rows(out, t, costs.as_slice(), goal);
    whole_or_nothing(out, before, written)
}
