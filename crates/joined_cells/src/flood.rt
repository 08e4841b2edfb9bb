//! Floods: all cells to which walks from one cell lead.

ghost use Rattle.std.specs.Prelude.{◌≡◌, ◌≢◌, ℕ, ◌+◌, ◌*◌, ◌<◌, [], true, length, slice_index, OnOk};
ghost use Rattle.grid_moves.specs.Around.{if_open};
ghost use Rattle.grid_moves.specs.Grid.{IsGrid, is_free};
ghost use Rattle.grid_moves.specs.Move.{all_dirs};
ghost use Rattle.joined_cells.specs.Flood as spec;
ghost use Rattle.joined_cells.specs.Flood.{Fits, flood_of, reached_by};
ghost use Rattle.joined_cells.specs.Flooding.{AreLabelled, IsSettled, Stay, label_at};

use crate::NoMemory;
use grid_moves::{Cell, Terrain, moves_around, number_of};

// Gives the cell of this column and row the label, where the move to it is open and it has none yet.
#[inline(always)]
#[tactic(auto, unfolding(crate::specs::Flood::reached))]
fn reach(
    width: u16,
    label: u32,
    is_open: bool,
    x: u16,
    y: u16,
    labels: &mut [u32],
    waiting: &mut Vec<Cell>,
) -> Result<(), NoMemory>
    requires { is_open ≡ true → Fits width (record { x = x; y = y }) (length labels.old) }
    ensures { OnOk result (flood_of labels.new waiting.new.items
        ≡ reached_by width label (if_open is_open (record { x = x; y = y }))
        (flood_of labels.old waiting.old.items)) }
{
    if !is_open {
        return Ok(());
    }
    let to = Cell { x, y };
    let place = number_of(width, to) as usize;
    if labels[place] == 0 {
        labels[place] = label;
        waiting.push(to)?;
    }
    Ok(())
}

// Gives the label to all cells without one to which a legal move leads.
#[inline(always)]
fn spread<T: Terrain>(
    t: &T,
    from: Cell,
    label: u32,
    labels: &mut [u32],
    waiting: &mut Vec<Cell>,
) -> Result<(), NoMemory>
    requires whole { IsGrid (T.grid t.now) }
    requires free { is_free (T.grid t.now) from ≡ true }
    requires labels { length labels.old ≡ (T.grid t.now).height * (T.grid t.now).width }
    ensures { OnOk result (flood_of labels.new waiting.new.items
        ≡ spec.spread (T.grid t.now) label from all_dirs (flood_of labels.old waiting.old.items)) }
{
    let width = t.width();
    let Cell { x, y } = from;
    let a = moves_around(t, from);
    let (left, right, up, down) = (a.left, a.right, a.up, a.down);
    reach(width, label, a.n, x, up, labels, waiting)?;
    reach(width, label, a.ne, right, up, labels, waiting)?;
    reach(width, label, a.e, right, y, labels, waiting)?;
    reach(width, label, a.se, right, down, labels, waiting)?;
    reach(width, label, a.s, x, down, labels, waiting)?;
    reach(width, label, a.sw, left, down, labels, waiting)?;
    reach(width, label, a.w, left, y, labels, waiting)?;
    reach(width, label, a.nw, left, up, labels, waiting)?;
    Ok(())
}

// Labels all cells to which walks from this free cell lead, which has no label yet.
fn flood<T: Terrain>(
    t: &T,
    from: Cell,
    labels: &mut [u32],
    waiting: &mut Vec<Cell>,
) -> Result<(), NoMemory>
    requires free { is_free (T.grid t.now) from ≡ true }
    requires settled { IsSettled (T.grid t.now) labels.old }
    requires new { label_at (T.grid t.now) labels.old from ≡ 0 }
    requires none { waiting.old.items ≡ [] }
    ensures settled { OnOk result (IsSettled (T.grid t.now) labels.new) }
    ensures stay { OnOk result (Stay (T.grid t.now) labels.old labels.new) }
    ensures labelled { OnOk result (label_at (T.grid t.now) labels.new from ≢ 0) }
    ensures none { OnOk result (waiting.new.items ≡ []) }
{
    let number = number_of(t.width(), from);
    let label = number + 1;
    labels[number as usize] = label;
    waiting.push(from)?;
    while let Some(c) = waiting.pop() {
        spread(t, c, label, labels, waiting)?;
    }
    Ok(())
}

// Labels the free cells of a row, and what walks from them lead to.
fn flood_row<T: Terrain>(
    t: &T,
    y: u16,
    labels: &mut [u32],
    waiting: &mut Vec<Cell>,
) -> Result<(), NoMemory>
    requires settled { IsSettled (T.grid t.now) labels.old }
    requires row { y < (T.grid t.now).height }
    requires above { AreLabelled (T.grid t.now) y 0 labels.old }
    requires none { waiting.old.items ≡ [] }
    ensures settled { OnOk result (IsSettled (T.grid t.now) labels.new) }
    ensures above { OnOk result (AreLabelled (T.grid t.now) (y + 1) 0 labels.new) }
    ensures none { OnOk result (waiting.new.items ≡ []) }
{
    for x in 0..t.width() {
        let c = Cell { x, y };
        if t.free(c) && labels[number_of(t.width(), c) as usize] == 0 {
            flood(t, c, labels, waiting)?;
        }
    }
    Ok(())
}

/// Gives each free cell a label, over labels that are all 0: one more than the number of the first cell of
/// its part.
///
/// Each free cell is put into the list of those that wait once, and its moves are looked at once.
pub(crate) fn flood_all<T: Terrain>(
    t: &T,
    labels: &mut [u32],
    waiting: &mut Vec<Cell>,
) -> Result<(), NoMemory>
    requires labels { length labels.old ≡ (T.grid t.now).height * (T.grid t.now).width }
    requires blank { (k : ℕ) → slice_index labels.old k ≡ 0 }
    requires none { waiting.old.items ≡ [] }
    ensures settled { OnOk result (IsSettled (T.grid t.now) labels.new) }
    ensures labelled { OnOk result (AreLabelled (T.grid t.now) (T.grid t.now).height 0 labels.new) }
{
    for y in 0..t.height() {
        flood_row(t, y, labels, waiting)?;
    }
    Ok(())
}
