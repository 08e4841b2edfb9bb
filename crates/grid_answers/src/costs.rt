//! The lines of the least costs from one cell to each cell.

ghost use Rattle.std.specs.Prelude.{◌≡◌, ◌++◌, ◌-◌, true, IfOk, OnOk, None};
ghost use Rattle.std.specs.List.{range_with_len};
ghost use Rattle.grid_moves.specs.Layers.{is_free_ground};
ghost use Rattle.grid_answers.specs.Distances as spec;
ghost use Rattle.grid_answers.specs.OfCell.{why_untold};
ghost use Rattle.line_work.specs.Sending.{SendsWhole};
ghost use Rattle.grid_answers.specs.Printing as printing;

use crate::NoMemory;
use crate::cell::free_cell;
use cost_waves::CostWaves;
use grid_moves::{Cell, Layers, Terrain};
use io_edge::Sink;
use line_work::{Job, Stop, send_text, work_items};
use root2_cost::Cost;
use std::alloc::Global;
use std::sync::ledger::Ledger;
use steps::Steps;
use text_line::{put, put_number};

/// The least costs from a cell, which are printed row by row.
#[derive(Drop)]
pub struct Distances {
    pub waves: CostWaves,
}

/// What is to be printed of the costs from a cell.
#[derive(Drop)]
pub enum CostLines {
    /// A line for each of these rows of the map.
    Rows { job: Distances, rows: Vec<u16> },
    /// The line that says why there are none.
    Line(Vec<u8>),
}

impl Job for Distances {
    ghost use Rattle.std.specs.Prelude.{⊤, false};
    ghost use Rattle.grid_answers.specs.Printing.{ArePrinted, HavePrinted};

    type Item = u16;

    ghost can_work = { λ _. ⊤ };

    ghost has_room = { λ _ _. ⊤ };

    ghost has_worked = { HavePrinted };

    ghost closes = { false };

    ghost is_whole = { ArePrinted };

    ghost has_counted = { λ _ _ _ _ _. ⊤ };

    fn answer<L: Ledger>(
        &mut self,
        _alloc: Global,
        item: u16,
        lines: &mut Vec<u8>,
        _steps: &mut Steps<L>,
    ) -> Result<(), NoMemory> {
        put_costs(lines, &self.waves, item)
    }

    fn close(&self, _lines: &mut Vec<u8>) -> Result<u8, NoMemory> {
        Ok(0)
    }
}

// The cost that is stored for a cell, where it lies inside.
fn cost_within(waves: &CostWaves, c: Cell) -> Option<Cost>
    ensures { result ≡ printing.cost_within waves.now c }
{
    if c.x < waves.width() && c.y < waves.height() {
        waves.cost(c)
    } else {
        None
    }
}

// Appends a cost, or that there is none.
fn put_field(out: &mut Vec<u8>, cost: Option<Cost>) -> Result<(), NoMemory>
    ensures { OnOk result (out.new.items ≡ out.old.items ++ spec.cost_field cost) }
{
    match cost {
        None => put(out, b"-"),
        Some(cost) => {
            put_number(out, u64::from(cost.a))?;
            put(out, b",")?;
            put_number(out, u64::from(cost.b))
        }
    }
}

// Appends the fields of a row.
fn put_fields(out: &mut Vec<u8>, waves: &CostWaves, y: u16) -> Result<(), NoMemory>
    ensures { OnOk result (out.new.items ≡
        out.old.items ++ spec.fields_to (printing.row_costs waves.now y) (waves.now.width - 1)) }
{
    put_field(out, cost_within(waves, Cell { x: 0, y }))?;
    for x in 0..waves.width().saturating_sub(1) {
        put(out, b" ")?;
        put_field(out, cost_within(waves, Cell { x: x + 1, y }))?;
    }
    Ok(())
}

// Appends the line of a row.
pub(crate) fn put_costs(out: &mut Vec<u8>, waves: &CostWaves, y: u16) -> Result<(), NoMemory>
    ensures { OnOk result (out.new.items ≡ out.old.items ++ printing.printed_line waves.now y) }
{
    put_fields(out, waves, y)?;
    put(out, b"\n")
}

/// Writes the lines.
pub fn write_costs<O: Sink, L: Ledger>(
    alloc: Global,
    lines: &mut CostLines,
    out: &mut O,
    steps: &mut Steps<L>,
) -> Result<u8, Stop>
    ensures { SendsWhole (printing.AreWritten lines.old) (O.outflow out.old) (O.outflow out.new) result }
{
    match lines {
        CostLines::Rows { job, rows } => work_items(alloc, job, rows.as_slice(), out, steps),
        CostLines::Line(text) => send_text(out, text.as_slice(), 0),
    }
}

// The numbers of so many rows.
fn numbers_below(alloc: Global, height: u16) -> Result<Vec<u16>, NoMemory>
    ensures { IfOk result (λ rows. rows.items ≡ range_with_len 0 height) }
{
    let mut rows = Vec::new(alloc);
    for y in 0..height {
        rows.push(y)?;
    }
    Ok(rows)
}

// One pass from a free cell.
fn costs_from(alloc: Global, layers: &Layers, from: Cell) -> Result<CostLines, NoMemory>
    requires free { is_free_ground layers.now from ≡ true }
    requires told { why_untold layers.now from ≡ None }
    ensures { IfOk result (printing.TellCosts layers.now from) }
{
    let grid = layers.query_grid(from);
    let mut waves = CostWaves::new(alloc, grid.width(), grid.height())?;
    waves.pass(grid, from)?;
    let rows = numbers_below(alloc, grid.height())?;
    let job = Distances { waves };
    Ok(CostLines::Rows { job, rows })
}

/// The costs from the cell of this column and row, by one pass over the grid of the cell.
pub fn costs_at(alloc: Global, layers: &Layers, x: u32, y: u32) -> Result<CostLines, NoMemory>
    ensures { IfOk result (printing.TellCosts layers.now (record { x = x; y = y })) }
{
    match free_cell(layers, x, y) {
        Ok(from) => costs_from(alloc, layers, from),
        Err(line) => {
            let text = Vec::from_slice(alloc, line)?;
            Ok(CostLines::Line(text))
        }
    }
}
