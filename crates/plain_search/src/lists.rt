//! The lists of a search, by which its answer can be checked without one.
//!
//! They are made of the least costs to all cells, in the order of the cells' numbers.

ghost use Rattle.std.specs.Prelude.{◌≡◌, ◌*◌, ◌+◌, ◌++◌, ◌<◌, ◌≤◌, ◌^◌, [], true, IfOk, OnOk, length};
ghost use Rattle.std.specs.List.{cons_option};
ghost use Rattle.grid_moves.specs.Grid.{cell_numbered, is_free};
ghost use Rattle.plain_search.specs.Costs.{AreCostsToAll};
ghost use Rattle.plain_search.specs.Lists as spec;
ghost use Rattle.plain_search.specs.Lists.{AreLists, closed_of, plain_of, reached_of};

use crate::{NoMemory, Taken};
use best_first::Found;
use grid_moves::{Cell, Ends, Terrain, estimate};
use path_points::{Cells, Costs, Points, Walk, push_item};
use root2_cost::Cost;
use std::alloc::Global;

/// What a plain search found, with the list that shows that it is right.
#[derive(Drop)]
pub enum Listed {
    /// A least walk: its points, its cost, the cells whose least cost from the start and estimate to
    /// the goal are together below that cost, by ascending number and with their least costs, and
    /// the states that the search took.
    Found {
        points: Points,
        cost: Cost,
        closed: Costs,
        taken: Taken,
    },
    /// No walk exists; the cells to which walks lead, by ascending number, and the states that the
    /// search took.
    None {
        reached: Cells,
        taken: Taken,
    },
}

// The cell of this number.
fn cell_numbered(width: u16, number: usize) -> Cell
    requires wide { 1 ≤ width }
    requires on { number < 65536 * width }
    ensures { result ≡ cell_numbered width number }
{
    let width = width as usize;
    Cell {
        x: (number % width) as u16,
        y: (number / width) as u16,
    }
}

// The cell with its cost, if that and the estimate to the goal are together below the bound.
fn if_below(goal: Cell, bound: Cost, cell: Cell, cost: Cost) -> Option<(Cell, Cost)>
    requires { cost.a + cost.b ≤ 2 ^ 24 }
    ensures { result ≡ spec.if_below goal bound cell cost }
{
    if cost.add(estimate(cell, goal)).is_below(bound) {
        Some((cell, cost))
    } else {
        None
    }
}

// The cell of this number with its least cost, if it is closed.
fn closed_at<T: Terrain>(
    t: &T,
    ends: Ends,
    bound: Cost,
    costs: &[Option<Cost>],
    number: usize,
) -> Option<(Cell, Cost)>
    requires from { is_free (T.grid t.now) ends.from ≡ true }
    requires costs { AreCostsToAll (T.grid t.now) ends.from costs.now }
    requires known { number < length costs.now }
    ensures { result ≡ spec.closed_at (T.grid t.now) ends.from ends.to bound
        (cell_numbered (T.grid t.now).width number) }
{
    match costs[number] {
        Some(cost) => if_below(ends.to, bound, cell_numbered(t.width(), number), cost),
        None => None,
    }
}

// The cell of this number, if it is reached.
fn reached_at<T: Terrain>(t: &T, from: Cell, costs: &[Option<Cost>], number: usize) -> Option<Cell>
    requires from { is_free (T.grid t.now) from ≡ true }
    requires costs { AreCostsToAll (T.grid t.now) from costs.now }
    requires known { number < length costs.now }
    ensures { result ≡ spec.reached_at (T.grid t.now) from (cell_numbered (T.grid t.now).width number) }
{
    match costs[number] {
        Some(_) => Some(cell_numbered(t.width(), number)),
        None => None,
    }
}

// Appends the item, if there is one.
fn push_some<T: Drop>(items: &mut Vec<T>, item: Option<T>) -> Result<(), NoMemory>
    ensures { OnOk result (items.new.items ≡ items.old.items ++ cons_option item []) }
{
    match item {
        Some(item) => push_item(items, item),
        None => Ok(()),
    }
}

// The closed cells, given the least costs from the start.
fn closed_cells<T: Terrain>(
    alloc: Global,
    t: &T,
    ends: Ends,
    bound: Cost,
    costs: &[Option<Cost>],
) -> Result<Costs, NoMemory>
    requires from { is_free (T.grid t.now) ends.from ≡ true }
    requires costs { AreCostsToAll (T.grid t.now) ends.from costs.now }
    ensures { IfOk result (λ closed. closed ≡ closed_of (T.grid t.now) ends.from ends.to bound) }
{
    let mut closed = Vec::new(alloc);
    for number in 0..costs.len() {
        push_some(&mut closed, closed_at(t, ends, bound, costs, number))?;
    }
    Ok(Costs::of(closed))
}

// The reached cells, given the least costs from the start.
fn reached_cells<T: Terrain>(
    alloc: Global,
    t: &T,
    start: Cell,
    costs: &[Option<Cost>],
) -> Result<Cells, NoMemory>
    requires from { is_free (T.grid t.now) start ≡ true }
    requires costs { AreCostsToAll (T.grid t.now) start costs.now }
    ensures { IfOk result (λ reached. reached ≡ reached_of (T.grid t.now) start) }
{
    let mut reached = Vec::new(alloc);
    for number in 0..costs.len() {
        push_some(&mut reached, reached_at(t, start, costs, number))?;
    }
    Ok(Cells::of(reached))
}

/// The answer with its list, given the least costs from the start.
pub(crate) fn with_list<T: Terrain>(
    alloc: Global,
    t: &T,
    ends: Ends,
    found: Found,
    costs: &[Option<Cost>],
) -> Result<Listed, NoMemory>
    requires from { is_free (T.grid t.now) ends.from ≡ true }
    requires costs { AreCostsToAll (T.grid t.now) ends.from costs.now }
    ensures same { IfOk result (λ listed. plain_of listed ≡ found) }
    ensures lists { IfOk result (AreLists (T.grid t.now) ends.from ends.to) }
{
    let Found { walk, taken } = found;
    match walk {
        Some(Walk { points, cost }) => {
            let closed = closed_cells(alloc, t, ends, cost, costs)?;
            Ok(Listed::Found {
                points,
                cost,
                closed,
                taken,
            })
        }
        None => {
            let reached = reached_cells(alloc, t, ends.from, costs)?;
            Ok(Listed::None { reached, taken })
        }
    }
}
