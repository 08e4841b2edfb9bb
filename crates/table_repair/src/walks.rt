//! Walks back side by side, a move for each in turn.
//!
//! Cells beside each other in a row lie on diagonals beside each other, and their entries lie side by side in
//! memory. One walk alone takes another line of memory for each entry. Walks that keep abreast take each line
//! once, and in order. No walk rests on another, so the same entries are refreshed whatever their order.

ghost use Rattle.std.specs.Prelude.{◌≡◌, ◌+◌, ◌-◌, ◌*◌, ◌<◌, ◌≤◌, ◌⊎◌, Bool, true, ◌||◌, Some, [], length};
ghost use Rattle.std.specs.Prelude.{slice_set};
ghost use Rattle.std.specs.Option.{option_to_list};
ghost use Rattle.grid_moves.specs.declared.Cell.{Cell};
ghost use Rattle.grid_moves.specs.Grid.{IsGrid, is_inside};
ghost use Rattle.grid_moves.specs.Move.{ahead, column_ahead, is_same, opposite, row_ahead};
ghost use Rattle.table_repair.specs.Mending.{IsRight, AreReady, FollowBut, Mends, behind_on, either};
ghost use Rattle.table_repair.specs.Abreast.{AreStanding, IsOnward, KeepAbreast, LedOn, is_at_one, no_cell};

use arrayvec::ArrayVec;
use grid_moves::{Cell, Dir, Grid, Terrain, before, dir_number};
use plus_tables::Tables;
use std::sync::ledger::Ledger;
use steps::Steps;

/// A walk back, which stands at a cell whose entry is right.
#[derive(Clone, Copy)]
pub struct WalkBack {
    pub at: Cell,
}

impl Default for WalkBack {
    fn default() -> WalkBack {
        WalkBack {
            at: Cell { x: 0, y: 0 },
        }
    }
}

/// Walks that keep abreast, at most 256.
pub type Walks = ArrayVec<WalkBack, 256>;

// One more than the columns by which a move back along each direction leads to the east, and one more than
// the rows by which it leads to the south. They are read from tables, so that there is no branch on the
// direction.
const COLUMNS_BACK_AND_ONE: [u16; 8] = [1, 0, 0, 0, 1, 2, 2, 2];

const ROWS_BACK_AND_ONE: [u16; 8] = [2, 2, 1, 0, 0, 0, 1, 2];

// One more than the columns by which a move back along d leads to the east.
#[inline(always)]
fn columns_back_and_one(d: Dir) -> u16
    ensures { column_ahead (opposite d) 1 ≡ Some result }
{
    COLUMNS_BACK_AND_ONE[dir_number(d) as usize]
}

// One more than the rows by which a move back along d leads to the south.
#[inline(always)]
fn rows_back_and_one(d: Dir) -> u16
    ensures { row_ahead (opposite d) 1 ≡ Some result }
{
    ROWS_BACK_AND_ONE[dir_number(d) as usize]
}

// The cell behind, if it lies on the map.
#[inline(always)]
fn cell_before(grid: &Grid, d: Dir, v: Cell) -> Option<Cell>
    requires grid { IsGrid grid.now }
    requires inside { is_inside grid.now v ≡ true }
    ensures { result ≡ behind_on grid.now d v }
{
    let x = before(v.x + columns_back_and_one(d));
    let y = before(v.y + rows_back_and_one(d));
    if x < grid.width() && y < grid.height() {
        Some(Cell { x, y })
    } else {
        None
    }
}

// Makes the entry for `d` at the cell behind a walk right; the walk from there, if the entry changed.
#[inline(always)]
fn walk_on<L: Ledger>(
    tables: &mut Tables,
    grid: &Grid,
    walk: WalkBack,
    d: Dir,
    steps: &mut Steps<L>,
) -> Option<WalkBack>
    requires ready { AreReady grid.now tables.old d }
    requires inside { is_inside grid.now walk.at ≡ true }
    requires right { IsRight grid.now tables.old walk.at d }
    ensures mends { Mends grid.now d (λ w. is_same w walk.at) tables.old tables.new
        (length (option_to_list result)) }
    ensures follows { (later : Cell → Bool)
        → FollowBut grid.now tables.old d (λ w. is_same w walk.at || later w)
        → FollowBut grid.now tables.new d (either (is_at_one (option_to_list result)) later) }
    ensures onward { (next : WalkBack) → result ≡ Some next → IsOnward grid.now tables.new d walk.at next.at }
    ensures step { steps.new ≤ steps.old + 1 }
    ensures later { steps.old ≤ steps.new }
{
    if let Some(before) = cell_before(grid, d, walk.at) {
        if tables.refresh(grid, before, d, steps) {
            return Some(WalkBack { at: before });
        }
    }
    None
}

// Puts a walk in the place of one of the walks.
#[inline(always)]
fn set_walk(walks: &mut Walks, place: usize, walk: WalkBack)
    requires { place < length walks.old.items }
    ensures { walks.new.items ≡ slice_set walks.old.items place walk }
{
    walks.as_mut_slice()[place] = walk;
}

// Leads each walk one move back; those whose entry changed go on, the others end. Those that go on move to
// the front of the list, so a round touches no more of it than the walks that are left.
fn lead_all<L: Ledger>(
    tables: &mut Tables,
    grid: &Grid,
    walks: &mut Walks,
    d: Dir,
    steps: &mut Steps<L>,
)
    requires standing { AreStanding grid.now tables.old d walks.old.items }
    ensures { LedOn grid.now d tables.old tables.new walks.old.items walks.new.items steps.old steps.new }
{
    let all = walks.len();
    let mut onward: usize = 0;
    for i in 0..all {
        let walk = walks.as_slice()[i];
        if let Some(next) = walk_on(tables, grid, walk, d, steps) {
            set_walk(walks, onward, next);
            onward += 1;
        }
    }
    walks.truncate(onward);
}

/// Leads each walk one move back, if there are any: in most lines of a small repair there are none.
#[inline(always)]
pub fn lead_on<L: Ledger>(
    tables: &mut Tables,
    grid: &Grid,
    walks: &mut Walks,
    d: Dir,
    steps: &mut Steps<L>,
)
    requires standing { AreStanding grid.now tables.old d walks.old.items }
    ensures { LedOn grid.now d tables.old tables.new walks.old.items walks.new.items steps.old steps.new }
{
    if !walks.is_empty() {
        lead_all(tables, grid, walks, d, steps);
    }
}

/// Leads all walks back, each as long as entries change; says how many did.
pub fn lead_out<L: Ledger>(
    tables: &mut Tables,
    grid: &Grid,
    walks: &mut Walks,
    d: Dir,
    steps: &mut Steps<L>,
) -> u64
    requires standing { AreStanding grid.now tables.old d walks.old.items }
    requires short { length walks.old.items ≤ 256 }
    ensures abreast { KeepAbreast grid.now d (is_at_one walks.old.items) tables.old tables.new
        walks.new.items no_cell result }
    ensures none { walks.new.items ≡ [] }
    ensures few { result ≤ 4096 * length walks.old.items }
    ensures steps { steps.new ≤ steps.old + result + length walks.old.items }
    ensures later { steps.old ≤ steps.new }
{
    let mut changed = 0;
    'round: while !walks.is_empty() {
        lead_all(tables, grid, walks, d, steps);
        changed += walks.len() as u64;
    }
    changed
}

// Leads all walks out if no further one fits; says how many entries changed.
fn make_room<L: Ledger>(
    tables: &mut Tables,
    grid: &Grid,
    walks: &mut Walks,
    d: Dir,
    steps: &mut Steps<L>,
) -> u64
    requires standing { AreStanding grid.now tables.old d walks.old.items }
    requires short { length walks.old.items ≤ 256 }
    ensures abreast { KeepAbreast grid.now d (is_at_one walks.old.items) tables.old tables.new
        walks.new.items no_cell result }
    ensures same { (w : Cell) → is_at_one walks.new.items w ≡ true → is_at_one walks.old.items w ≡ true }
    ensures room { length walks.new.items ≤ 255 }
    ensures few { result ≤ 1048576 }
    ensures steps { steps.new + length walks.new.items ≤ steps.old + result + length walks.old.items }
    ensures later { steps.old ≤ steps.new }
{
    if walks.remaining_capacity() < 1 {
        lead_out(tables, grid, walks, d, steps)
    } else {
        0
    }
}

/// Lets one walk more begin, at a cell whose entry is right, and leads it one move back. Adds to the number
/// of changed entries how many changed.
#[inline(always)]
pub fn begin<L: Ledger>(
    tables: &mut Tables,
    grid: &Grid,
    walks: &mut Walks,
    from: Cell,
    d: Dir,
    changed: u64,
    steps: &mut Steps<L>,
) -> u64
    requires standing { AreStanding grid.now tables.old d walks.old.items }
    requires short { length walks.old.items ≤ 255 }
    requires from_inside { is_inside grid.now from ≡ true }
    requires from_right { IsRight grid.now tables.old from d }
    requires few { changed ≤ 4294971648 }
    ensures abreast { KeepAbreast grid.now d (either (is_at_one walks.old.items) (λ w. is_same w from))
        tables.old tables.new walks.new.items no_cell (result - changed) }
    ensures behind { (w : Cell) → is_at_one walks.new.items w ≡ true
        → (is_at_one walks.old.items w ≡ true) ⊎ (ahead d w ≡ Some from) }
    ensures short { length walks.new.items ≤ 255 }
    ensures more { changed ≤ result }
    ensures few { result ≤ changed + 1048577 }
    ensures steps { steps.new + length walks.new.items + changed
        ≤ steps.old + result + length walks.old.items + 1 }
    ensures later { steps.old ≤ steps.new }
{
    match walk_on(tables, grid, WalkBack { at: from }, d, steps) {
        Some(next) => {
            walks.push(next);
            changed + (1 + make_room(tables, grid, walks, d, steps))
        }
        None => changed,
    }
}
