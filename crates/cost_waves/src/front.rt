//! What a settled cell does: it offers each of its legal moves.
//!
//! A lesser rank takes the place of the neighbour's rank, and its directions that of the neighbour's; an
//! equal one adds its directions. A neighbour whose rank falls into another wave waits for that wave. Its
//! entry in the list of the wave before stays, and is passed over there.

ghost use Rattle.std.specs.Prelude.{◌≡◌, ◌+◌, ◌*◌, ◌<◌, ◌≤◌, ◌^◌, true, length, OnOk};
ghost use Rattle.grid_moves.specs.Around.{if_open};
ghost use Rattle.grid_moves.specs.Grid.{IsGrid, is_free};
ghost use Rattle.grid_moves.specs.Move.{all_dirs};
ghost use Rattle.cost_waves.specs.Front as spec;
ghost use Rattle.cost_waves.specs.Front.{entered, next_with, after_with};
ghost use Rattle.cost_waves.specs.Shape.{front_of, Fits};

use crate::NoMemory;
use grid_moves::{Cell, Dir, Terrain, moves_around, number_of};
use root2_cost::{DIAGONAL_RANK, STRAIGHT_RANK};

/// A cell that is settled: its rank, and the directions with which least walks to it begin. From the start of
/// a pass a move begins with its own direction.
#[derive(Clone, Copy)]
pub(crate) struct Source {
    pub(crate) cell: Cell,
    pub(crate) rank: u64,
    pub(crate) start: bool,
    pub(crate) first: u8,
}

// The width of the map, and the limit below which ranks lie in the next wave.
#[derive(Clone, Copy)]
struct Wave {
    width: u16,
    limit: u64,
}

/// The cells that wait: for the next wave, and for the one after it.
#[derive(Drop)]
pub(crate) struct Ahead {
    pub(crate) next: Vec<Cell>,
    pub(crate) after: Vec<Cell>,
}

// What a move in a direction counts.
#[inline(always)]
fn dir_rank(d: Dir) -> u64
    ensures value { result ≡ spec.dir_rank d }
    ensures most { result ≤ 4478554083 }
{
    match d {
        Dir::N | Dir::E | Dir::S | Dir::W => STRAIGHT_RANK,
        Dir::NE | Dir::SE | Dir::SW | Dir::NW => DIAGONAL_RANK,
    }
}

// The directions with which walks over this cell and on in this direction begin.
#[inline(always)]
fn first_over(from: Source, d: Dir) -> u8
    ensures { result ≡ spec.first_over from d }
{
    let own = match d {
        Dir::N => 1,
        Dir::NE => 2,
        Dir::E => 4,
        Dir::SE => 8,
        Dir::S => 16,
        Dir::SW => 32,
        Dir::W => 64,
        Dir::NW => 128,
    };
    if from.start { own } else { from.first }
}

// Puts a cell whose rank fell into the list of its wave, unless it stands there. Ranks below the limit lie in
// the next wave.
#[inline(always)]
fn list(to: Cell, rank: u64, known: u64, limit: u64, ahead: &mut Ahead) -> Result<(), NoMemory>
    requires { limit < 2 ^ 63 }
    ensures next { OnOk result (ahead.new.next.items ≡ next_with limit known rank to ahead.old.next.items) }
    ensures after { OnOk result (ahead.new.after.items
        ≡ after_with limit known rank to ahead.old.after.items) }
{
    if rank < limit {
        if limit <= known {
            ahead.next.push(to)?;
        }
    } else if limit + STRAIGHT_RANK <= known {
        ahead.after.push(to)?;
    }
    Ok(())
}

// Offers a cell a rank and directions.
#[inline(always)]
#[tactic(auto, unfolding(crate::specs::Front::entered))]
fn enter(
    at: usize,
    limit: u64,
    to: Cell,
    rank: u64,
    first: u8,
    ranks: &mut [u64],
    firsts: &mut [u8],
    ahead: &mut Ahead,
) -> Result<(), NoMemory>
    requires limit { limit < 2 ^ 63 }
    requires ranked { at < length ranks.old }
    requires bytes { at < length firsts.old }
    ensures { OnOk result (front_of ranks.new firsts.new ahead.new
        ≡ entered at limit to rank first (front_of ranks.old firsts.old ahead.old)) }
{
    let known = ranks[at];
    if rank < known {
        ranks[at] = rank;
        firsts[at] = first;
        list(to, rank, known, limit, ahead)?;
    } else if rank == known {
        firsts[at] |= first;
    }
    Ok(())
}

// Offers a move in a direction to the cell of this column and row, if it is open.
#[inline(always)]
fn offer(
    wave: Wave,
    from: Source,
    d: Dir,
    is_open: bool,
    x: u16,
    y: u16,
    ranks: &mut [u64],
    firsts: &mut [u8],
    ahead: &mut Ahead,
) -> Result<(), NoMemory>
    requires limit { wave.limit < 2 ^ 63 }
    requires rank { from.rank < 2 ^ 63 }
    requires fits { is_open ≡ true
        → Fits wave.width (record { x = x; y = y }) (length ranks.old) (length firsts.old) }
    ensures { OnOk result (front_of ranks.new firsts.new ahead.new
        ≡ spec.offered wave.width wave.limit from d (if_open is_open (record { x = x; y = y }))
        (front_of ranks.old firsts.old ahead.old)) }
{
    if !is_open {
        return Ok(());
    }
    let to = Cell { x, y };
    let at = number_of(wave.width, to) as usize;
    let rank = from.rank + dir_rank(d);
    let first = first_over(from, d);
    enter(at, wave.limit, to, rank, first, ranks, firsts, ahead)
}

/// Offers the legal moves from a cell. Ranks below `limit` lie in the next wave.
#[inline(always)]
pub(crate) fn spread<T: Terrain>(
    t: &T,
    from: Source,
    limit: u64,
    ranks: &mut [u64],
    firsts: &mut [u8],
    ahead: &mut Ahead,
) -> Result<(), NoMemory>
    requires whole { IsGrid (T.grid t.now) }
    requires free { is_free (T.grid t.now) from.cell ≡ true }
    requires limit { limit < 2 ^ 63 }
    requires rank { from.rank < 2 ^ 63 }
    requires ranked { length ranks.old ≡ (T.grid t.now).height * (T.grid t.now).width }
    requires bytes { length firsts.old ≡ (T.grid t.now).height * (T.grid t.now).width }
    ensures { OnOk result (front_of ranks.new firsts.new ahead.new
        ≡ spec.spread (T.grid t.now) limit from all_dirs (front_of ranks.old firsts.old ahead.old)) }
{
    let width = t.width();
    let w = Wave { width, limit };
    let Cell { x, y } = from.cell;
    let a = moves_around(t, from.cell);
    let (left, right, up, down) = (a.left, a.right, a.up, a.down);
    offer(w, from, Dir::N, a.n, x, up, ranks, firsts, ahead)?;
    offer(w, from, Dir::NE, a.ne, right, up, ranks, firsts, ahead)?;
    offer(w, from, Dir::E, a.e, right, y, ranks, firsts, ahead)?;
    offer(w, from, Dir::SE, a.se, right, down, ranks, firsts, ahead)?;
    offer(w, from, Dir::S, a.s, x, down, ranks, firsts, ahead)?;
    offer(w, from, Dir::SW, a.sw, left, down, ranks, firsts, ahead)?;
    offer(w, from, Dir::W, a.w, left, y, ranks, firsts, ahead)?;
    offer(w, from, Dir::NW, a.nw, left, up, ranks, firsts, ahead)?;
    Ok(())
}
