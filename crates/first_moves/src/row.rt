//! The first moves from one cell, cut into runs.

ghost use Rattle.std.specs.Prelude.{◌≡◌, ◌+◌, ◌*◌, ◌<◌, ◌≤◌, ◌++◌, ◌∷◌, ◌⊎◌, [], true, List, Option, None};
ghost use Rattle.std.specs.Prelude.{map, length, slice_get, Some, slice_index_or, if◌then◌else◌, IfOk, OnOk};
ghost use Rattle.std.specs.Prelude.{OnErr};
ghost use Rattle.grid_moves.specs.declared.Cell.{Cell};
ghost use Rattle.grid_moves.specs.declared.Dir.{Dir};
ghost use Rattle.grid_moves.specs.Grid.{GridData, is_free, is_inside};
ghost use Rattle.std.specs.List.{find};
ghost use Rattle.cost_waves.specs.Stored.{Tells, IsBlank, has_dir};
ghost use Rattle.first_moves.specs.First as spec;
ghost use Rattle.first_moves.specs.Runs.{runs_of, is_same_move};
ghost use Rattle.first_moves.specs.Row.{IsRow};
ghost use Rattle.first_moves.specs.Finding.{FindsFirst};
ghost use Rattle.first_moves.specs.Span.{IsSpan};
ghost use Rattle.first_moves.specs.declared.row.Run.{Run};

use crate::NoMemory;
use cost_waves::{CostWaves, has_dir};
use grid_moves::{ALL_DIRS, Cell, Dir, Terrain};
use path_points::push_item;
use std::alloc::Global;
use std::marker::Model;

// How far a search looks at first, in runs.
const FIRST_REACH: usize = 8;

// The place of a run is counted in these parts of a row's runs.
const PARTS: usize = 65536;

/// A run of equal first moves. It takes four bytes.
#[derive(Clone, Copy, Debug, PartialEq, Eq)]
pub struct Run {
    /// The number of the first cell of the run.
    pub start: u16,
    /// The first move to each of its cells.
    pub first: Option<Dir>,
}

// The first of these directions that the byte has.
fn first_of(byte: u8, dirs: &[Dir]) -> Option<Dir>
    ensures { result ≡ find (has_dir byte) dirs.now }
{
    dirs.iter().copied().find(|d| has_dir(byte, *d))
}

// The direction of least number in a byte of directions.
fn first_in(byte: u8) -> Option<Dir>
    ensures { result ≡ spec.first_in byte }
{
    first_of(byte, &ALL_DIRS)
}

// Whether two first moves are equal.
fn is_same_move(one: Option<Dir>, other: Option<Dir>) -> bool
    ensures { result ≡ is_same_move one other }
{
    match (one, other) {
        (None, None) => true,
        (Some(d), Some(e)) => d == e,
        _ => false,
    }
}

// Appends the run that begins at a cell, if one does: where its first move differs from that to the cell
// before. Mostly the bytes themselves are equal.
fn go_on(runs: &mut Vec<Run>, start: u16, before: u8, byte: u8) -> Result<(), NoMemory>
    ensures { OnOk result (runs.new.items ≡ (if is_same_move (spec.first_in before) (spec.first_in byte)
        then runs.old.items else runs.old.items ++ record { start = start; first = spec.first_in byte } ∷ [])) }
{
    if byte == before {
        return Ok(());
    }
    let first = first_in(byte);
    if is_same_move(first_in(before), first) {
        return Ok(());
    }
    push_item(runs, Run { start, first })
}

// The runs of a row, given for each cell the directions with which least walks to it begin.
fn fill(runs: &mut Vec<Run>, bytes: &[u8]) -> Result<(), NoMemory>
    requires { length bytes.now ≤ 16384 }
    ensures runs { OnOk result (runs.new.items ≡ runs_of (map spec.first_in bytes.now)) }
    ensures few { OnOk result (length runs.new.items ≤ 16384) }
{
    runs.clear();
    let Some((first, others)) = bytes.split_first() else {
        return Ok(());
    };
    let run = Run {
        start: 0,
        first: first_in(*first),
    };
    push_item(runs, run)?;
    let mut before = *first;
    for (i, byte) in others.iter().enumerate() {
        go_on(runs, i as u16 + 1, before, *byte)?;
        before = *byte;
    }
    Ok(())
}

// Looks forward from a run that begins at or before the number, or is the first one, twice as far each time.
fn reach_forward(runs: &[Run], number: u32, near: usize) -> (usize, usize)
    requires within { near < length runs.now }
    requires begun { (d : Run) → 0 < near → (slice_index_or runs.now near d).start ≤ number }
    ensures { IsSpan runs.now number result.0 result.1 }
{
    let mut low = near;
    let mut reach = FIRST_REACH;
    'reaching: while reach < runs.len() - low {
        if number < u32::from(runs[low + reach].start) {
            return (low, low + reach);
        }
        low += reach;
        reach *= 2;
    }
    (low, runs.len())
}

// Looks back from a run that begins after the number.
fn reach_back(runs: &[Run], number: u32, near: usize) -> (usize, usize)
    requires within { near < length runs.now }
    requires later { 0 < near }
    requires after { (d : Run) → number < (slice_index_or runs.now near d).start }
    ensures { IsSpan runs.now number result.0 result.1 }
{
    let mut high = near;
    let mut reach = FIRST_REACH;
    'reaching: while reach < high {
        if u32::from(runs[high - reach].start) <= number {
            return (high - reach, high);
        }
        high -= reach;
        reach *= 2;
    }
    (0, high)
}

// Two runs between which that of the number stands, looked for from a run on, if one is given.
fn span_near(runs: &[Run], number: u32, near: Option<usize>) -> (usize, usize)
    requires { 0 < length runs.now }
    ensures { IsSpan runs.now number result.0 result.1 }
{
    let Some(near) = near else {
        return (0, runs.len());
    };
    let near = near.min(runs.len() - 1);
    if near == 0 || u32::from(runs[near].start) <= number {
        reach_forward(runs, number, near)
    } else {
        reach_back(runs, number, near)
    }
}

// The first move to the cell of this number: that of the last run which begins at or before it. With it this
// run.
fn search(runs: &[Run], number: u32, near: Option<usize>) -> (Option<Dir>, usize)
    ensures run { result.1 ≤ length runs.now }
    ensures first { (members : List (Option Dir)) → runs.now ≡ runs_of members → number < length members
        → result.0 ≡ slice_index_or members number None }
{
    if runs.is_empty() {
        return (None, 0);
    }
    let (mut low, mut high) = span_near(runs, number, near);
    while 1 < high - low {
        let middle = low + (high - low) / 2;
        if u32::from(runs[middle].start) <= number {
            low = middle;
        } else {
            high = middle;
        }
    }
    (runs[low].first, low)
}

/// The first moves from one cell to all cells of a map, cut into longest runs of equal ones in the order of
/// cell numbers.
///
/// Contracts see the list of runs.
#[derive(Drop)]
pub struct Row {
    runs: Vec<Run>,
}

impl Model for Row {
    ghost use Rattle.std.specs.Prelude.{List, length, ◌≤◌};
    ghost use Rattle.first_moves.specs.declared.row.Run.{Run};

    ghost Value = { List Run };

    ghost view = { λ r. r.runs.items };

    ghost invariant = { λ r. length r.runs.items ≤ 16384 };
}

impl Row {
    /// The first moves from a free cell of a map of at most 2^14 cells, by one pass.
    ///
    /// `waves` is memory for passes over maps of these sides. Afterwards it tells the pass from the cell; for
    /// want of memory it does so or tells nothing.
    pub fn of<T: Terrain>(
        alloc: Global,
        waves: &mut CostWaves,
        t: &T,
        s: Cell,
    ) -> Result<Row, NoMemory>
        requires free { is_free (T.grid t.now) s ≡ true }
        requires few { (T.grid t.now).height * (T.grid t.now).width ≤ 16384 }
        requires width { waves.old.width ≡ (T.grid t.now).width }
        requires height { waves.old.height ≡ (T.grid t.now).height }
        ensures row { IfOk result (λ row. IsRow (T.grid t.now) s row) }
        ensures tells { OnOk result (Tells (T.grid t.now) s waves.new) }
        ensures starved { OnErr result ((Tells (T.grid t.now) s waves.new) ⊎ (IsBlank waves.new)) }
        ensures width { waves.new.width ≡ waves.old.width }
        ensures height { waves.new.height ≡ waves.old.height }
    {
        let mut scratch = Vec::new(alloc);
        Row::by_pass(alloc, &mut scratch, waves, t, s)
    }

    // The same, with memory for runs that is used again.
    fn by_pass<T: Terrain>(
        alloc: Global,
        scratch: &mut Vec<Run>,
        waves: &mut CostWaves,
        t: &T,
        s: Cell,
    ) -> Result<Row, NoMemory>
        requires free { is_free (T.grid t.now) s ≡ true }
        requires few { (T.grid t.now).height * (T.grid t.now).width ≤ 16384 }
        requires width { waves.old.width ≡ (T.grid t.now).width }
        requires height { waves.old.height ≡ (T.grid t.now).height }
        ensures row { IfOk result (λ row. IsRow (T.grid t.now) s row) }
        ensures tells { OnOk result (Tells (T.grid t.now) s waves.new) }
        ensures starved { OnErr result ((Tells (T.grid t.now) s waves.new) ⊎ (IsBlank waves.new)) }
        ensures width { waves.new.width ≡ waves.old.width }
        ensures height { waves.new.height ≡ waves.old.height }
    {
        waves.pass(t, s)?;
        Row::of_waves(alloc, scratch, waves)
    }

    /// The first moves from the cell from which the last pass over a map of at most 2^14 cells went, by what
    /// that pass stored. `scratch` is memory for runs that is used again; the row takes as much memory as it
    /// needs.
    pub fn of_waves(
        alloc: Global,
        scratch: &mut Vec<Run>,
        waves: &CostWaves,
    ) -> Result<Row, NoMemory>
        requires few { waves.now.height * waves.now.width ≤ 16384 }
        ensures { IfOk result (λ row. (g : GridData) (s : Cell) → waves.now.width ≡ g.width
            → waves.now.height ≡ g.height → Tells g s waves.now → IsRow g s row) }
    {
        fill(scratch, waves.all_first_dirs())?;
        let runs = Vec::from_slice(alloc, scratch.as_slice())?;
        Ok(Row { runs })
    }

    /// The row of a cell of the map that is not free: no move leads from there.
    pub fn without_moves(alloc: Global) -> Result<Row, NoMemory>
        ensures { IfOk result (λ row. row ≡ record { start = 0; first = None } ∷ []) }
    {
        let mut runs = Vec::with_capacity(alloc, 1)?;
        let run = Run {
            start: 0,
            first: None,
        };
        push_item(&mut runs, run)?;
        Ok(Row { runs })
    }

    // The row of a cell of the map, free or not.
    pub(crate) fn at<T: Terrain>(
        alloc: Global,
        scratch: &mut Vec<Run>,
        waves: &mut CostWaves,
        t: &T,
        s: Cell,
    ) -> Result<Row, NoMemory>
        requires inside { is_inside (T.grid t.now) s ≡ true }
        requires few { (T.grid t.now).height * (T.grid t.now).width ≤ 16384 }
        requires width { waves.old.width ≡ (T.grid t.now).width }
        requires height { waves.old.height ≡ (T.grid t.now).height }
        ensures row { IfOk result (λ row. IsRow (T.grid t.now) s row) }
        ensures width { waves.new.width ≡ waves.old.width }
        ensures height { waves.new.height ≡ waves.old.height }
    {
        if t.free(s) {
            Row::by_pass(alloc, scratch, waves, t, s)
        } else {
            Row::without_moves(alloc)
        }
    }

    /// The number of runs.
    pub fn runs(&self) -> u32
        ensures { result ≡ length self.now }
    {
        self.runs.len() as u32
    }

    /// The number of the first cell of run i, counted from 0, and the first move to each of its cells.
    pub fn run_at(&self, i: u32) -> (u32, Option<Dir>)
        requires { i < length self.now }
        ensures { slice_get self.now i ≡ Some (record { start = result.0; first = result.1 }) }
    {
        let run = self.runs[i as usize];
        (u32::from(run.start), run.first)
    }

    /// The first move to the cell of this number, found by halving the runs.
    pub fn first(&self, number: u32) -> Option<Dir>
        ensures { FindsFirst self.now number result }
    {
        self.find(number, None).0
    }

    // The same, looked for from a run on, if one is given, and the run in which it is found.
    #[inline(always)]
    fn find(&self, number: u32, near: Option<usize>) -> (Option<Dir>, usize)
        ensures first { FindsFirst self.now number result.0 }
        ensures run { result.1 ≤ length self.now }
    {
        search(self.runs.as_slice(), number, near)
    }

    // The same for one row after another. In rows of cells nearby the run of a goal stands after much the
    // same part of all runs: `part` is this part, once it is known. It stays that of the first row, so that
    // the processor need not wait for one row before it reads the next.
    #[inline(always)]
    pub(crate) fn first_near(&self, number: u32, part: &mut Option<u32>) -> Option<Dir>
        ensures { FindsFirst self.now number result }
    {
        let runs = self.runs.len();
        match *part {
            Some(known) => self.find(number, Some(known as usize * runs / PARTS)).0,
            None => {
                let (first, run) = self.find(number, None);
                *part = Some((run * PARTS / runs.max(1)) as u32);
                first
            }
        }
    }
}
