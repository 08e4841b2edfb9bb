//! Straight and diagonal jumps.

ghost use Rattle.std.specs.Prelude.{◌≡◌, ◌&&◌, ◌||◌, false, true, IfSome, is_some, option_map};
ghost use Rattle.grid_moves.specs.Grid.{IsGrid, is_free};
ghost use Rattle.grid_moves.specs.Move.{is_open, is_same, legal_ahead};
ghost use Rattle.pruning.specs.Turns as turns;
ghost use Rattle.pruning.specs.Turns.{is_diagonal};
ghost use Rattle.pruning.specs.Marked.{is_forced};
ghost use Rattle.pruning.specs.First as first;
ghost use Rattle.grid_moves.specs.Ruled as ruled;
ghost use Rattle.jump_plain.specs.Beside as besides;
ghost use Rattle.jump_plain.specs.Reach as spec;

use crate::beside::Sides;
use crate::scan::{Reach, scan, scan_with};
use grid_moves::{Cell, Corner, Dir, Ruled, Terrain, beyond, is_passable, may_cut};
use pruning::{Side, forced, turn};

/// The number of moves in a straight direction that lead from one cell to another, or 0 where none do.
#[inline(always)]
pub fn moves_to(d: Dir, from: Cell, to: Cell) -> u16
    ensures { result ≡ spec.moves_to d from to }
{
    match d {
        Dir::N if from.x == to.x => from.y.saturating_sub(to.y),
        Dir::S if from.x == to.x => to.y.saturating_sub(from.y),
        Dir::E if from.y == to.y => to.x.saturating_sub(from.x),
        Dir::W if from.y == to.y => from.x.saturating_sub(to.x),
        _ => 0,
    }
}

// The first stop of a straight jump, given how far the scan reaches and where the goal lies: the goal where
// the run reaches it, else the mark.
#[inline(always)]
fn stop_of(reach: Reach, to_goal: u16) -> Option<u16>
    ensures { result ≡ spec.stop_of reach to_goal }
{
    if 0 < to_goal && to_goal <= reach.moves {
        Some(to_goal)
    } else if reach.marked {
        Some(reach.moves)
    } else {
        None
    }
}

// After how many moves a straight jump stops.
#[inline(always)]
fn straight_stop<T: Terrain>(t: &T, at: Cell, d: Dir, goal: Cell) -> Option<u16>
    requires straight { is_diagonal d ≡ false }
    requires free { is_free (T.grid t.now) at ≡ true }
    requires whole { IsGrid (T.grid t.now) }
    ensures { result ≡ first.first_stop (T.grid t.now) goal at d }
{
    let reach = scan(t, at, d);
    let to_goal = moves_to(d, at, goal);
    stop_of(reach, to_goal)
}

// The sides with which a scan begins at the end of a diagonal move, in the component to this side, given the
// cells ahead of that end. The other component's is a side of the run. Where no corner is cut, the
// side half behind was passed by the move, and is free.
#[inline(always)]
fn sides_after(rule: Corner, beside: Sides, side: Side) -> Sides
    ensures { result ≡ spec.sides_after rule beside side }
{
    match side {
        _ if may_cut(rule) => Sides {
            right: true,
            left: true,
        },
        Side::Right => Sides {
            right: true,
            left: beside.left,
        },
        Side::Left => Sides {
            right: beside.right,
            left: true,
        },
    }
}

/// The next cell of a diagonal run.
#[derive(Clone, Copy)]
pub struct Next {
    pub cell: Cell,
    /// Whether both cells beside the move to it are free, so that no neighbour is forced there.
    pub clear: bool,
}

// Whether a diagonal move is legal: it passes, and the cell that it leads to is free.
#[inline(always)]
fn leads_on<T: Terrain>(t: &T, passes: bool, place: usize, at: Cell, d: Dir) -> bool
    requires given { place ≡ T.place_of t.now at }
    requires free { is_free (T.grid t.now) at ≡ true }
    ensures { result ≡ (is_open (T.grid t.now) at d && passes) }
{
    passes && t.open_by(place, at, d)
}

// Whether both hold.
#[inline(always)]
fn both(one: bool, other: bool) -> bool
    ensures { result ≡ (one && other) }
{
    one && other
}

/// The next cell of a diagonal run, exactly where the move to it is legal.
#[inline(always)]
pub fn diagonal_ahead<T: Terrain>(t: &T, at: Cell, d: Dir, beside: Sides) -> Option<Next>
    requires diagonal { is_diagonal d ≡ true }
    requires free { is_free (T.grid t.now) at ≡ true }
    requires whole { IsGrid (T.grid t.now) }
    requires beside { beside ≡ besides.sides_ahead (T.grid t.now) at d }
    ensures legal { option_map (λ n. n.cell) result ≡ legal_ahead (T.grid t.now) at d }
    ensures clear { IfSome result (λ n. n.clear ≡ true → is_forced (T.grid t.now) n.cell d ≡ false) }
{
    diagonal_by(t, t.place(at), at, d, beside)
}

// The same, given the cell's place.
#[inline(always)]
fn diagonal_by<T: Terrain>(t: &T, place: usize, at: Cell, d: Dir, beside: Sides) -> Option<Next>
    requires given { place ≡ T.place_of t.now at }
    requires diagonal { is_diagonal d ≡ true }
    requires free { is_free (T.grid t.now) at ≡ true }
    requires whole { IsGrid (T.grid t.now) }
    requires beside { beside ≡ besides.sides_ahead (T.grid t.now) at d }
    ensures legal { option_map (λ n. n.cell) result ≡ legal_ahead (T.grid t.now) at d }
    ensures clear { IfSome result (λ n. n.clear ≡ true → is_forced (T.grid t.now) n.cell d ≡ false) }
{
    let clear = both(beside.right, beside.left);
    if leads_on(
        t,
        is_passable(t.corner(), beside.left, beside.right),
        place,
        at,
        d,
    ) {
        let cell = beyond(at, d);
        Some(Next { cell, clear })
    } else {
        None
    }
}

// Whether a neighbour is forced at the next cell.
#[inline(always)]
fn is_forced_at<T: Terrain>(t: &T, next: Next, d: Dir) -> bool
    requires free { is_free (T.grid t.now) next.cell ≡ true }
    requires clear { next.clear ≡ true → is_forced (T.grid t.now) next.cell d ≡ false }
    ensures { result ≡ is_forced (T.grid t.now) next.cell d }
{
    !next.clear && forced(t, next.cell, d)
}

// Whether a cell lies on the line of a straight run, ahead or behind.
#[inline(always)]
fn is_on_line(d: Dir, from: Cell, to: Cell) -> bool
    ensures { result ≡ false → spec.moves_to d from to ≡ 0 }
{
    match d {
        Dir::N | Dir::S => from.x == to.x,
        Dir::E | Dir::W => from.y == to.y,
        Dir::NE | Dir::SE | Dir::SW | Dir::NW => false,
    }
}

// Whether a straight jump finds a stop, for the rare runs on the goal's line.
#[inline(never)]
fn finds_on_line<T: Terrain>(t: &T, at: Cell, d: Dir, goal: Cell) -> bool
    requires straight { is_diagonal d ≡ false }
    requires free { is_free (T.grid t.now) at ≡ true }
    requires whole { IsGrid (T.grid t.now) }
    ensures { result ≡ is_some (first.first_stop (T.grid t.now) goal at d) }
{
    straight_stop(t, at, d, goal).is_some()
}

// Whether a straight jump finds a stop, given the cell's place and the sides that its scan begins with: a
// mark, or else the goal, which can lie on its line alone.
#[inline(always)]
fn finds_stop<T: Terrain>(t: &T, place: usize, at: Cell, d: Dir, goal: Cell, sides: Sides) -> bool
    requires given { place ≡ T.place_of t.now at }
    requires straight { is_diagonal d ≡ false }
    requires free { is_free (T.grid t.now) at ≡ true }
    requires whole { IsGrid (T.grid t.now) }
    requires sides { sides ≡ spec.first_sides (T.grid t.now).corner (T.grid t.now) at d }
    ensures { result ≡ is_some (first.first_stop (T.grid t.now) goal at d) }
{
    if scan_with(t, place, at, d, sides).marked {
        return true;
    }
    if is_on_line(d, at, goal) {
        return finds_on_line(t, at, d, goal);
    }
    false
}

// Whether a diagonal jump stops at a cell, given its place and which cells ahead of it are free: it is the
// goal, or a neighbour is forced there, or a straight jump in a component finds a stop.
#[inline(always)]
fn stops_at<T: Terrain>(t: &T, place: usize, next: Next, d: Dir, goal: Cell, beside: Sides) -> bool
    requires given { place ≡ T.place_of t.now next.cell }
    requires diagonal { is_diagonal d ≡ true }
    requires free { is_free (T.grid t.now) next.cell ≡ true }
    requires whole { IsGrid (T.grid t.now) }
    requires clear { next.clear ≡ true → is_forced (T.grid t.now) next.cell d ≡ false }
    requires sides { (s : Side) → spec.sides_after (T.grid t.now).corner beside s
        ≡ spec.first_sides (T.grid t.now).corner (T.grid t.now) next.cell (turns.turn s d) }
    ensures { result ≡ (is_same next.cell goal || is_forced (T.grid t.now) next.cell d
        || is_some (first.first_stop (T.grid t.now) goal next.cell (turns.turn Side.Right d))
        || is_some (first.first_stop (T.grid t.now) goal next.cell (turns.turn Side.Left d))) }
{
    let right = sides_after(t.corner(), beside, Side::Right);
    let left = sides_after(t.corner(), beside, Side::Left);
    next.cell == goal
        || is_forced_at(t, next, d)
        || finds_stop(t, place, next.cell, turn(Side::Right, d), goal, right)
        || finds_stop(t, place, next.cell, turn(Side::Left, d), goal, left)
}

// After how many moves a diagonal jump stops.
#[inline(always)]
fn diagonal_stop<T: Terrain>(t: &T, at: Cell, d: Dir, goal: Cell) -> Option<u16>
    requires diagonal { is_diagonal d ≡ true }
    requires free { is_free (T.grid t.now) at ≡ true }
    requires whole { IsGrid (T.grid t.now) }
    ensures { result ≡ first.first_stop (T.grid t.now) goal at d }
{
    let mut cell = at;
    let mut place = t.place(at);
    let mut beside = Sides::ahead_by(t, place, at, d);
    let mut moves = 0;
    'run: while let Some(next) = diagonal_by(t, place, cell, d, beside) {
        moves += 1;
        place = t.place_ahead(place, cell, d);
        beside = Sides::ahead_by(t, place, next.cell, d);
        if stops_at(t, place, next, d, goal, beside) {
            return Some(moves);
        }
        cell = next.cell;
    }
    None
}

// After how many moves a jump stops, under a rule that the compiler knows. Each direction has loops of its
// own, in which its steps are constants too.
#[inline(never)]
fn first_stop_by<const RULE: usize, T: Terrain>(t: &T, at: Cell, d: Dir, goal: Cell) -> Option<u16>
    requires rule { (T.grid t.now).corner ≡ ruled.rule_of_number RULE }
    requires free { is_free (T.grid t.now) at ≡ true }
    requires whole { IsGrid (T.grid t.now) }
    ensures { result ≡ first.first_stop (T.grid t.now) goal at d }
{
    let t = &Ruled::<RULE, T> { terrain: t };
    match d {
        Dir::N => straight_stop(t, at, Dir::N, goal),
        Dir::NE => diagonal_stop(t, at, Dir::NE, goal),
        Dir::E => straight_stop(t, at, Dir::E, goal),
        Dir::SE => diagonal_stop(t, at, Dir::SE, goal),
        Dir::S => straight_stop(t, at, Dir::S, goal),
        Dir::SW => diagonal_stop(t, at, Dir::SW, goal),
        Dir::W => straight_stop(t, at, Dir::W, goal),
        Dir::NW => diagonal_stop(t, at, Dir::NW, goal),
    }
}

/// After how many moves a jump from a free cell stops: at the least number, from 1, or `None` where the
/// legal run ends first.
#[inline(always)]
pub fn first_stop<T: Terrain>(t: &T, at: Cell, d: Dir, goal: Cell) -> Option<u16>
    requires free { is_free (T.grid t.now) at ≡ true }
    requires whole { IsGrid (T.grid t.now) }
    ensures { result ≡ first.first_stop (T.grid t.now) goal at d }
{
    match t.corner() {
        Corner::Never => first_stop_by::<0, T>(t, at, d, goal),
        Corner::One => first_stop_by::<1, T>(t, at, d, goal),
        Corner::Both => first_stop_by::<2, T>(t, at, d, goal),
    }
}
