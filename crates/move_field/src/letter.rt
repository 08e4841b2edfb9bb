//! The letter of one cell.

ghost use Rattle.std.specs.Prelude.{◌≡◌, ◌*◌, Option, true, length, None};
ghost use Rattle.std.specs.List.{find};
ghost use Rattle.root2_cost.specs.declared.Cost.{Cost};
ghost use Rattle.grid_moves.specs.Around.{IsAround, end_of, if_open, is_open_to};
ghost use Rattle.grid_moves.specs.Grid.{IsGrid, is_free, is_inside};
ghost use Rattle.grid_moves.specs.Move as moves;
ghost use Rattle.grid_moves.specs.Move.{all_dirs};
ghost use Rattle.plain_search.specs.Costs.{falls_by as cost_falls_by};
ghost use Rattle.move_field.specs.Field.{field_letter};
ghost use Rattle.move_field.specs.Priced.{ArePriced, first_by, leads_by};

use grid_moves::{Around, Cell, Dir, Terrain, dir_number, move_cost, moves_around, number_of};
use root2_cost::Cost;

// Where the move in a direction leads, if it is legal.
#[inline(always)]
fn end_in(a: Around, c: Cell, d: Dir) -> Option<Cell>
    ensures { result ≡ if_open (is_open_to a d) (end_of a c d) }
{
    let (is_open, x, y) = match d {
        Dir::N => (a.n, c.x, a.up),
        Dir::NE => (a.ne, a.right, a.up),
        Dir::E => (a.e, a.right, c.y),
        Dir::SE => (a.se, a.right, a.down),
        Dir::S => (a.s, c.x, a.down),
        Dir::SW => (a.sw, a.left, a.down),
        Dir::W => (a.w, a.left, c.y),
        Dir::NW => (a.nw, a.left, a.up),
    };
    if is_open { Some(Cell { x, y }) } else { None }
}

// Whether the cost falls by what a move costs.
#[inline(always)]
fn falls_by(price: Cost, here: Cost, there: Option<Cost>) -> bool
    ensures { result ≡ cost_falls_by price (Some here) there }
{
    match there {
        Some(there) => {
            u64::from(there.a) + u64::from(price.a) == u64::from(here.a)
                && u64::from(there.b) + u64::from(price.b) == u64::from(here.b)
        }
        None => false,
    }
}

// Whether the move in a direction is legal and saves what it costs.
#[inline(always)]
#[tactic(auto, unfolding(crate::specs::Priced::leads_by))]
fn leads<T: Terrain>(t: &T, costs: &[Option<Cost>], a: Around, c: Cell, here: Cost, d: Dir) -> bool
    requires around { IsAround (T.grid t.now) c a }
    requires whole { length costs.now ≡ (T.grid t.now).height * (T.grid t.now).width }
    ensures { result ≡ leads_by (T.grid t.now) costs.now c (Some here) d }
{
    match end_in(a, c, d) {
        Some(v) => falls_by(
            move_cost(c, v),
            here,
            costs[number_of(t.width(), v) as usize],
        ),
        None => false,
    }
}

// The first direction that leads on from a free cell, in the order of their numbers.
#[inline(always)]
fn first_leading<T: Terrain>(t: &T, costs: &[Option<Cost>], c: Cell, here: Cost) -> Option<Dir>
    requires grid { IsGrid (T.grid t.now) }
    requires free { is_free (T.grid t.now) c ≡ true }
    requires whole { length costs.now ≡ (T.grid t.now).height * (T.grid t.now).width }
    ensures { result ≡ find (leads_by (T.grid t.now) costs.now c (Some here)) all_dirs }
{
    let a = moves_around(t, c);
    if leads(t, costs, a, c, here, Dir::N) {
        return Some(Dir::N);
    }
    if leads(t, costs, a, c, here, Dir::NE) {
        return Some(Dir::NE);
    }
    if leads(t, costs, a, c, here, Dir::E) {
        return Some(Dir::E);
    }
    if leads(t, costs, a, c, here, Dir::SE) {
        return Some(Dir::SE);
    }
    if leads(t, costs, a, c, here, Dir::S) {
        return Some(Dir::S);
    }
    if leads(t, costs, a, c, here, Dir::SW) {
        return Some(Dir::SW);
    }
    if leads(t, costs, a, c, here, Dir::W) {
        return Some(Dir::W);
    }
    if leads(t, costs, a, c, here, Dir::NW) {
        return Some(Dir::NW);
    }
    None
}

// The first move from a free cell, by the costs of a pass from the goal.
#[inline(always)]
fn first_move<T: Terrain>(t: &T, costs: &[Option<Cost>], c: Cell) -> Option<Dir>
    requires grid { IsGrid (T.grid t.now) }
    requires free { is_free (T.grid t.now) c ≡ true }
    requires whole { length costs.now ≡ (T.grid t.now).height * (T.grid t.now).width }
    ensures { result ≡ first_by (T.grid t.now) costs.now c }
{
    match costs[number_of(t.width(), c) as usize] {
        Some(here) => first_leading(t, costs, c, here),
        None => None,
    }
}

// Whether the cells are one.
#[inline(always)]
fn is_same(c: Cell, goal: Cell) -> bool
    ensures { result ≡ moves.is_same c goal }
{
    c.x == goal.x && c.y == goal.y
}

/// The letter of a cell in the field of a goal, given the costs of a pass from the goal.
#[inline(always)]
pub(crate) fn letter<T: Terrain>(t: &T, costs: &[Option<Cost>], goal: Cell, c: Cell) -> u8
    requires grid { IsGrid (T.grid t.now) }
    requires priced { ArePriced (T.grid t.now) goal costs.now }
    requires inside { is_inside (T.grid t.now) c ≡ true }
    ensures { result ≡ field_letter (T.grid t.now) goal c }
{
    if is_same(c, goal) {
        return b'*';
    }
    if !t.free(c) {
        return b'-';
    }
    match first_move(t, costs, c) {
        Some(d) => b'0' + dir_number(d),
        None => b'-',
    }
}
