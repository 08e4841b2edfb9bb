//! Heights of cells, by a list of cells that is read once, in the order of the cells.

ghost use Rattle.std.specs.Prelude.{◌≡◌, IsTrue, []};
ghost use Rattle.potential_check.specs.Certificate.{is_small};
ghost use Rattle.potential_check.specs.Heights as spec;

use grid_moves::{Cell, estimate};
use root2_cost::Cost;

/// The height of an unlisted cell where no walk is claimed: no move from a listed cell, whose height
/// is 0, may rise so far.
const OUT_OF_REACH: i64 = 1 << 62;

/// The heights of all cells from one on: a list's entries for these cells, in their order, and what
/// holds of unlisted cells.
#[derive(Clone, Copy)]
pub(crate) enum Heights<'a> {
    /// Heights are the ranks of the values of a certificate of least cost.
    Values {
        cost: Cost,
        goal: Cell,
        rest: &'a [(Cell, Cost)],
    },
    /// Listed cells have the height 0, and any other is out of reach.
    Members {
        rest: &'a [Cell],
    },
}

// The height that a value is.
#[inline(always)]
fn value_height(value: Cost) -> i64
    requires { IsTrue (is_small value) }
    ensures { result ≡ spec.value_height value }
{
    value.signed().rank()
}

// The height of a cell with no value.
#[inline(always)]
fn unlisted_height(cost: Cost, goal: Cell, c: Cell) -> i64
    requires { IsTrue (is_small cost) }
    ensures { result ≡ spec.value_floor cost goal c }
{
    cost.minus(estimate(c, goal)).rank()
}

// The height of the cell by a list of values, and the list without its entry, where the first is the cell's.
#[inline(always)]
fn take_value(cost: Cost, goal: Cell, rest: &[(Cell, Cost)], c: Cell) -> (i64, &[(Cell, Cost)])
    requires cost { IsTrue (is_small cost) }
    requires low { IsTrue (spec.values_are_low rest.now) }
    ensures height { result.0
        ≡ spec.first_height (spec.value_floor cost goal) (spec.value_entries rest.now) c }
    ensures rest { spec.value_entries result.1.now ≡ spec.rest_after (spec.value_entries rest.now) c }
    ensures low { IsTrue (spec.values_are_low result.1.now) }
{
    match rest.split_first() {
        Some(((cell, value), more)) if *cell == c => (value_height(*value), more),
        _ => (unlisted_height(cost, goal, c), rest),
    }
}

// The same by a list of cells.
#[inline(always)]
fn take_member(rest: &[Cell], c: Cell) -> (i64, &[Cell])
    ensures height { result.0 ≡ spec.first_height spec.member_floor (spec.member_entries rest.now) c }
    ensures rest { spec.member_entries result.1.now ≡ spec.rest_after (spec.member_entries rest.now) c }
{
    match rest.split_first() {
        Some((cell, more)) if *cell == c => (0, more),
        _ => (OUT_OF_REACH, rest),
    }
}

impl<'a> Heights<'a> {
    /// The height of the cell, and the list without its entry, where the first entry is the cell's.
    #[inline(always)]
    pub(crate) fn take(self, c: Cell) -> (i64, Heights<'a>)
        requires { IsTrue (spec.are_low self) }
        ensures height { result.0 ≡ spec.first_height (spec.floor self.entry) (spec.entries self.entry) c }
        ensures rest { spec.entries result.1 ≡ spec.rest_after (spec.entries self.entry) c }
        ensures floor { spec.floor result.1 ≡ spec.floor self.entry }
        ensures low { IsTrue (spec.are_low result.1) }
    {
        match self {
            Heights::Values { cost, goal, rest } => {
                let (height, rest) = take_value(cost, goal, rest, c);
                (height, Heights::Values { cost, goal, rest })
            }
            Heights::Members { rest } => {
                let (height, rest) = take_member(rest, c);
                (height, Heights::Members { rest })
            }
        }
    }

    /// The heights with no entry left.
    pub(crate) fn ended(self) -> Heights<'a>
        requires { IsTrue (spec.are_low self) }
        ensures none { spec.entries result ≡ [] }
        ensures floor { spec.floor result ≡ spec.floor self.entry }
        ensures low { IsTrue (spec.are_low result) }
    {
        match self {
            Heights::Values { cost, goal, .. } => Heights::Values {
                cost,
                goal,
                rest: &[],
            },
            Heights::Members { .. } => Heights::Members { rest: &[] },
        }
    }
}
