//! Exact costs a + b√2.
//!
//! A straight move costs 1 and a diagonal move √2. As √2 is irrational, a cost is known exactly by
//! its number of straight moves a and its number of diagonal moves b, and two costs are equal only
//! where both numbers are. All is decided on whole numbers by squares.
#![tactic(auto)]

ghost use Rattle.std.specs.Prelude.{◌≡◌, ◌+◌, ◌<◌, ◌^◌, ◌↔◌};
ghost use Rattle.std.specs.Ordering.{MatchOrdering};
ghost use Rattle.std.specs.Int.RustNames.{unsigned_abs};
ghost use Rattle.root2_cost.specs.Order.{is_positive, is_less, IsLess};
ghost use Rattle.root2_cost.specs.Signed.{cost_difference, signed_difference, signed_of, opposite, lowered};
ghost use Rattle.root2_cost.specs.Signed.{is_within, IsAboveZero, IsBelowZero, IsZero};
ghost use Rattle.root2_cost.specs.Sums.{add_costs, octile_cost};

use std::cmp::Ordering;

pub mod laws;
mod lengths;
mod nearest;
mod ranks;

pub use lengths::{Decimal, Verdict, judge};
pub use nearest::{bucket, nearest_length};
pub use ranks::{DIAGONAL_RANK, STRAIGHT_RANK};

/// A cost: `a` straight moves and `b` diagonal moves, with the value a + b√2.
#[derive(Clone, Copy, Debug, PartialEq, Eq)]
pub struct Cost {
    /// Straight moves.
    pub a: u32,
    /// Diagonal moves.
    pub b: u32,
}

impl Cost {
    /// Whether this cost has the lesser value.
    ///
    /// With x and y for the amounts by which the parts differ, x² < 2y² is tested as ⌊x² / 2⌋ < y²
    /// and 2y² < x² as y² < ⌈x² / 2⌉, so that all fits 64 bits.
    pub fn is_below(self, other: Cost) -> bool
        ensures { result ≡ is_less self other }
    {
        if self.a <= other.a {
            let x = (other.a - self.a) as u64;
            if self.b <= other.b {
                return self.a < other.a || self.b < other.b;
            }
            let y = (self.b - other.b) as u64;
            y * y < (x * x + 1) / 2
        } else {
            let x = (self.a - other.a) as u64;
            if other.b <= self.b {
                return false;
            }
            let y = (other.b - self.b) as u64;
            x * x / 2 < y * y
        }
    }

    /// The cost of both together.
    pub fn add(self, other: Cost) -> Cost
        requires straight { self.a + other.a < 2 ^ 32 }
        requires diagonal { self.b + other.b < 2 ^ 32 }
        ensures { result ≡ add_costs self other }
    {
        Cost {
            a: self.a + other.a,
            b: self.b + other.b,
        }
    }

    /// The cost as a difference.
    pub fn signed(self) -> Signed
        ensures { result ≡ signed_of self }
    {
        Signed {
            a: self.a as i64,
            b: self.b as i64,
        }
    }

    /// What this cost has more than the other, part by part.
    pub fn minus(self, other: Cost) -> Signed
        ensures { result ≡ cost_difference self other }
    {
        Signed {
            a: self.a as i64 - other.a as i64,
            b: self.b as i64 - other.b as i64,
        }
    }
}

/// The order of the values of two costs: `Equal` exactly where the pairs are equal.
#[tactic(auto, using(crate::proofs::Less::less_otherwise))]
pub fn cmp(x: Cost, y: Cost) -> Ordering
    ensures order { MatchOrdering result (IsLess x y) (x ≡ y) (IsLess y x) }
    ensures equal { (result ≡ Ordering.Equal) ↔ (x ≡ y) }
{
    if x == y {
        return Ordering::Equal;
    }
    if x.is_below(y) {
        Ordering::Less
    } else {
        Ordering::Greater
    }
}

/// The octile distance: what `dx` columns and `dy` rows cost where nothing is in the way.
pub fn octile(dx: u32, dy: u32) -> Cost
    ensures { result ≡ octile_cost dx dy }
{
    if dx < dy {
        Cost { a: dy - dx, b: dx }
    } else {
        Cost { a: dx - dy, b: dy }
    }
}

/// A difference of two costs: the value a + b√2 with parts of either sign.
#[derive(Clone, Copy, Debug, PartialEq, Eq)]
pub struct Signed {
    /// Straight moves, less than 0 where the second cost has more.
    pub a: i64,
    /// Diagonal moves, likewise.
    pub b: i64,
}

impl Signed {
    /// Compares the value, whose parts are below 2^40 in amount, with 0: `Equal` exactly where both
    /// parts are 0.
    #[tactic(auto, using(crate::proofs::Signs::opposite_positive))]
    pub fn sign(self) -> Ordering
        requires a { unsigned_abs self.a < 2 ^ 40 }
        requires b { unsigned_abs self.b < 2 ^ 40 }
        ensures order { MatchOrdering result (IsBelowZero self) (IsZero self) (IsAboveZero self) }
        ensures equal { (result ≡ Ordering.Equal) ↔ IsZero self }
    {
        if self == (Signed { a: 0, b: 0 }) {
            return Ordering::Equal;
        }
        if self.is_positive() {
            Ordering::Greater
        } else {
            Ordering::Less
        }
    }

    /// What this value has more than the other, part by part; all parts are below 2^61 in amount.
    pub fn minus(self, other: Signed) -> Signed
        requires a { unsigned_abs self.a < 2 ^ 61 }
        requires b { unsigned_abs self.b < 2 ^ 61 }
        requires other_a { unsigned_abs other.a < 2 ^ 61 }
        requires other_b { unsigned_abs other.b < 2 ^ 61 }
        ensures difference { result ≡ signed_difference self other }
        ensures a { unsigned_abs result.a < 2 ^ 62 }
        ensures b { unsigned_abs result.b < 2 ^ 62 }
    {
        Signed {
            a: self.a - other.a,
            b: self.b - other.b,
        }
    }

    /// Whether the value is above 0, by the squares of both parts where their signs differ.
    pub(crate) fn is_positive(self) -> bool
        requires a { unsigned_abs self.a < 2 ^ 62 }
        requires b { unsigned_abs self.b < 2 ^ 62 }
        ensures { result ≡ is_positive self.a self.b }
    {
        let x = self.a.unsigned_abs() as u128;
        let y = self.b.unsigned_abs() as u128;
        if self.a < 0 {
            0 < self.b && x * x < 2 * (y * y)
        } else if self.b < 0 {
            2 * (y * y) < x * x
        } else {
            0 < x + y
        }
    }

    /// Whether the value differs from 0 by at most `most`.
    pub(crate) fn is_within(self, most: u64) -> bool
        requires a { unsigned_abs self.a < 2 ^ 61 }
        requires b { unsigned_abs self.b < 2 ^ 61 }
        requires most { most < 2 ^ 61 }
        ensures { result ≡ is_within most self }
    {
        !self.lowered(most).is_positive() && !self.opposite().lowered(most).is_positive()
    }

    /// The value less `amount`.
    fn lowered(self, amount: u64) -> Signed
        requires a { unsigned_abs self.a < 2 ^ 61 }
        requires amount { amount < 2 ^ 61 }
        ensures value { result ≡ lowered self amount }
        ensures bound { unsigned_abs result.a < 2 ^ 62 }
    {
        Signed {
            a: self.a - amount as i64,
            b: self.b,
        }
    }

    /// The value with the other sign.
    fn opposite(self) -> Signed
        requires a { unsigned_abs self.a < 2 ^ 61 }
        requires b { unsigned_abs self.b < 2 ^ 61 }
        ensures value { result ≡ opposite self }
        ensures a { unsigned_abs result.a < 2 ^ 61 }
        ensures b { unsigned_abs result.b < 2 ^ 61 }
    {
        Signed {
            a: -self.a,
            b: -self.b,
        }
    }
}
