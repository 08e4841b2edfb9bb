//! The length of eight decimals that stands for a cost, and the bucket that a cost belongs to, as scenarios
//! tell them.
//!
//! Both are found by squares, within 128 bits: with k = 10^8·b, twice k√2 is the root of 8k², so the whole
//! number nearest to k√2 is the half of that root rounded down and 1, rounded down. It is never as near as
//! another, as k√2 is no half of a whole number.

ghost use Rattle.root2_cost.specs.Length.{IsNearest, IsBucket};

use crate::{Cost, Decimal};

/// What one straight move counts in units of the eighth decimal.
const UNITS: u64 = 100_000_000;

/// The length of eight decimals that is nearest to the cost. There is exactly one (`laws::nearest_is_one`),
/// and it agrees with the cost (`laws::nearest_agrees`).
pub fn nearest_length(cost: Cost) -> Decimal
    ensures { IsNearest cost result }
{
    let diagonal = UNITS as u128 * cost.b as u128;
    let twice = (8 * (diagonal * diagonal)).isqrt() as u64;
    Decimal {
        digits: UNITS * cost.a as u64 + (twice + 1) / 2,
        places: 8,
    }
}

/// The bucket of a cost: the quotient of its value, rounded down, by 4. It is found from the cost, as a
/// length may be rounded up to a four. There is exactly one (`laws::bucket_is_one`).
pub fn bucket(cost: Cost) -> u32
    ensures { IsBucket cost result }
{
    let diagonal = cost.b as u128;
    let whole = (2 * (diagonal * diagonal)).isqrt() as u64;
    ((cost.a as u64 + whole) / 4) as u32
}
