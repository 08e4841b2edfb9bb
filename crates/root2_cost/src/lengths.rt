//! Lengths in decimals, as benchmark files tell them, judged against exact costs.

ghost use Rattle.std.specs.Prelude.{◌≡◌, ◌≤◌, ◌<◌, ◌^◌};
ghost use Rattle.std.specs.Int.RustNames.{unsigned_abs};
ghost use Rattle.root2_cost.specs.Verdict.{excess_of, verdict_of};

use crate::{Cost, Signed};

/// The number `digits` / 10^`places`.
#[derive(Clone, Copy, Debug, PartialEq, Eq)]
pub struct Decimal {
    /// All kept digits, read as one number.
    pub digits: u64,
    /// How many of them stand after the point.
    pub places: u8,
}

/// How a length that a text tells stands to an exact cost.
#[derive(Clone, Copy, Debug, PartialEq, Eq)]
pub enum Verdict {
    /// It differs by at most one unit of its last decimal.
    Agree,
    /// It has two decimals or more, and differs by at most a hundredth, but does not agree.
    Near,
    /// It differs by more.
    Off,
}

/// The verdict on a length of at most ten decimals against a cost of at most 2^24 moves of each
/// kind, by whole numbers below 2^128 alone.
pub fn judge(length: Decimal, cost: Cost) -> Verdict
    requires digits { length.digits < 10 ^ 18 }
    requires places { length.places ≤ 10 }
    requires straight { cost.a ≤ 2 ^ 24 }
    requires diagonal { cost.b ≤ 2 ^ 24 }
    ensures { result ≡ verdict_of length cost }
{
    let excess = excess(length, cost);
    if excess.is_within(1) {
        Verdict::Agree
    } else if 2 <= length.places && excess.is_within(power_of_ten(length.places - 2)) {
        Verdict::Near
    } else {
        Verdict::Off
    }
}

/// 10^`places`.
fn power_of_ten(places: u8) -> u64
    requires { places ≤ 10 }
    ensures value { result ≡ 10 ^ places }
    ensures bound { result ≤ 10 ^ 10 }
{
    10u64.pow(places as u32)
}

/// What the digits have more than 10^`places` times the cost.
fn excess(length: Decimal, cost: Cost) -> Signed
    requires digits { length.digits < 10 ^ 18 }
    requires places { length.places ≤ 10 }
    requires straight { cost.a ≤ 2 ^ 24 }
    requires diagonal { cost.b ≤ 2 ^ 24 }
    ensures value { result ≡ excess_of length cost }
    ensures a { unsigned_abs result.a < 2 ^ 61 }
    ensures b { unsigned_abs result.b < 2 ^ 61 }
{
    let scale = power_of_ten(length.places);
    let straight = scale * cost.a as u64;
    let diagonal = scale * cost.b as u64;
    Signed {
        a: length.digits as i64 - straight as i64,
        b: -(diagonal as i64),
    }
}
