//! One whole number for a cost, by which costs of fewer than 2^31 moves of each kind are ordered.
//!
//! With q = 3166815962 and p = 4478554083 the fraction p / q is a convergent of √2, and p² = 2q² + 1.
//! The rank of a + b√2 is aq + bp. Let two costs differ by x straight and y diagonal moves, with
//! |y| < q. Where the signs of x and y agree, xq + yp has the sign of x + y√2. For x > 0 and
//! y = −v < 0, the first is positive exactly where x²q² > v²p² = 2v²q² + v², and as 0 < v² < q² that
//! is exactly where x² > 2v², thus where the second is. The other signs are alike.
//!
//! Continued fractions of √2 and Pell's equation: Hardy and Wright, An Introduction to the Theory of
//! Numbers, chapters X and XIV.

ghost use Rattle.std.specs.Prelude.{◌≡◌, ◌<◌, ◌^◌};
ghost use Rattle.std.specs.Int.RustNames.{unsigned_abs};
ghost use Rattle.root2_cost.specs.Rank.{cost_of_rank, rank_of, signed_rank};

use crate::{Cost, Signed};

/// What one straight move counts in a rank.
pub const STRAIGHT_RANK: u64 = 3_166_815_962;

/// What one diagonal move counts.
pub const DIAGONAL_RANK: u64 = 4_478_554_083;

impl Cost {
    /// The rank of a cost of fewer than 2^31 moves of each kind: of two such costs the lesser has
    /// the lesser rank, and equal ranks are equal costs (`laws::ranks_tell_order`).
    pub fn rank(self) -> u64
        requires straight { self.a < 2 ^ 31 }
        requires diagonal { self.b < 2 ^ 31 }
        ensures { result ≡ rank_of self }
    {
        self.a as u64 * STRAIGHT_RANK + self.b as u64 * DIAGONAL_RANK
    }

    /// The cost of fewer than 2^31 moves of each kind that has this rank, if one has it
    /// (`laws::ranks_tell_costs`). As p² is 1 more than a multiple of q, p times the rank leaves the diagonal
    /// moves modulo q.
    #[tactic(auto, unfolding(crate::specs::Rank::cost_of_rank))]
    pub fn of_rank(rank: u64) -> Cost
        requires fits { (cost_of_rank rank).a < 2 ^ 32 }
        ensures { result ≡ cost_of_rank rank }
    {
        let step = DIAGONAL_RANK - STRAIGHT_RANK;
        let diagonal = rank % STRAIGHT_RANK * step % STRAIGHT_RANK;
        let straight = rank.saturating_sub(diagonal * DIAGONAL_RANK) / STRAIGHT_RANK;
        Cost {
            a: straight as u32,
            b: diagonal as u32,
        }
    }
}

impl Signed {
    /// The rank of a difference with parts below 2^30 in amount: of two such differences the lesser
    /// has the lesser rank (`laws::signed_ranks_tell_order`).
    pub fn rank(self) -> i64
        requires a { unsigned_abs self.a < 2 ^ 30 }
        requires b { unsigned_abs self.b < 2 ^ 30 }
        ensures { result ≡ signed_rank self }
    {
        self.a * STRAIGHT_RANK as i64 + self.b * DIAGONAL_RANK as i64
    }
}
