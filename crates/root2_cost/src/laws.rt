//! Laws of costs: each is the contract of a call that does nothing.
//!
//! Together they say that the order is that of the values a + b√2: it is the only total order of
//! pairs that sums keep and that compares straight with diagonal moves by their squares.

ghost use Rattle.root2_cost.specs.Laws.{OrderIsTotal, OrderIsTransitive, ValuesTellPairs, SumsKeepOrder};
ghost use Rattle.root2_cost.specs.Laws.{SquaresDecide, DistancesAdd, RanksTellOrder, RanksTellCosts};
ghost use Rattle.root2_cost.specs.Laws.{SignedCostsKeepOrder, SignedOrderIsTransitive, DifferencesTelescope};
ghost use Rattle.root2_cost.specs.Laws.{BoundsAddUp, SignedRanksTellOrder};
ghost use Rattle.root2_cost.specs.Laws.{NearestIsOne, NearestAgrees, NearestIsShort, BucketIsOne};

/// Of two costs one is the lesser, or they are the same pair.
pub fn order_is_total()
    ensures { OrderIsTotal }
{}

/// A cost less than a lesser one is less.
pub fn order_is_transitive()
    ensures { OrderIsTransitive }
{}

/// Equal values are equal pairs: √2 is irrational.
pub fn values_tell_pairs()
    ensures { ValuesTellPairs }
{}

/// The order stays when the same cost is added to both sides, or taken away from both.
pub fn sums_keep_order()
    ensures { SumsKeepOrder }
{}

/// m straight moves cost less than n diagonal ones exactly where m² < 2n².
pub fn squares_decide()
    ensures { SquaresDecide }
{}

/// The octile distance obeys the triangle inequality.
pub fn distances_add()
    ensures { DistancesAdd }
{}

/// Of two costs of fewer than 2^31 moves of each kind the lesser is the one of the lesser rank.
pub fn ranks_tell_order()
    ensures { RanksTellOrder }
{}

/// A cost of fewer than 2^31 moves of each kind is the cost of its rank, so no two have one rank.
pub fn ranks_tell_costs()
    ensures { RanksTellCosts }
{}

/// Differences of costs with nothing are ordered as the costs are.
pub fn signed_costs_keep_order()
    ensures { SignedCostsKeepOrder }
{}

/// The order of differences is transitive.
pub fn signed_order_is_transitive()
    ensures { SignedOrderIsTransitive }
{}

/// The differences of consecutive values sum up to that of the last and the first.
pub fn differences_telescope()
    ensures { DifferencesTelescope }
{}

/// Where each of two steps rises by at most its cost, both rise by at most the sum of the costs.
pub fn bounds_add_up()
    ensures { BoundsAddUp }
{}

/// Of two differences with parts below 2^30 in amount the lesser is the one of the lesser rank.
pub fn signed_ranks_tell_order()
    ensures { SignedRanksTellOrder }
{}

/// Two lengths of eight decimals that are nearest to a cost are the same.
pub fn nearest_is_one()
    ensures { NearestIsOne }
{}

/// The length that is nearest to a cost agrees with it.
pub fn nearest_agrees()
    ensures { NearestAgrees }
{}

/// The nearest length of at most 2^24 moves of each kind has at most eight digits before the point.
pub fn nearest_is_short()
    ensures { NearestIsShort }
{}

/// Two buckets of a cost are the same.
pub fn bucket_is_one()
    ensures { BucketIsOne }
{}
