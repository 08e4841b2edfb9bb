//! Laws of replies, whoever answers: each is the contract of a call that does nothing.

ghost use Rattle.outcome_laws.specs.Layers.{LayersStay};
ghost use Rattle.outcome_laws.specs.Replies.{AlikeReplyTheSame, RepliesAreRight, RepliesCostTheSame};

/// The reply to a query, a function of who answers and of the ends, is right, whoever answers: a session's
/// engine, goal boxes or first moves.
pub fn replies_are_right()
    ensures { RepliesAreRight }
{}

/// Two who answer alike on the same layers have the same reply: points, cost and taken states. So do engines
/// that jump (`jps`, `block` and `plus`) with the same states.
pub fn alike_reply_the_same()
    ensures { AlikeReplyTheSame }
{}

/// Any two who answer on the same layers both say outside, both blocked, both none, or both have a walk
/// of the same cost.
pub fn replies_cost_the_same()
    ensures { RepliesCostTheSame }
{}

/// The two grids of a map that a text spells are layers of one map, under each corner rule, and so are
/// those that edits leave of layers.
pub fn layers_stay()
    ensures { LayersStay }
{}
