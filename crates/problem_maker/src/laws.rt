//! Laws of problems: each is the contract of a call that does nothing.

ghost use Rattle.problem_maker.specs.Laws.{LeadsIs, OrderIs};
ghost use Rattle.problem_maker.specs.Ordered.{in_order};
ghost use Rattle.problem_maker.specs.Tries.{leads};

/// `leads` tells exactly whether a query from one cell of a map to another has a walk.
pub fn leads_is_found()
    ensures { LeadsIs leads }
{}

/// The order of problems is a function of them: it has the same problems, none costs less than the one before
/// it, those of equal costs stand as they stood, and no other list is so.
pub fn order_is_found()
    ensures { OrderIs in_order }
{}
