//! The order of the nodes.

ghost use Rattle.std.specs.Prelude.{◌≡◌, Bool};
ghost use Rattle.open_list.specs.Order.{IsStrictWeakOrder};

/// What an open list holds: nodes with an order in which one is taken before another.
///
/// The order is a strict weak one: neither of two nodes may be before the other.
pub trait Ranked {
    ghost before: { Self → Self → Bool };

    /// Whether this node is to be taken before the other.
    fn before(&self, other: &Self) -> bool
        ensures { result ≡ before self.now other.now };

    ghost order: { IsStrictWeakOrder before };
}
