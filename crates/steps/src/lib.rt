//! A counter of steps that takes no bytes.
//!
//! A promise as "at most so many steps" needs a number that the contracts of several calls share.
//! Here that number is the total of a ledger, which exists for contracts alone: `Steps` has no
//! bytes, and a `tick` compiles to nothing. A call that counts takes `steps: &mut Steps<L>` as its
//! last parameter, for any ledger `L`, and hands it on.
//!
//! A caller that reads no count still needs a counter. It gives `Blank::new(1)` to a function of
//! its own that is generic in the ledger, and that function makes the counter:
//!
//! ```text
//! fn query<L: Ledger>(.., blank: Blank) -> Reply
//!     requires name { blank.name ≡ L.name }
//!     requires parts { blank.parts ≡ L.parts }
//!     requires some { 0 < L.parts }
//! {
//!     let mut steps = Steps::<L>::new(blank);
//!     search(.., &mut steps)
//! }
//!
//! query::<Brand>(.., Blank::new(1))
//! ```
//!
//! The caller's proof says which ledger that is, in its `Invariants.antt`. The test below has both
//! halves, and its proof has these lines:
//!
//! ```text
//! abbrev pub ghosts-query : goal.ghosts-query
//! ghosts-query a = record { name = a.blank.name; parts = a.blank.parts }
//! ```
//!
//! A caller that is generic itself, as a test is through its runtime, writes `ghosts-query g a`.
//! The toolchain takes no such line for a function with a `&str` or `char` among its parameters.
#![tactic(auto)]

ghost use Rattle.std.specs.Prelude.{◌≡◌, ℕ, ◌+◌, ◌<◌};

use std::marker::Model;
use std::sync::ledger::{Blank, Book, Ledger, Share};

/// How many steps were counted, from 0. It takes no bytes, and only `tick` changes it.
///
/// Contracts see a `Steps` as that number.
#[derive(Drop)]
pub struct Steps<L: Ledger> {
    book: Book<L>,
    share: Share<L>,
}

impl<L: Ledger> Model for Steps<L> {
    ghost Value = { ℕ };

    ghost view = { λ s. s.book.total };

    ghost invariant = { λ s. 0 < s.share.parts };
}

impl<L: Ledger> Steps<L> {
    /// A counter at 0, in the ledger that the caller picked for a new blank.
    pub fn new(blank: Blank) -> Steps<L>
        requires name { blank.name ≡ L.name }
        requires parts { blank.parts ≡ L.parts }
        requires some { 0 < L.parts }
        ensures at_zero { result ≡ 0 }
    {
        let (book, share) = blank.open();
        Steps { book, share }
    }

    /// Counts one step.
    pub fn tick(&mut self)
        ensures one_more { self.new ≡ self.old + 1 }
    {
        self.book.add(&mut self.share, 1);
    }
}

#[cfg(test)]
mod tests {
    use super::*;
    use std::marker::Brand;

    // The larger of two numbers. The counter is made and used here, and nobody reads it.
    fn larger<L: Ledger>(a: u32, b: u32, blank: Blank) -> u32
        requires name { blank.name ≡ L.name }
        requires parts { blank.parts ≡ L.parts }
        requires some { 0 < L.parts }
    {
        let mut steps = Steps::<L>::new(blank);
        steps.tick();
        if a < b {
            steps.tick();
            return b;
        }
        a
    }

    #[test]
    fn a_caller_that_reads_no_count(rt: HostRuntime) {
        assert_eq!(rt; larger::<Brand>(5, 7, Blank::new(1)), 7);
    }

    #[test]
    fn a_counter_takes_no_bytes(rt: HostRuntime) {
        assert_eq!(rt; size_of::<Steps<Brand>>(), 0);
    }
}
