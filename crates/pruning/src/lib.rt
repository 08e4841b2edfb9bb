//! Pruning: in which directions a search goes on, where a jump stops, and the laws that no least
//! walk is lost so.
//!
//! The rule is that of Harabor and Grastien's Jump Point Search (AAAI 2011), and, on a grid where no
//! corner is cut, its form of SoCS 2012. `allowed`, `allowed_word` and `forced` are the rule on a grid;
//! `allowed_on` and `forced_on` are the same, by the cells around a cell. `AllowedTable` has the
//! answers of `allowed_on` by eight bits. `JumpSource` is what a search asks of whatever finds the stops;
//! `laws` has what makes such a search right.
#![tactic(auto)]

mod eight;
pub mod laws;
mod packed;
mod rule;
mod source;
mod turns;

pub use eight::{AllowedTable, ring_of};
use grid_moves::Dir;
pub use packed::{Packed, Split};
pub use rule::{allowed, allowed_on, allowed_word, come_to, forced, forced_on, is_dir};
pub use source::JumpSource;
pub use turns::{Side, is_diagonal, quarter, rear, turn};

/// How a search came to a cell.
#[derive(Clone, Copy, Debug, PartialEq, Eq)]
pub enum Arrival {
    /// It starts there.
    Start,
    /// By a move in this direction.
    By(Dir),
}
