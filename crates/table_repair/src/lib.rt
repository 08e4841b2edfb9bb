//! Tables of jump distances that mend themselves after one cell changed.
//!
//! An entry follows from the entries at the next cell in its direction; its own move and forced neighbours
//! read no cell further than one from that next cell. So where one cell changes, changes begin at entries
//! whose next cell is one of the nine around it, and spread backwards alone: on along the same direction, and
//! from a straight entry to the diagonals of which its direction is a component. A repair refreshes these
//! entries, each after those on which it rests, and stops on each line where an entry stays. The tables are
//! those of JPS+ (Harabor and Grastien, ICAPS 2014), which has no repair; this one is the project's own.
#![tactic(auto)]

pub mod laws;
mod repair;
mod repairer;
mod span;
mod sweep;
mod walks;

pub use repairer::Repairer;
