//! An open list: a priority queue of numbered nodes, in which the key of an open node can be
//! lowered.
//!
//! Each node has the number of the `add` that made it, and keeps it after it is closed. The open
//! nodes make a pairing heap: a tree in which no node is before its parent. Its links are node
//! numbers that stand beside the node itself: to the first child, to the next sibling, and back to
//! the sibling before, or from a first child to its parent.
//!
//! 1. Two trees are joined by one comparison: the root that is not taken first becomes the first
//!    child of the other.
//! 2. A new node is a tree that is joined with the heap.
//! 3. A node that is lowered is cut out of its siblings with all below it, and joined again.
//! 4. When the root is taken, its children are joined in pairs, from the first to the last, and
//!    the pairs then into one, from the last to the first.
//!
//! Fredman, Sedgewick, Sleator and Tarjan, "The pairing heap: a new form of self-adjusting heap",
//! Algorithmica 1986. Their pass from the last pair to the first goes over a list that the first
//! pass turns round in the links themselves, so that no call takes memory or recurs.
#![tactic(auto)]

mod entry;
mod heap;
mod links;
mod order;
mod pool;

pub use order::Ranked;
pub use pool::Pool;
pub use std::alloc::AllocError as NoMemory;
pub use steps::Steps;
