//! The nearest of the cells that a walk leads to from a start.
//!
//! Rings of cells around the goal are looked at, outwards: that of the cells which stand so many columns off
//! it, or so many rows, and no more. In a ring those nearest to its middles come first, so all goes by
//! estimate but between rings; and a ring's cells cost at least as many straight moves as it is wide. So the
//! search ends at the ring that is wider than the best estimate so far,
//! which at first is that of the start itself.
#![tactic(auto)]

pub mod laws;
mod rings;
#[cfg(test)]
mod tests;

pub use rings::nearest;
