//! Tests of `run` by whole calls, over files and streams in memory.
//!
//! They stand apart from `jps_run`, as a crate is proved once more with the tests that stand in it.
#![tactic(auto)]

#[cfg(test)]
mod ample;
#[cfg(test)]
mod calls;
#[cfg(test)]
mod cells;
#[cfg(test)]
mod commands;
#[cfg(test)]
mod corners;
#[cfg(test)]
mod counted;
#[cfg(test)]
mod judged;
#[cfg(test)]
mod large;
#[cfg(test)]
mod live;
#[cfg(test)]
mod queries;
#[cfg(test)]
mod readme;
#[cfg(test)]
mod refused;
#[cfg(test)]
mod scenarios;
#[cfg(test)]
mod serve;
#[cfg(test)]
mod sessions;
#[cfg(test)]
mod small;
#[cfg(test)]
mod table;
