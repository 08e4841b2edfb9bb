//! Tests of the crates that search and jump, each on small maps by hand: a file for each crate.
//!
//! They stand apart from those crates, as a crate is proved once more with the tests that stand in it.
#![tactic(auto)]

#[cfg(test)]
#[cfg(test)]
mod cost_waves_tests;
#[cfg(test)]
mod first_moves_tests;
#[cfg(test)]
mod goal_boxes_tests;
#[cfg(test)]
mod jump_block_tests;
#[cfg(test)]
mod jump_calls;
#[cfg(test)]
mod jump_plain_tests;
#[cfg(test)]
mod open_list_tests;
#[cfg(test)]
mod paper;
#[cfg(test)]
mod path_points_tests;
#[cfg(test)]
mod plain_search_tests;
#[cfg(test)]
mod pruning_tests;
#[cfg(test)]
mod search_core_tests;
