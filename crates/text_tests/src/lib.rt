//! Tests of the crates that read and write texts, and of costs: a file for each crate, and one of
//! certificates of which each byte is changed.
//!
//! They stand apart from those crates, as a crate is proved once more with the tests that stand in it.
#![tactic(auto)]

#[cfg(test)]
mod changed_bytes_tests;
#[cfg(test)]
mod fault_tests;
#[cfg(test)]
mod io_edge_tests;
#[cfg(test)]
mod map_maker_tests;
#[cfg(test)]
mod map_text_tests;
#[cfg(test)]
mod picture_tests;
#[cfg(test)]
mod potential_check_tests;
#[cfg(test)]
mod potential_make_tests;
#[cfg(test)]
mod root2_cost_tests;
#[cfg(test)]
mod scen_lines_tests;
#[cfg(test)]
mod scen_text_tests;
#[cfg(test)]
mod script_text_tests;
#[cfg(test)]
mod text_line_tests;
#[cfg(test)]
mod walk_judge_tests;
#[cfg(test)]
mod word_list_tests;
