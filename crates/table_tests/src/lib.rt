//! Tests of the crates that keep JPS+ tables, mend them, and write and read them, and of the sessions over
//! them.
//!
//! They stand apart from those crates, as a crate is proved once more with the tests that stand in it.
#![tactic(auto)]

#[cfg(test)]
mod edit_replay_tests;
#[cfg(test)]
mod line_server_tests;
#[cfg(test)]
mod plus_tables_tests;
#[cfg(test)]
mod table_file_tests;
#[cfg(test)]
mod table_repair_tests;
