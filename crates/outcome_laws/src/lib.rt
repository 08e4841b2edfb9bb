//! Laws of whole calls: a call comes to at most one outcome, and to one where the files that it names are
//! there and the input is known; which of the engines that jump it picks changes nothing; each command is
//! called by its own name. Below them the laws of replies, of words and files, and of lines.
//!
//! Its specs have the statements, and each law is the contract of a call that does nothing, but for
//! `run_query`, which is `run` with a promise that is read in a few minutes. The program doesn't use it.
#![tactic(auto)]

pub mod of_answers;
pub mod of_lines;
pub mod of_outcomes;
pub mod of_queries;
pub mod of_replies;

pub use of_outcomes::{
    calls_go_by_name, commands_are_called, engines_print_the_same_costs,
    jump_engines_print_the_same, outcomes_are_one, outcomes_exist, small_engines_serve_two,
    with_tables_the_same, written_begins_the_output,
};
