//! The program's words and the call that they spell.
//!
//! A command's name is followed by the words that it takes, and then by settings, no two of which may
//! clash, in any order. Each command has a row in `rows.rt`, which tells its words, the settings that it
//! allows, and what help says of it:
//!
//! ```text
//! query MAP SX SY GX GY [engine=ENGINE] [states=arrival|states=cell] [tables=FILE]
//!     [show=points|show=cells|show=trace] [rule=RULE]
//! ```
//!
//! ENGINE is `plain`, `jps`, `block` or `plus`, RULE `none`, `one` or `both`. Names of files are any words;
//! numbers are 1 to 9 decimal digits, N is 1 to 100000, and a seed has 1 to 20 digits. FILE is all behind the
//! first `=`, at least one byte. Two settings clash that choose the same. A table file stands beside
//! `engine=plus` alone, `states=` beside `jps`, `block` and `plus` alone: they clash with every other engine,
//! and where no engine is named a word is missing (not for `states=` of `serve`, whose `block` jumps).
//! `query` and `scen` allow `engine=boxes` and `engine=moves` besides, of engines for small maps; first moves
//! clash with `show=trace` and `show=taken`. A list that is no call is refused at its first word with which
//! no call can begin, or one word behind its end where only words are missing.
//!
//! A setting has a row in `settings.rt`.
#![tactic(auto)]

mod reading;
mod request;
mod rows;
mod settings;

pub use reading::{first_bad, read_words};
pub use request::{BadWord, Pick, SessionEngine, Settings, Show, SmallEngine, States};
pub use rows::{Command, Request, command_name};
