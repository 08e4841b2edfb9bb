//! The files of a call: which kinds of texts it reads, how each is refused, and what is made of a map.
//!
//! A text is read as a [`Text`] of its [`TextKind`], behind the texts before it. What is made of a map, as
//! the settings ask, is an [`OfMap`], which tells the maps that it takes by their [`Extent`].
#![tactic(auto)]

mod faults;
mod files;
mod kind;
mod layers;
mod tables;

pub use faults::{long_line, script_line, word_line};
pub use files::{OfMap, Scenario, Text, open_one, open_two, read_file, read_map_file};
pub use kind::{Extent, LONGEST, TextKind};
pub use layers::SmallLayers;
pub use std::alloc::AllocError as NoMemory;
pub use tables::{MapTables, read_tables};
