//! Cells, directions, grids and legal moves.
//!
//! Eight directions, and a corner rule for the diagonal ones: they need both cells beside them
//! free, as in Harabor and Grastien's work from SoCS 2012 on, or at least one of the two, as in their paper
//! of AAAI 2011, or none of them, as in Godot's grid unless set otherwise. A map has two grids, its land and
//! its water. The definitions that every answer of `jps` rests on stand in this crate's specs: map and grids,
//! legal move, walk and its cost, least walk, unfolding of points, right reply. They know lists of cells,
//! moves and sums only.
#![tactic(auto)]

mod around;
mod ends;
mod grid;
pub mod laws;
mod layers;
mod moves;
mod ring;
mod ruled;
mod terrain;
mod word_bits;

pub use around::{Around, moves_around};
pub use ends::{Ends, Unsearched};
pub use grid::{Grid, ground_of};
pub use layers::Layers;
pub use moves::{
    before, beyond, cell_ahead, dir_number, dir_of_number, estimate, move_cost, opposite,
};
pub use ring::Ring;
pub use ruled::{Ruled, rule_of_number};
pub use std::alloc::AllocError as NoMemory;
pub use terrain::{
    Terrain, is_inside, is_legal, is_passable, may_cut, may_slip, number_of, passable_bits, step,
};
pub use word_bits::is_set;

/// A cell: its column `x`, counted to the right, and its row `y`, counted downwards, both from 0.
#[derive(Clone, Copy, Debug, PartialEq, Eq)]
pub struct Cell {
    pub x: u16,
    pub y: u16,
}

/// What a diagonal move asks of the two cells beside it.
#[derive(Clone, Copy, Debug, Default, PartialEq, Eq)]
pub enum Corner {
    /// Both are free: no corner is cut. This is the rule `none`.
    #[default]
    Never,
    /// At least one is free: one blocked cell may be passed. This is the rule `one`.
    One,
    /// Nothing: two blocked cells may be passed between. This is the rule `both`.
    Both,
}

/// What a cell of a map is.
#[derive(Clone, Copy, Debug, PartialEq, Eq)]
pub enum Ground {
    /// Nothing moves here.
    Blocked,
    /// Free in the land grid.
    Land,
    /// Free in the water grid.
    Water,
}

/// The eight directions, clockwise from north; north is one row up.
#[derive(Clone, Copy, Debug, PartialEq, Eq, Default)]
pub enum Dir {
    #[default]
    N,
    NE,
    E,
    SE,
    S,
    SW,
    W,
    NW,
}

/// All eight directions in increasing order.
pub const ALL_DIRS: [Dir; 8] = [
    Dir::N,
    Dir::NE,
    Dir::E,
    Dir::SE,
    Dir::S,
    Dir::SW,
    Dir::W,
    Dir::NW,
];
