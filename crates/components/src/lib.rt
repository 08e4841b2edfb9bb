//! Which free cells of a grid belong together, known as cells are blocked and freed (connected components).
//!
//! Two passes in one: each cell, in the order of their numbers, takes the label of a neighbour that has one,
//! and where neighbours have others their classes are made one, in a forest of labels (Rosenfeld and Pfaltz,
//! 1966; Galler and Fischer, 1964). A cell that is freed later does the same. One that is blocked leaves the
//! labels as they are, if those around it that it was linked with are joined without it: round about it, or
//! by a way of bounded length along the walls. Else they are stale, until the next pass.
//!
//! Where no move may pass between two blocked cells, free cells are joined exactly where straight moves join
//! them, as beside each diagonal move there are two straight ones.
//! Else diagonal neighbours are linked as well.
#![tactic(auto)]

mod around;
mod classes;
mod components;
mod labelling;
mod meeting;
mod shape;
mod walls;

pub use components::Components;
pub use std::alloc::AllocError as NoMemory;
