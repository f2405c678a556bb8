//! Sandpiles on a grid with open edges or on a cylinder, the toppling of one site, and the laws of toppling.
//!
//! The definitions of the subject are in `specs/`: `Grid` (sites and neighbours), `Columns` (a table of the columns and
//! rows of all sites), `Sand` (topplings, what stabilises, the least odometer), `Forbidden` (forbidden sets),
//! `Underway` (from one moment of settling to a later one), `Integers` (the same over the integers), `Lists` (lists
//! read as sets of sites), `IndexLists` (lists that sites join), `Piles` (what contracts see of a pile) and `Laws`. All
//! crates above cite these.
//!
//! Proofs of other crates can rely on `laws` and on these modules of `proofs/`: `SumsBelow` (sums over sites),
//! `Occurrences` (how often a site is in a list), `Heights` (a list of heights and its grains), `Bounds` (numbers that are
//! limited by grains and sites) and `Sandpile` (the laws as lemmas).
#![tactic(auto)]

mod faults;
mod index_list;
mod lattice;
pub mod laws;
mod pile;
mod shape;

pub use faults::{PileFault, ShapeFault, ToppleFault};
pub use index_list::IndexList;
pub use lattice::Lattice;
pub use pile::{Pile, TOPPLING_HEIGHT, topple};
pub use shape::{CYLINDER_WIDTH, Edge, GRAIN_LIMIT, LARGE_SIDE_LIMIT, SIDE_LIMIT, Shape};
