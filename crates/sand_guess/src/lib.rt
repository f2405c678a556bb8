//! Guesses how often each site of a pile topples: fast and, so far as anyone has seen, right.
//!
//! Nothing here is proved right: each function is proved to be safe and to return, and that is all. A wrong guess costs
//! time and never changes a result, since a guess is used only if it is certified (`sand_certify`).
//!
//! The method is that of Friedrich and Levine 2013, "Fast simulation of large-scale growth models". If the settled
//! heights t were known, the counts u would solve Lu = s - t. Averaged over some sites, t has nearly the density of a
//! pile of half the size with the same number of grains per site. So:
//!
//! 1. `levels`: halve the pile again and again, until it is small. The smallest is guessed from a constant density.
//! 2. `solver`: solve Lu = s - density in floating point, directly: modes along x, elimination along y. On large grids it
//!    does so on a coarser one (`coarse`).
//! 3. `repair`: correct the rounded counts, by toppling unstable sites (`tiles`) and taking back needless topplings
//!    (`fires`). Here all numbers are exact.
//! 4. `density`: local means of the resulting heights predict the density for the pile of twice the size, as far as such
//!    predictions came true at this one.
//!
//! Of a pile where only few sites are unstable the part of the grid that their sand is expected to reach is guessed alone
//! (`window`). The identity of the group of recurrent piles is guessed in the same way, from the empty pile (`claim`).
//! `forecast` finds, without a solve, whether a pile is so high that a guess is faster than toppling. `sweeps` topples
//! small piles.
//!
//! A loop over several lists runs over indices: the prover takes three to six times as long for zipped iterators.
#![tactic(auto)]

mod claim;
mod coarse;
mod density;
mod fires;
mod forecast;
mod levels;
mod modes;
mod places;
mod product;
mod repair;
mod residual;
mod rows;
mod solver;
mod sweeps;
mod tile;
mod tiles;
mod waiting;
mod window;

pub use claim::{Claim, claim_by_tiles, guessed, guessed_identity};
pub use forecast::{is_flat, is_high};
pub use sweeps::{claim_by_sweeps, is_small};
