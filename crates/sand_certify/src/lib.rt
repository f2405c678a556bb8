//! Certifies that claimed counts are the odometer of a pile, wherever they came from.
//!
//! Settling a high pile toppling by toppling takes long; guessing how often each site topples is fast. A guess need not
//! be trusted: it comes with the turn in which each site that has toppled burns. From both, one pass over the grid
//! shows that the counts are the least odometer (`laws`), or rejects the guess.
#![tactic(auto)]

mod certificate;
mod emptying;
pub mod laws;

pub use certificate::{COUNT_LIMIT, certified};
pub use emptying::emptied;
