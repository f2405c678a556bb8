//! What the test crates share: piles of a few sites, shared piles with calls from a table, records checked against
//! values worked out by hand, and runs.
//!
//! Large values are mostly dropped by `drop`, in the tests too. If one goes out of scope instead, the function's proof
//! takes it apart field by field, on each way out.
#![tactic(auto)]

pub mod counting;
pub mod meeting;
mod pairs;
pub mod pile_with_passes;
pub mod piles;
pub mod records;
pub mod runs;
