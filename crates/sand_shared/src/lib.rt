//! One pile of sand shared by many threads, which drop grains on it and topple its sites in place concurrently.
//!
//! Where each type and its methods are:
//!
//! - `SharedPile` in `shared_pile`, with `new`, `drop_at`, `tally` and `is_whole`. Its longer methods are apart: `drop_all` in
//!   `dropping_lists`, `sweep` in `sweeping`, `split` and `split_rows` in `splitting`, `join`, `join_all` and `join_bare`
//!   in `joining`, `settle`, `record_now`, `settle_rest` and `complete` in `settling`, `close` in `closing`.
//! - `Pass` in `pass`; `BarePass`, a pass without its receipts, in `bare_pass`; `Rows`, the rows of a pass, in `rows`.
//! - `Record` in `record`, and the list of its drops, `History`, in `history`.
//! - `SiteCounts`, counters that `drop_all` borrows, in `site_counts`; all errors in `faults`.
//! - `Words`, the words that the threads share: each atomic step in `steps`, their rule in `rule`, what the rule knows of a pile
//!   and of a pass in `view`. A method of several steps is in the module of the `SharedPile` method that calls it.
//!
//! The definitions are in `specs/`: `OpenPile` (the pile while it is shared, and when it is lawful), `Events` (the nine
//! kinds of event, each with its condition and its effect), `Running` (the rule of the table of words: events have
//! led to what it shows), `Passes` (what contracts see of a pass) and `Record` (what the record of a closed pile is).
//!
//! Proofs of other crates can rely on `laws`, and on the lemmas of `proofs/Receipts`.
#![tactic(auto)]

mod bare_pass;
mod closing;
mod dropping_lists;
mod faults;
mod history;
mod joining;
pub mod laws;
mod pass;
mod record;
mod rows;
mod rule;
mod settling;
mod shared_pile;
mod site_counts;
mod splitting;
mod steps;
mod sweeping;
mod view;

pub use bare_pass::BarePass;
pub use faults::{CloseFault, DropFault, JoinFault, SharedFault, SplitFault};
pub use pass::Pass;
pub use record::Record;
pub use shared_pile::SharedPile;
pub use site_counts::SiteCounts;
pub use view::{Receipt, Terms};
