//! The laboratory: long seeded runs of drops, spread over threads.
//!
//! Where each step and type is:
//!
//! - `run` in `runs`: one epoch after another. `epochs` takes the steps of an epoch, and publishes its record.
//! - `Plan`, a wish within its limits, in `plan`; `sites_of`, the sites of a stream, in `streams`; `LabFault` in `faults`.
//! - `Crew` in `crew`, with `work` and `sweep_on`; `hire` is in `hiring`, and `gather` in `gathering`. Its members are `Dropper`
//!   (`droppers`), `Worker` (`workers`) and `Observer` (`observers`); `turns` runs each on a thread of its own.
//! - `epoch_lists`: the long lists of an epoch, made, written and freed on another thread; `Entry` and the lists in `journal`.
//! - Results: `Report` in `report`; `Album`, `Picture` and `Note` in `album`.
//!
//! The definitions are in `specs/`, and `laws` says why a run has one outcome.
#![tactic(auto)]

mod album;
mod crew;
mod droppers;
mod epoch_lists;
mod epochs;
mod faults;
mod gathering;
mod hiring;
mod journal;
pub mod laws;
mod observers;
mod plan;
mod report;
mod runs;
mod streams;
mod turns;
mod workers;

pub use album::{Album, Note, Picture};
pub use faults::LabFault;
pub use journal::Entry;
pub use plan::Plan;
pub use report::Report;
pub use runs::run;
pub use sand_streams::SiteReader;
pub use sand_wish::{Gate, Open, Role, Wish};
pub use streams::sites_of;
