//! The sandpile library for C. An export takes numbers, slices and handles, and returns 0 or the number of a fault; the
//! one for the version returns the version, and those that free return nothing.
//!
//! An export checks its arguments, calls the library's function, and writes its results only when nothing can fail any
//! more. So after a fault no slice, no number and no handle has changed. No export keeps state between calls, except behind
//! the handles that the caller holds.
//!
//! Where each call is, by the part of its name after `sandpile_`:
//!
//! - `settle`, `settle_all`: `settling`. `burn`: `burning`. `sites`: `streams`. `grain_limit`: `limit`. `version`: `version`.
//! - `add`, `identity`, `inverse`, `multiple`, `recurrent`: `group`. `class`, `superstable`: `classes`.
//! - `burn_times`, `tree`, `of_tree`, `random`: `trees`.
//! - `drive_new`, `drive_drop`, `drive_waves`, `drive_avalanche`, `drive_free`: `driving`, on the `Drive` of `drive`, with its
//!   drops in `dropping`, its waves in `waves` and its odometer in `kept_odometer`.
//! - `shared_new`, `pass_free` and all that changes a pass: `passing`, on the `OwnedPass` of `owned_pass`.
//! - `drive_read`, `drive_site`, `pass_holding`: `reading`, on handles that are lent (`lent`); `holding` has what a pass holds.
//! - Handles: `drive_handle` and `pass_handle`, over `parts`. Arguments: `arguments`. Numbers of faults: `faults`.
#![tactic(auto)]

mod arguments;
mod burning;
mod classes;
mod drive;
mod drive_handle;
mod driving;
mod dropping;
mod faults;
mod group;
mod holding;
mod kept_odometer;
mod lent;
mod limit;
mod owned_pass;
mod parts;
mod pass_handle;
mod passing;
mod reading;
mod settling;
mod streams;
mod trees;
mod version;
mod waves;

pub use burning::sandpile_burn;
pub use classes::{sandpile_class, sandpile_superstable};
pub use drive_handle::SandpileDrive;
pub use driving::{
    sandpile_drive_avalanche, sandpile_drive_drop, sandpile_drive_free, sandpile_drive_new,
    sandpile_drive_waves,
};
pub use faults::Fault;
pub use group::{
    sandpile_add, sandpile_identity, sandpile_inverse, sandpile_multiple, sandpile_recurrent,
};
pub use holding::SandpileHolding;
pub use limit::sandpile_grain_limit;
pub use pass_handle::SandpilePass;
pub use passing::{
    sandpile_pass_drop, sandpile_pass_free, sandpile_pass_join, sandpile_pass_settle,
    sandpile_pass_split, sandpile_pass_split_rows, sandpile_pass_sweep, sandpile_pass_tally,
    sandpile_shared_new,
};
pub use reading::{sandpile_drive_read, sandpile_drive_site, sandpile_pass_holding};
pub use sand_settle::Avalanche as SandpileAvalanche;
pub use settling::{sandpile_settle, sandpile_settle_all};
pub use streams::sandpile_sites;
pub use trees::{sandpile_burn_times, sandpile_of_tree, sandpile_random, sandpile_tree};
pub use version::sandpile_version;
pub use waves::SandpileWave;
