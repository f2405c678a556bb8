//! Settling a sandpile on one thread.
//!
//! Where each call and type is:
//!
//! - `settle` in `settling`, and `settle_in_place`, without a copy of the pile, in `in_place`. Both are carried out in `choice`,
//!   which chooses how: by `queue`, or by a claimed odometer and what it leaves. `spreading` gives a site's grains away.
//! - `Settled`, a settled pile with its odometer, in `settled`.
//! - `OnePile` in `one_pile` and `DrivenPile` in `driven_pile`: piles on which one thread drops grains. `near` reads the sites near
//!   a drop. `Avalanche` is in `sand_fronts`. An example that runs is `crates/sand_drive`.
//! - `SettleFault` and `OneFault` in `faults`.
//!
//! The definitions that contracts cite are in `specs/`: `Settling` (the settled record of a pile), `Drops` (drops on a
//! settled pile, one by one), `Avalanches` and `Laws`. Proofs of other crates can rely on `laws`, and on the lemmas of
//! `proofs/OneRecord`.
#![tactic(auto)]

mod choice;
mod driven_pile;
mod faults;
mod in_place;
pub mod laws;
mod near;
mod one_pile;
mod queue;
mod settled;
mod settling;
mod spreading;

pub use driven_pile::DrivenPile;
pub use faults::{OneFault, SettleFault};
pub use in_place::{Totals, settle_in_place};
pub use near::write_near;
pub use one_pile::OnePile;
pub use sand_fronts::Avalanche;
pub use settled::Settled;
pub use settling::settle;
