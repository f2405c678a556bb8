//! The burning test, and the group of recurrent piles.
//!
//! Where each call and type is:
//!
//! - `burn` and `Burned` in `burning`; `burning_times` in `burning_steps`. An example that runs is `crates/sand_drive`.
//! - `Recurrent`, `add`, `act`, `inverse` and `identity` in `group`, with the guess of the identity in `neutral`; `multiple` in
//!   `multiplying`.
//! - `equivalent_recurrent`, of a pile, in `equivalent`. Of integer heights: `recurrent_by_firing` and `Fired` in `classes`,
//!   `superstable` in `superstables`, both by `reaching`.
//! - `GroupFault` in `faults`.
//!
//! The definitions are in `specs/`: `Recurrence` (recurrent piles, burning orders, the greatest forbidden set), `Group`
//! (sums, multiples, the identity, inverses, the recurrent pile of a class), `Burned` (what the burning test returns),
//! `BurningTimes` (the step in which each site burns), `Classes` (integer heights: firing vectors, superstable heights)
//! and `Laws`. Proofs of other crates can rely on `laws`.
#![tactic(auto)]

mod burning;
mod burning_steps;
mod classes;
mod equivalent;
mod faults;
mod group;
pub mod laws;
mod multiplying;
mod neutral;
mod reaching;
mod superstables;

pub use burning::{Burned, burn};
pub use burning_steps::burning_times;
pub use classes::{Fired, recurrent_by_firing};
pub use equivalent::equivalent_recurrent;
pub use faults::GroupFault;
pub use group::{Recurrent, act, add, identity, inverse};
pub use multiplying::multiple;
pub use superstables::superstable;
