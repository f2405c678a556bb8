//! What a run of the laboratory is asked to do, its limits, and the gates that its threads pass.
//!
//! The laboratory, the command line and the program share them.
#![tactic(auto)]

mod gate;
mod wish;

pub use gate::{Gate, Open, Role};
pub use wish::{
    MOST_DROPPERS, MOST_DROPS, MOST_EPOCHS, MOST_OBSERVERS, MOST_SWEEPS, MOST_WORKERS, Wish,
};
