//! The program's commands: from words and bytes to bytes.
//!
//! `commands` gets the task from `sand_cli`, and `sand_commands` reads the input and does the task; only a run of the
//! laboratory is done here, by `laboratory`. `answering` shows the help that words may ask for, and does whatever else
//! the program's words ask for.
#![tactic(auto)]

mod answering;
mod commands;
mod laboratory;
pub mod laws;

pub use answering::answer;
pub use commands::{run_command, run_gated_command};
pub use laboratory::{journal_text, lab_text};
pub use sand_commands::{
    DeskFault, burn_text, pgm_text, pile_text, read_drops, read_pile, read_two, report_fault,
    settle_text, show_help, status, table_text, write_fault, write_version,
};
