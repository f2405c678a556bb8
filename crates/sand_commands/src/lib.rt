//! The program's commands without the laboratory: from a task and its input to the text, or to a fault.
//!
//! `tasks` reads the input, does the task and writes its text. `results` has the texts of a settled pile and of the
//! burning test; `texts` wraps the parsers and writers of `sand_text`. `faults` has the one fault type of all commands.
//! `help` writes what words may ask for instead of a command.
//!
//! The commands that drop grains drop large values early, by `drop`. If one goes out of scope instead, the function's
//! proof takes it apart field by field, on each exit path.
#![tactic(auto)]

mod drawn_drops;
mod faults;
mod help;
pub mod laws;
mod listed_drops;
mod pile_commands;
mod results;
mod tasks;
mod texts;

pub use faults::{DeskFault, report_fault, status, write_fault};
pub use help::{show_help, write_explain_help, write_explained, write_version};
pub use results::{burn_text, settle_text};
pub use tasks::{do_task_without_lab, take_input};
pub use texts::{pgm_text, pile_text, read_drops, read_pile, read_two, table_text};
