//! What the program says to a person at a terminal: what a fault means and what to do, what is wrong with a rejected
//! input and where, how to correct rejected words, and how far a long command is.
//!
//! `advising` examines a rejected input, which `keeping` has kept, and adds what the line of its fault leaves out.
//! `misuse` examines the words. `progress` shows a line while a long command runs.
//!
//! No script reads these texts, so no contract fixes their words: `tools/at-a-terminal` shows them.
#![tactic(auto)]

mod advising;
mod keeping;
mod misuse;
mod progress;
mod progress_text;
mod pushing;
mod rejected;
mod strange;

pub use advising::advice;
pub use keeping::Kept;
pub use misuse::tip;
pub use progress::{Cleared, Progress, progress_of};
