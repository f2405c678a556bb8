//! Collects the words of the command line, finds what they ask for, and parses those of a command into a task.
//!
//! `explain` has the table of faults that `sandpile explain` prints.
#![tactic(auto)]

mod arguments;
mod explain;
mod fault;
mod help;
mod line;
mod names;
mod options;
mod requests;
mod task;

pub use arguments::{is_nothing, words_of};
pub use explain::{EXPLAIN_HELP, Explained, explained_text, fault_named, fault_numbered};
pub use fault::{Conflict, WordsFault};
pub use names::{is_command, is_flag};
pub use requests::{Asked, Misuse, Request, request_of};
pub use task::{Draw, Form, Part, Task, task_of};
