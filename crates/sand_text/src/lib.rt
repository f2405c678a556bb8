//! Piles, drops, tables and runs of the laboratory as text, and the loops that read and write texts.
#![tactic(auto)]

mod blocks;
mod bytes;
mod fault;
mod flow;
mod laws;
mod numbers;
mod pictures;
mod piles;
mod places;
mod rows;
mod runs;
mod survey;
mod tables;
mod tokens;
mod two_piles;

pub use blocks::Blocks;
pub use fault::{ReadFault, StreamFault, TextFault};
pub use flow::{INPUT_LIMIT, read_all, write_text};
pub use laws::{numbers_are_runs, read_again, strange_byte};
pub use pictures::{no_long_line, pgm_text};
pub use piles::{pile_text, push_odometer, push_pile, read_drops, read_pile};
pub use places::{column, line};
pub use rows::{push_number, push_sum};
pub use runs::{Sums, push_epoch, push_journal_line, push_total};
pub use survey::{Survey, plain_survey};
pub use tables::{table_head, table_text};
pub use tokens::{Token, Tokens};
pub use two_piles::{first_survey, read_two, second_survey};
