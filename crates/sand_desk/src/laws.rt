//! The laws of the program, as the contracts of functions that do nothing.
//!
//! **One text.** The laboratory's law says that piles, odometers, sums and numbers of drops are a function of the start
//! and of seed, droppers, drops and epochs; the text shows nothing else.
//!
//! **One dropper.** A run of one epoch with one dropper puts as many drops on each site as `drops --count` with the
//! same seed, since both read stream 0. These numbers alone determine the result of one thread.

ghost use Rattle.sand_desk.specs.Drawing.{LeavesTheSame, WritesTheSamePile};
ghost use Rattle.sand_desk.specs.Laboratory.{OneLabText};

pub use sand_commands::laws::{one_number, runs_in_parts};
use sand_lab::laws::one_outcome;

/// Without its journal, the text of `lab` does not depend on how many threads sweep and watch, or on how the drops
/// interleave.
pub fn one_lab_text()
    ensures { OneLabText }
{
    one_outcome();
}

/// `drops --count N --seed S` and `lab --droppers 1 --drops N --seed S` have the same final pile, grains lost and
/// topplings; with `--pile` both write the same text.
pub fn drops_of_one_dropper()
    ensures record { LeavesTheSame }
    ensures pile { WritesTheSamePile }
{}
