//! The law of the laboratory, as the contract of a function that does nothing.
//!
//! **One outcome.** The piles, odometers, topplings and grains lost of a run are a function of its start and of the
//! plan's seed, droppers, drops and epochs alone. Workers, sweeps, observers and the interleaving of the threads do not
//! affect them; they do affect histories, journals, tallies and what the workers swept.
//!
//! The reason: each dropper drops at the sites of its own stream, so how often a site is dropped on in an epoch is a
//! sum over the streams, in any order. The result of one thread that drops these grains on the start depends only on
//! the heights that they sum to, and heights have one settled pile and one odometer. So equal starts have equal piles
//! and odometers, and the next epoch has an equal start. The record of all epochs is also that of one thread, which
//! makes all their drops on the first start.

ghost use Rattle.sand_lab.specs.Laws.{OneOutcome};

/// However the drops of two runs interleave, and whoever sweeps meanwhile, both have the same piles, odometers,
/// topplings and grains lost.
pub fn one_outcome()
    ensures { OneOutcome }
{}
