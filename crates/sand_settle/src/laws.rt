//! The laws of settled records and of the pile of one thread, as contracts of functions that do nothing.
//!
//! Settling in two parts is settling at once (`sand_model::laws::abelian`). So dropping grains one by one, each on a
//! settled pile, leads to the same pile as dropping all of them together, and the odometers add up.

ghost use Rattle.sand_settle.specs.Laws.{DropsAddUp, RecordBySite, OneRecord, StableIsSettled, RecordOfStable, GrainsAreKept, WavesOnce, WavesAddUp};

/// At whatever sites grains are dropped one by one, the record is that of the start and all the grains.
pub fn drops_add_up()
    ensures { DropsAddUp }
{}

/// Heights have one settled record, which depends only on those at the sites of the grid.
pub fn one_record()
    ensures unique { OneRecord }
    ensures by_site { RecordBySite }
{}

/// A stable pile settles to itself, and no site topples.
pub fn stable_settles_to_itself()
    ensures settled { StableIsSettled }
    ensures record { RecordOfStable }
{}

/// No grain vanishes: those that are not lost are on the settled pile.
pub fn grains_are_kept()
    ensures { GrainsAreKept }
{}

/// A drop has one list of waves. The dropped site topples once in each, and their sizes sum to the topplings.
pub fn one_list_of_waves()
    ensures unique { WavesOnce }
    ensures add_up { WavesAddUp }
{}
