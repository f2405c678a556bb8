//! What is asked of a run, and its limits.

ghost use Rattle.std.specs.Prelude.{◌≡◌, ◌↔◌, true};
ghost use Rattle.sand_wish.specs.Plans.{IsPlan};

/// The most droppers of an epoch.
pub const MOST_DROPPERS: u32 = 64;

/// The most drops of a dropper in an epoch.
pub const MOST_DROPS: u32 = 1_000_000;

/// The most epochs of a run.
pub const MOST_EPOCHS: u32 = 100;

/// The most workers of an epoch.
pub const MOST_WORKERS: u32 = 16;

/// The most sweeps of a worker during the drops of an epoch.
pub const MOST_SWEEPS: u32 = 1000;

/// The most observers of an epoch.
pub const MOST_OBSERVERS: u32 = 16;

/// What a run is asked to do, within its limits or not.
#[derive(Clone, Copy, Debug, PartialEq, Eq)]
pub struct Wish {
    /// The seed of the streams of drop sites.
    pub seed: u64,
    /// The number of threads that drop: from 1 to `MOST_DROPPERS`.
    pub droppers: u32,
    /// The number of grains that each of them drops in an epoch: at most `MOST_DROPS`.
    pub drops: u32,
    /// How often the pile is shared and closed again: from 1 to `MOST_EPOCHS`.
    pub epochs: u32,
    /// The number of threads that sweep the rows: from 1 to `MOST_WORKERS`.
    pub workers: u32,
    /// How often each of them sweeps its rows during the drops: at most `MOST_SWEEPS`. Afterwards each sweeps once a
    /// round, for at most `sweeps` rounds.
    pub sweeps: u32,
    /// The number of threads that read the tally during the drops: at most `MOST_OBSERVERS`.
    pub observers: u32,
}

impl Wish {
    /// Whether each field is within its limits.
    pub fn is_within_limits(&self) -> bool
        ensures { result ≡ true ↔ IsPlan self.now }
    {
        let people = matches!(self.droppers, 1..=MOST_DROPPERS)
            && matches!(self.workers, 1..=MOST_WORKERS)
            && self.observers <= MOST_OBSERVERS;
        let times = self.drops <= MOST_DROPS
            && matches!(self.epochs, 1..=MOST_EPOCHS)
            && self.sweeps <= MOST_SWEEPS;
        people && times
    }
}
