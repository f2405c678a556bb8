//! The odometer that is kept with a driven pile, to tell the topplings of one avalanche.
//!
//! How often a site topples in an avalanche is the odometer after it minus the odometer before. The one before is kept.
//! Sites farther from the drop than the reach of the avalanche have not toppled. So only the others are read, and
//! brought up to date: an avalanche that stays near its drop is fast to read on a large grid, too.

ghost use Rattle.std.specs.Prelude.{◌≡◌, ℕ, ◌-◌, ◌^◌, ◌<◌, ◌≤◌, length, slice_index, IsTrue};
ghost use Rattle.sand_model.specs.Grid.{sites, distance};
ghost use Rattle.sand_settle.specs.Settling.{odometer_of};
ghost use Rattle.sand_settle.specs.Drops.{grid_of_driven};

use sand_settle::{DrivenPile, write_near};

/// Brings a kept odometer up to date, unless it is current.
pub(crate) fn keep_odometer(pile: &DrivenPile, kept: &mut [u64], is_current: bool)
    requires len { length kept.old ≡ sites (grid_of_driven pile.now) }
    requires current { IsTrue is_current → kept.old ≡ pile.now.settled.odometer }
    ensures { kept.new ≡ pile.now.settled.odometer }
{
    if !is_current {
        pile.read_odometer(kept);
    }
}

/// Writes how often each site has toppled since the odometer was kept, and brings that up to date. Only sites within the
/// reach of a site have toppled.
pub(crate) fn take_topplings(
    pile: &DrivenPile,
    kept: &mut [u64],
    site: usize,
    reach: usize,
    topplings: &mut [u64],
)
    requires site { site < sites (grid_of_driven pile.now) }
    requires fits { reach < 2 ^ 32 }
    requires kept_each { length kept.old ≡ sites (grid_of_driven pile.now) }
    requires topplings_each { length topplings.old ≡ sites (grid_of_driven pile.now) }
    requires fewer { (i : ℕ) → i < sites (grid_of_driven pile.now)
        → slice_index kept.old i ≤ odometer_of pile.now.settled i }
    requires within { (i : ℕ) → i < sites (grid_of_driven pile.now)
        → slice_index kept.old i < odometer_of pile.now.settled i → distance (grid_of_driven pile.now) site i ≤ reach }
    ensures kept { kept.new ≡ pile.now.settled.odometer }
    ensures topplings_each { length topplings.new ≡ length topplings.old }
    ensures topplings { (i : ℕ) → i < sites (grid_of_driven pile.now)
        → slice_index topplings.new i ≡ odometer_of pile.now.settled i - slice_index kept.old i }
{
    topplings.fill(0);
    let before: &[u64] = kept;
    let toppled_at = |i: usize| -> u64
        requires site { (i < sites (grid_of_driven pile.now)) × (i < length before.now) }
        requires fewer { slice_index before.now i ≤ odometer_of pile.now.settled i }
        ensures { result ≡ odometer_of pile.entry.now.settled i - slice_index before.entry.now i }
    { pile.odometer(i) - before[i] };
    write_near(pile.shape(), site, reach, topplings, &toppled_at);
    pile.update_odometer(kept, site, reach);
}
