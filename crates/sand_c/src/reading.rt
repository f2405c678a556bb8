//! Calls that only read what a handle holds. Any number may run on one handle at the same time.

ghost use Rattle.std.specs.Prelude.{◌≡◌, ◌≢◌, length};
ghost use Rattle.sand_settle.specs.Drops.{DrivenView};
ghost use Rattle.sand_c.specs.Arguments.{Returns};
ghost use Rattle.sand_c.specs.Driving.{Holds, IsReading, IsSiteOf, held_in, reading_of, site_of};
ghost use Rattle.sand_c.specs.Handles.{Lent, is_lent, seen_in};
ghost use Rattle.sand_c.specs.OwnedPasses.{OwnedPassView};
ghost use Rattle.sand_c.specs.Passing.{IsHolding};
ghost use Rattle.sand_c.specs.contracts.drive.Drive.{the_row as drive_row};
ghost use Rattle.sand_c.specs.contracts.owned_pass.OwnedPass.{the_row as pass_row};
ghost use base.Fml.{flft};
ghost use types.Logic.{sem};

use crate::drive::Drive;
use crate::faults::{Fault, answer};
use crate::holding::SandpileHolding;
use crate::lent::{LentDrive as SandpileDrive, LentPass as SandpilePass};
use crate::owned_pass::OwnedPass;

// What `sandpile_drive_read` does with the pile in its handle.
#[tactic(auto, using(crate::proofs::Answered::returned))]
fn read_in(
    held: Option<&Drive>,
    heights: &mut [u64],
    odometer: &mut [u64],
    topplings: &mut u64,
    lost: &mut u64,
    drops: &mut u64,
) -> u32
    ensures read { result ≡ 0
        → Holds (seen_in held.entry) (IsReading heights.new odometer.new topplings.new lost.new drops.new) }
    ensures answer { Returns result (reading_of (seen_in held.entry) (length heights.old) (length odometer.old)) }
    ensures heights { result ≢ 0 → heights.new ≡ heights.old }
    ensures odometer { result ≢ 0 → odometer.new ≡ odometer.old }
    ensures topplings { result ≢ 0 → topplings.new ≡ topplings.old }
    ensures lost { result ≢ 0 → lost.new ≡ lost.old }
    ensures drops { result ≢ 0 → drops.new ≡ drops.old }
{
    let Some(held) = held else {
        return Fault::Empty.number();
    };
    answer(held.read(heights, odometer, topplings, lost, drops))
}

/// Writes the heights now, how often each site has toppled since the start, the number of topplings, the grains lost and
/// the number of drops. An array of length 0 is left out. Returns 0, or the first of 26 (Empty) and 2 (Length of a slice).
#[unsafe(no_mangle)]
pub extern "C" fn sandpile_drive_read(
    drive: &SandpileDrive,
    heights: &mut [u64],
    odometer: &mut [u64],
    topplings: &mut u64,
    lost: &mut u64,
    drops: &mut u64,
) -> u32
    ghost lent: { Lent DrivenView }
    requires* { sem 𝓛 (is_lent drive_row drive.now.0 lent) }
    ensures* back { sem 𝓛 (flft lent.life lent.share) }
    ensures read { result ≡ 0
        → Holds lent.held (IsReading heights.new odometer.new topplings.new lost.new drops.new) }
    ensures answer { Returns result (reading_of lent.held (length heights.old) (length odometer.old)) }
    ensures heights { result ≢ 0 → heights.new ≡ heights.old }
    ensures odometer { result ≢ 0 → odometer.new ≡ odometer.old }
    ensures topplings { result ≢ 0 → topplings.new ≡ topplings.old }
    ensures lost { result ≢ 0 → lost.new ≡ lost.old }
    ensures drops { result ≢ 0 → drops.new ≡ drops.old }
{
    let at = drive.0 as *const Drive;
    let held = if at.is_null() {
        None
    } else {
        Some(unsafe { &*at })
    };
    read_in(held, heights, odometer, topplings, lost, drops)
}

// What `sandpile_drive_site` does with the pile in its handle.
#[tactic(auto, using(crate::proofs::Answered::returned))]
fn site_in(held: Option<&Drive>, site: usize, height: &mut u64, topplings: &mut u64) -> u32
    ensures read { result ≡ 0 → Holds (seen_in held.entry) (IsSiteOf site height.new topplings.new) }
    ensures answer { Returns result (site_of (seen_in held.entry) site) }
    ensures height { result ≢ 0 → height.new ≡ height.old }
    ensures topplings { result ≢ 0 → topplings.new ≡ topplings.old }
{
    let Some(held) = held else {
        return Fault::Empty.number();
    };
    match held.site(site) {
        Ok((now, so_far)) => {
            *height = now;
            *topplings = so_far;
            0
        }
        Err(fault) => fault.number(),
    }
}

/// Writes the height of a site now, and how often it has toppled since the start, the start's settling included.
/// Returns 0, or the first of 26 (Empty) and 25 (NoSite).
#[unsafe(no_mangle)]
pub extern "C" fn sandpile_drive_site(
    drive: &SandpileDrive,
    site: usize,
    height: &mut u64,
    topplings: &mut u64,
) -> u32
    ghost lent: { Lent DrivenView }
    requires* { sem 𝓛 (is_lent drive_row drive.now.0 lent) }
    ensures* back { sem 𝓛 (flft lent.life lent.share) }
    ensures read { result ≡ 0 → Holds lent.held (IsSiteOf site height.new topplings.new) }
    ensures answer { Returns result (site_of lent.held site) }
    ensures height { result ≢ 0 → height.new ≡ height.old }
    ensures topplings { result ≢ 0 → topplings.new ≡ topplings.old }
{
    let at = drive.0 as *const Drive;
    let held = if at.is_null() {
        None
    } else {
        Some(unsafe { &*at })
    };
    site_in(held, site, height, topplings)
}

// What `sandpile_pass_holding` does with the pass in its handle.
fn holding_in(held: Option<&OwnedPass>, holding: &mut SandpileHolding) -> u32
    ensures told { result ≡ 0 → Holds (seen_in held.entry) (IsHolding holding.new) }
    ensures answer { Returns result (held_in (seen_in held.entry)) }
    ensures holding { result ≢ 0 → holding.new ≡ holding.old }
{
    let Some(held) = held else {
        return Fault::Empty.number();
    };
    *holding = held.holding();
    0
}

/// Writes what the pass holds. Returns 0 or 26 (Empty).
#[unsafe(no_mangle)]
pub extern "C" fn sandpile_pass_holding(pass: &SandpilePass, holding: &mut SandpileHolding) -> u32
    ghost lent: { Lent OwnedPassView }
    requires* { sem 𝓛 (is_lent pass_row pass.now.0 lent) }
    ensures* back { sem 𝓛 (flft lent.life lent.share) }
    ensures told { result ≡ 0 → Holds lent.held (IsHolding holding.new) }
    ensures answer { Returns result (held_in lent.held) }
    ensures holding { result ≢ 0 → holding.new ≡ holding.old }
{
    let at = pass.0 as *const OwnedPass;
    let held = if at.is_null() {
        None
    } else {
        Some(unsafe { &*at })
    };
    holding_in(held, holding)
}
