//! A driven pile behind a handle.
//!
//! Each call takes the pile out of its handle, works on it, and puts it back.

ghost use Rattle.std.specs.Prelude.{◌≡◌, ◌≢◌, IfOk, IfErr, OnOk, IsOk, Option, None, length};
ghost use Rattle.sand_c.specs.Arguments.{sides_of, Fails, Answers, Returns, pile_of};
ghost use Rattle.sand_c.specs.Driving.{IsDriveOf, Holds, LeadsTo, HaveDriven, HasDriven, opening_of, driving_of, avalanche_of};
ghost use Rattle.sand_c.specs.Waves.{HaveDrivenInWaves, waves_of};
ghost use Rattle.sand_c.specs.Handles.{freed, is_at};
ghost use Rattle.sand_c.specs.contracts.drive_handle.SandpileDrive.{the_row as drive_row};
ghost use denote.RawPtr.{null_ptr};
ghost use types.Logic.{sem};

use crate::arguments::{Sides, pile_in, sides_of};
use crate::drive::Drive;
use crate::drive_handle::SandpileDrive;
use crate::faults::{Fault, answer};
use crate::{SandpileAvalanche, SandpileWave};
use std::alloc::Global;

// A driven pile with the start in the arguments, in a block of its own.
fn drive_of(alloc: Global, sides: Sides, heights: &[u64]) -> Result<Box<Drive>, Fault>
    ensures made { IfOk result (λ b. IsDriveOf (pile_of sides heights.now) b.value) }
    ensures meant { OnOk result (IsOk (pile_of sides heights.now)) }
    ensures fault { IfErr result (λ e. Fails e (pile_of sides heights.now)) }
{
    let start = pile_in(alloc, sides, heights)?;
    let drive = Drive::new(alloc, &start)?;
    Ok(Box::new(alloc, drive)?)
}

/// Settles a pile, and makes an empty handle hold it. Returns 0, or the first of 17 (Taken), 1 (Side), 24 (Narrow), 2
/// (Length of the slice) and 3 (TooManyGrains), or 4 (Memory).
#[tactic(auto, using(crate::proofs::Answered::answered))]
#[unsafe(no_mangle)]
pub extern "C" fn sandpile_drive_new(
    alloc: Global,
    width: usize,
    height: usize,
    cylinder: bool,
    heights: &[u64],
    drive: &mut SandpileDrive,
) -> u32
    ensures made { result ≡ 0 → Holds drive.new.held (IsDriveOf (pile_of (sides_of width height cylinder) heights.now)) }
    ensures answer { Answers result (opening_of drive.old.held (pile_of (sides_of width height cylinder) heights.now)) }
    ensures drive { result ≢ 0 → drive.new.held ≡ drive.old.held }
{
    if let Some(held) = drive.take(alloc) {
        drive.put(held);
        return Fault::Taken.number();
    }
    match drive_of(alloc, sides_of(width, height, cylinder), heights) {
        Ok(held) => {
            drive.put(held);
            0
        }
        Err(fault) => fault.number(),
    }
}

/// Drops a grain at each site in turn; each settles before the next. Writes the avalanche of each drop. Returns 0, or
/// the first of 26 (Empty), 2 (Length of the avalanches), 25 (NoSite) and 6 (Full).
#[tactic(auto, using(crate::proofs::Answered::returned))]
#[unsafe(no_mangle)]
pub extern "C" fn sandpile_drive_drop(
    alloc: Global,
    drive: &mut SandpileDrive,
    drops: &[usize],
    avalanches: &mut [SandpileAvalanche],
) -> u32
    ensures driven { result ≡ 0
        → LeadsTo drive.old.held (λ v w. HaveDriven v drops.now avalanches.new w) drive.new.held }
    ensures answer { Returns result (driving_of drive.old.held drops.now (length avalanches.old)) }
    ensures drive { result ≢ 0 → drive.new.held ≡ drive.old.held }
    ensures avalanches { result ≢ 0 → avalanches.new ≡ avalanches.old }
{
    let Some(mut held) = drive.take(alloc) else {
        return Fault::Empty.number();
    };
    let driven = held.drop_each(drops, avalanches);
    drive.put(held);
    answer(driven)
}

/// Drops a grain at each site in turn, as `sandpile_drive_drop` does. Also writes the waves of each drop after those before,
/// and how many waves there are. Each drop needs room for as many waves as the greatest distance of a site to the nearest
/// open edge, counted from 1. Returns 0, or the first of 26 (Empty), 2 (Length of a slice), 25 (NoSite) and 6 (Full).
#[tactic(auto, using(crate::proofs::Answered::returned))]
#[unsafe(no_mangle)]
pub extern "C" fn sandpile_drive_waves(
    alloc: Global,
    drive: &mut SandpileDrive,
    drops: &[usize],
    avalanches: &mut [SandpileAvalanche],
    waves: &mut [SandpileWave],
    count: &mut usize,
) -> u32
    ensures driven { result ≡ 0 → LeadsTo drive.old.held
        (λ v w. HaveDrivenInWaves v drops.now avalanches.new waves.old waves.new count.new w) drive.new.held }
    ensures answer { Returns result (waves_of drive.old.held drops.now (length avalanches.old) (length waves.old)) }
    ensures drive { result ≢ 0 → drive.new.held ≡ drive.old.held }
    ensures avalanches { result ≢ 0 → avalanches.new ≡ avalanches.old }
    ensures waves { result ≢ 0 → waves.new ≡ waves.old }
    ensures count { result ≢ 0 → count.new ≡ count.old }
{
    let Some(mut held) = drive.take(alloc) else {
        return Fault::Empty.number();
    };
    let driven = held.drop_in_waves(drops, avalanches, waves);
    drive.put(held);
    match driven {
        Ok(written) => {
            *count = written;
            0
        }
        Err(fault) => fault.number(),
    }
}

/// Drops a grain at a site. Writes its avalanche, and how often each site topples in it. Returns 0, or the first of 26
/// (Empty), 2 (Length of the topplings), 25 (NoSite) and 6 (Full).
#[tactic(auto, using(crate::proofs::Answered::returned))]
#[unsafe(no_mangle)]
pub extern "C" fn sandpile_drive_avalanche(
    alloc: Global,
    drive: &mut SandpileDrive,
    site: usize,
    avalanche: &mut SandpileAvalanche,
    topplings: &mut [u64],
) -> u32
    ensures driven { result ≡ 0
        → LeadsTo drive.old.held (λ v w. HasDriven v site avalanche.new topplings.new w) drive.new.held }
    ensures answer { Returns result (avalanche_of drive.old.held site (length topplings.old)) }
    ensures drive { result ≢ 0 → drive.new.held ≡ drive.old.held }
    ensures avalanche { result ≢ 0 → avalanche.new ≡ avalanche.old }
    ensures topplings { result ≢ 0 → topplings.new ≡ topplings.old }
{
    let Some(mut held) = drive.take(alloc) else {
        return Fault::Empty.number();
    };
    let driven = held.drop_one(site, avalanche, topplings);
    drive.put(held);
    answer(driven)
}

/// Frees what the handle holds, and empties it; null is no handle, and nothing is done.
#[unsafe(no_mangle)]
pub extern "C" fn sandpile_drive_free(alloc: Global, drive: *mut SandpileDrive)
    ghost handle: { Option drive_row.Denot }
    requires* { sem 𝓛 (is_at drive_row drive handle) }
    ensures* emptied { sem 𝓛 (is_at drive_row drive (freed (record { at = null_ptr; held = None }) handle)) }
{
    if !drive.is_null() {
        unsafe { drive.write(drive.read().freed(alloc)) }
    }
}
