//! A run: epoch after epoch, each starting from the pile of the one before it.

ghost use Rattle.std.specs.Prelude.{◌≡◌, ◌≢◌, ◌↔◌, ◌+◌, ◌*◌, ◌<◌, ◌≤◌, length, sum, IfOk, IfErr, OnOk};
ghost use Rattle.sand_lab.specs.Faults.{IsOfEpoch};
ghost use Rattle.sand_wish.specs.Plans.{IsPlan, all_drops, quota_of};
ghost use Rattle.sand_lab.specs.Reports.{IsReport, IsReportOf};
ghost use Rattle.sand_model.specs.Piles.{PileView, most_grains_on};

use crate::album::Album;
use crate::epochs::closed_epoch;
use crate::faults::LabFault;
use crate::plan::{Plan, quota_of};
use crate::report::Report;
use sand_model::Pile;
use sand_wish::{Gate, Wish};
use std::alloc::Global;
use std::thread::Threads;

// The report of the first epoch, whose total has room for the drops of the others.
fn first_report<R: Threads + Sync, G: Gate>(
    rt: &R,
    alloc: Global,
    start: &Pile,
    wish: Wish,
    gate: &G,
    album: &Album,
) -> Result<Report, LabFault>
    requires plan { IsPlan wish }
    requires limit { sum start.now.heights + all_drops wish ≤ most_grains_on start.now.grid }
    requires places { 0 < length album.now }
    ensures report { IfOk result (IsReportOf album.now wish start.now 1) }
    ensures faults { IfErr result IsOfEpoch }
{
    let later = quota_of(wish) * u64::from(wish.epochs - 1);
    let first = closed_epoch(rt, alloc, start, wish, 0, gate)?;
    let copy = first.copy_to_grow(alloc, later)?;
    let (closed, sheet) = first.publish(alloc, 0, album)?;
    Report::of(alloc, closed, sheet, copy)
}

// Runs all epochs of a plan that fits the limit and the album.
fn run_all<R: Threads + Sync, G: Gate>(
    rt: &R,
    alloc: Global,
    start: &Pile,
    wish: Wish,
    gate: &G,
    album: &Album,
) -> Result<Report, LabFault>
    requires plan { IsPlan wish }
    requires limit { sum start.now.heights + all_drops wish ≤ most_grains_on start.now.grid }
    requires places { length album.now ≡ wish.epochs }
    ensures report { IfOk result (IsReport album.now wish start.now) }
    ensures faults { IfErr result IsOfEpoch }
{
    let mut report = first_report(rt, alloc, start, wish, gate, album)?;
    for epoch in 1..wish.epochs {
        let pile = report.total().pile();
        let next = closed_epoch(rt, alloc, pile, wish, epoch, gate)?;
        let (closed, sheet) = next.publish(alloc, epoch, album)?;
        report.add(alloc, closed, sheet)?;
    }
    Ok(report)
}

/// Runs a plan from a start. In each epoch droppers drop at the sites of their streams, workers sweep their bands and
/// observers read the tally, all on one shared pile. Then the pile is settled, and its record is published at the
/// epoch's place in the album. `Gate` says when the gate is called.
///
/// The piles, odometers, topplings and grains lost are a function of the start and of the plan's seed, droppers, drops
/// and epochs alone (`laws::one_outcome`). The histories, the journals, the tallies and what the workers swept also
/// depend on how the threads take turns.
///
/// Returns AlbumSize if the album does not have one place for each epoch; TooManyGrains if the start and all drops
/// together exceed the limit; then, in the epoch in which it occurs, Memory if an allocation fails, and Taken if the
/// epoch's place was already set. After these two, the places already published stay published, and nothing else of the
/// run remains.
pub fn run<R: Threads + Sync, G: Gate>(
    rt: &R,
    alloc: Global,
    start: &Pile,
    plan: &Plan,
    gate: &G,
    album: &Album,
) -> Result<Report, LabFault>
    ensures album_size { (result ≡ Err LabFault.AlbumSize) ↔ (length album.now ≢ plan.now.epochs) }
    ensures grains { (result ≡ Err LabFault.TooManyGrains)
        ↔ ((length album.now ≡ plan.now.epochs) × (most_grains_on start.now.grid < sum start.now.heights + all_drops plan.now)) }
    ensures no_plan { result ≢ Err LabFault.Plan }
    ensures report { IfOk result (IsReport album.now plan.now start.now) }
{
    let wish = plan.wish();
    if album.places() != wish.epochs {
        return Err(LabFault::AlbumSize);
    }
    let room = start.shape().grain_limit() - start.grains();
    if quota_of(wish) * u64::from(wish.epochs) > room {
        return Err(LabFault::TooManyGrains);
    }
    run_all(rt, alloc, start, wish, gate, album)
}
