//! Hiring a crew: each member gets its own pass, split off the first one.

ghost use Rattle.std.specs.Prelude.{◌≡◌, ℕ, ◌+◌, ◌-◌, ◌*◌, ◌/◌, ◌<◌, ◌≤◌, [], length, take, drop, IfOk, OnOk, IfErr};
ghost use Rattle.sand_shared.specs.OpenPile.{grid_of_terms};
ghost use Rattle.sand_shared.specs.Passes.{IsPassOf, sites_kept};
ghost use Rattle.sand_shared.specs.Rows.{no_rows, count_of, upper_rows, lower_rows};
ghost use Rattle.sand_lab.specs.Crews.{EachAt, IsCrew, IsDropper, IsWorker, IsObserver, rowless, unshared};
ghost use Rattle.sand_lab.specs.Faults.{IsMemory};
ghost use Rattle.sand_wish.specs.Plans.{IsPlan, quota_of};

use crate::crew::Crew;
use crate::droppers::{Dropper, batch_size};
use crate::faults::LabFault;
use crate::observers::{Observer, TALLIES};
use crate::workers::Worker;
use sand_model::Shape;
use sand_shared::{Pass, SharedPile, SiteCounts};
use sand_streams::{SiteReader, stream_of};
use sand_wish::Wish;
use std::alloc::{AllocError, Global};

// The droppers, each with its part of the quota, its stream, and room for a batch.
fn hire_droppers(
    alloc: Global,
    pile: &SharedPile,
    first: &mut Pass,
    shape: Shape,
    wish: Wish,
    epoch: u32,
) -> Result<Vec<Dropper>, LabFault>
    requires plan { IsPlan wish }
    requires shape { shape ≡ grid_of_terms pile.now.terms }
    requires first { first.old ≡ unshared pile.now (quota_of wish) }
    ensures droppers { IfOk result (λ v. EachAt (IsDropper pile.now wish epoch) v.items) }
    ensures all { IfOk result (λ v. length v.items ≡ wish.droppers) }
    ensures first { OnOk result (first.new ≡ unshared pile.now 0) }
    ensures memory { IfErr result IsMemory }
{
    let mut droppers = Vec::with_capacity(alloc, wish.droppers as usize)?;
    for who in 0..wish.droppers {
        let pass = match pile.split(alloc, first, u64::from(wish.drops)) {
            Ok(pass) => pass,
            Err(fault) => return Err(LabFault::of_split(fault)),
        };
        let sites = SiteReader::new(shape, wish.seed, stream_of(epoch, who));
        let batch = Vec::with_capacity(alloc, batch_size(wish.drops) as usize)?;
        let counts = SiteCounts::new(alloc, shape)?;
        let dropper = Dropper {
            who,
            sites,
            batch,
            counts,
            pass,
        };
        droppers.push_reserved(dropper);
    }
    Ok(droppers)
}

// The first row of a worker's band, and one past its last.
fn band_of(shape: Shape, workers: u32, who: u32) -> (u16, u16)
    requires workers { workers ≤ 16 }
    requires who { who < workers }
    ensures begin { result.0 ≡ who * shape.height / workers }
    ensures end { result.1 ≡ (who + 1) * shape.height / workers }
    ensures ordered { result.0 ≤ result.1 }
{
    let height = shape.height() as u32;
    let begin = who * height / workers;
    let end = (who + 1) * height / workers;
    (begin as u16, end as u16)
}

// The workers, each with its band of rows. The last one comes first, because a split gives the last rows away.
fn hire_workers(
    alloc: Global,
    pile: &SharedPile,
    first: &mut Pass,
    shape: Shape,
    workers: u32,
) -> Result<Vec<Worker>, LabFault>
    requires some { (0 < workers) × (workers ≤ 16) }
    requires shape { shape ≡ grid_of_terms pile.now.terms }
    requires first { first.old ≡ unshared pile.now 0 }
    ensures workers { IfOk result (λ v. EachAt (IsWorker pile.now workers) v.items) }
    ensures all { IfOk result (λ v. length v.items ≡ workers) }
    ensures first { OnOk result (first.new ≡ rowless pile.now 0) }
    ensures memory { IfErr result IsMemory }
{
    let mut hired = Vec::with_capacity(alloc, workers as usize)?;
    for done in 0..workers {
        let who = workers - 1 - done;
        let (begin, end) = band_of(shape, workers, who);
        let pass = match pile.split_rows(alloc, first, end - begin) {
            Ok(pass) => pass,
            Err(fault) => return Err(LabFault::of_split(fault)),
        };
        let worker = Worker {
            who,
            swept: 0,
            last: 0,
            pass,
        };
        match hired.insert(0, worker) {
            Ok(()) => (),
            Err(refused) => return Err(AllocError::from(refused).into()),
        }
    }
    Ok(hired)
}

// The observers, without quota or rows.
fn hire_observers(
    alloc: Global,
    pile: &SharedPile,
    first: &mut Pass,
    observers: u32,
) -> Result<Vec<Observer>, LabFault>
    requires first { first.old ≡ rowless pile.now 0 }
    ensures observers { IfOk result (λ v. EachAt (IsObserver pile.now) v.items) }
    ensures all { IfOk result (λ v. length v.items ≡ observers) }
    ensures first { OnOk result (first.new ≡ first.old) }
    ensures memory { IfErr result IsMemory }
{
    let mut hired = Vec::with_capacity(alloc, observers as usize)?;
    for who in 0..observers {
        let pass = match pile.split(alloc, first, 0) {
            Ok(pass) => pass,
            Err(fault) => return Err(LabFault::of_split(fault)),
        };
        let tallies = Vec::with_capacity(alloc, TALLIES as usize)?;
        hired.push_reserved(Observer { who, tallies, pass });
    }
    Ok(hired)
}

impl Crew {
    /// A crew for one epoch of a plan, which takes the whole quota and all rows of the first pass. The only error is
    /// Memory.
    pub(crate) fn hire(
        alloc: Global,
        pile: &SharedPile,
        first: &mut Pass,
        shape: Shape,
        wish: Wish,
        epoch: u32,
    ) -> Result<Crew, LabFault>
        requires plan { IsPlan wish }
        requires shape { shape ≡ grid_of_terms pile.now.terms }
        requires first { first.old ≡ unshared pile.now (quota_of wish) }
        ensures crew { IfOk result (IsCrew pile.now wish epoch) }
        ensures first { OnOk result (first.new ≡ rowless pile.now 0) }
        ensures memory { IfErr result IsMemory }
    {
        let droppers = hire_droppers(alloc, pile, first, shape, wish, epoch)?;
        let workers = hire_workers(alloc, pile, first, shape, wish.workers)?;
        let observers = hire_observers(alloc, pile, first, wish.observers)?;
        Ok(Crew {
            droppers,
            workers,
            observers,
        })
    }
}
