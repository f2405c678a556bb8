//! Gathering the passes of a crew: the droppers' in order, the workers' in the order of their bands, then the
//! observers'; and what workers and observers found. The passes are gathered bare, so no receipt is copied.

ghost use Rattle.std.specs.Prelude.{◌≡◌, ◌+◌, ◌<◌, ◌≤◌, ◌++◌, [], length, map, All, IfOk, IfErr, OnOk};
ghost use Rattle.std.specs.List.{flat_map};
ghost use Rattle.sand_shared.specs.OpenPile.{grid_of_terms};
ghost use Rattle.sand_shared.specs.Passes.{IsPassOf, together};
ghost use Rattle.sand_shared.specs.Rows.{AreApart, no_rows};
ghost use Rattle.sand_lab.specs.Crews.{EachAt, HasDroppedItsStream, HasSweptItsBand, HasReadItsTallies, HasWorkedOnce, rowless};
ghost use Rattle.sand_lab.specs.Faults.{IsMemory};
ghost use Rattle.sand_lab.specs.Gathering.{all_receipts, all_counts, all_swept, readings, HasGathered, parts_of, HoldsReceipts, HoldsBand, HoldsNothing};
ghost use Rattle.sand_lab.specs.Journals.{lists};

use crate::crew::Crew;
use crate::droppers::Dropper;
use crate::faults::LabFault;
use crate::observers::Observer;
use crate::workers::Worker;
use sand_shared::{BarePass, Pass, Receipt, SharedPile};
use std::alloc::Global;

/// The receipts of each dropper, and what the workers and the observers found.
#[derive(Drop)]
pub(crate) struct Gathered {
    pub(crate) parts: Vec<Vec<Receipt>>,
    pub(crate) findings: Findings,
}

/// What the workers and the observers of an epoch found.
#[derive(Drop)]
pub(crate) struct Findings {
    pub(crate) swept: Vec<u64>,
    pub(crate) tallies: Vec<Vec<u64>>,
}

// Joins a pass with adjacent rows to the first one, and returns its receipts.
fn take_in(
    alloc: Global,
    pile: &SharedPile,
    first: &mut BarePass,
    other: Pass,
) -> Result<Vec<Receipt>, LabFault>
    requires first { IsPassOf pile.now first.old }
    requires other { IsPassOf pile.now other }
    requires touching { ¬ AreApart first.old.rows other.rows }
    ensures of_pile { IsPassOf pile.now first.new }
    ensures first { OnOk result (first.new ≡ together first.old other) }
    ensures receipts { IfOk result (λ v. v.items ≡ other.receipts) }
    ensures memory { IfErr result IsMemory }
{
    let (bare, receipts) = other.into_bare();
    match pile.join_bare(alloc, first, bare) {
        Ok(()) => Ok(receipts),
        Err((fault, _)) => Err(LabFault::of_join(fault)),
    }
}

// Joins a pass that has only receipts, and returns them.
// For the proof: `take_in`, with what it means for such a pass.
fn take_in_receipts(
    alloc: Global,
    pile: &SharedPile,
    first: &mut BarePass,
    other: Pass,
) -> Result<Vec<Receipt>, LabFault>
    requires first { IsPassOf pile.now first.old }
    requires other { HoldsReceipts pile.now other }
    ensures of_pile { IsPassOf pile.now first.new }
    ensures first { OnOk result (first.new ≡ record first.old {
      seen = first.new.seen;
      receipts = first.old.receipts ++ other.receipts;
    }) }
    ensures receipts { IfOk result (λ v. v.items ≡ other.receipts) }
    ensures memory { IfErr result IsMemory }
{
    take_in(alloc, pile, first, other)
}

// Joins the passes of the droppers, in order. Returns the receipts of each.
fn gather_droppers(
    alloc: Global,
    pile: &SharedPile,
    first: &mut BarePass,
    droppers: Vec<Dropper>,
) -> Result<Vec<Vec<Receipt>>, LabFault>
    requires first { IsPassOf pile.now first.old }
    requires droppers { All (λ d. HoldsReceipts pile.now d.pass) droppers.items }
    ensures of_pile { IsPassOf pile.now first.new }
    ensures first { OnOk result (first.new ≡ record first.old {
      seen = first.new.seen;
      receipts = first.old.receipts ++ all_receipts droppers.items;
    }) }
    ensures parts { IfOk result (λ v. lists v.items ≡ parts_of droppers.items) }
    ensures memory { IfErr result IsMemory }
{
    let mut all = Vec::with_capacity(alloc, droppers.len())?;
    for dropper in droppers {
        let Dropper { pass, .. } = dropper;
        let receipts = take_in_receipts(alloc, pile, first, pass)?;
        all.push_reserved(receipts);
    }
    Ok(all)
}

// Joins the passes of the workers, in the order of their bands. Returns what each has swept.
fn gather_workers(
    alloc: Global,
    pile: &SharedPile,
    first: &mut BarePass,
    workers: Vec<Worker>,
) -> Result<Vec<u64>, LabFault>
    requires first { IsPassOf pile.now first.old }
    requires rowless { (first.old.rows ≡ no_rows) × (first.old.counts ≡ []) }
    requires workers { EachAt (HoldsBand pile.now (length workers.items)) workers.items }
    requires some { 0 < length workers.items }
    ensures of_pile { IsPassOf pile.now first.new }
    ensures first { OnOk result (first.new ≡ record first.old {
      seen = first.new.seen;
      rows = record { first = 0; end = (grid_of_terms pile.now.terms).height };
      counts = all_counts workers.items;
    }) }
    ensures swept { IfOk result (λ v. v.items ≡ all_swept workers.items) }
    ensures memory { IfErr result IsMemory }
{
    let mut all = Vec::with_capacity(alloc, workers.len())?;
    for worker in workers {
        let Worker { swept, pass, .. } = worker;
        let _none = take_in(alloc, pile, first, pass)?;
        all.push_reserved(swept);
    }
    Ok(all)
}

// Joins the passes of the observers. Returns what each has read.
fn gather_observers(
    alloc: Global,
    pile: &SharedPile,
    first: &mut BarePass,
    observers: Vec<Observer>,
) -> Result<Vec<Vec<u64>>, LabFault>
    requires first { IsPassOf pile.now first.old }
    requires observers { All (λ o. HoldsNothing pile.now o.pass) observers.items }
    ensures of_pile { IsPassOf pile.now first.new }
    ensures first { OnOk result (first.new ≡ record first.old { seen = first.new.seen }) }
    ensures tallies { IfOk result (λ v. map (λ ts. ts.items) v.items ≡ readings observers.items) }
    ensures memory { IfErr result IsMemory }
{
    let mut all = Vec::with_capacity(alloc, observers.len())?;
    for observer in observers {
        let Observer { tallies, pass, .. } = observer;
        let _none = take_in_receipts(alloc, pile, first, pass)?;
        all.push_reserved(tallies);
    }
    Ok(all)
}

impl Crew {
    /// Joins all passes of the crew to the first one. Returns the receipts of each dropper, and what the workers and
    /// the observers found. The only error is Memory.
    pub(crate) fn gather(
        self,
        alloc: Global,
        pile: &SharedPile,
        first: &mut BarePass,
    ) -> Result<Gathered, LabFault>
        requires first { first.old ≡ rowless pile.now 0 }
        requires crew { HasWorkedOnce pile.now self }
        ensures of_pile { IsPassOf pile.now first.new }
        ensures first { OnOk result (HasGathered pile.now self first.new) }
        ensures parts { IfOk result (λ g. lists g.parts.items ≡ parts_of self.droppers.items) }
        ensures swept { IfOk result (λ g. g.findings.swept.items ≡ all_swept self.workers.items) }
        ensures tallies { IfOk result
            (λ g. map (λ ts. ts.items) g.findings.tallies.items ≡ readings self.observers.items) }
        ensures memory { IfErr result IsMemory }
    {
        let Crew {
            droppers,
            workers,
            observers,
        } = self;
        let parts = gather_droppers(alloc, pile, first, droppers)?;
        let swept = gather_workers(alloc, pile, first, workers)?;
        let tallies = gather_observers(alloc, pile, first, observers)?;
        Ok(Gathered {
            parts,
            findings: Findings { swept, tallies },
        })
    }
}
