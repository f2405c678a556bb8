//! An epoch of a run: share, hire, work, sweep on, gather, settle, publish.
//!
//! `closed_epoch` takes all steps but the last, so nothing is published of an epoch that cannot be settled.

ghost use Rattle.std.specs.Prelude.{◌≡◌, ◌+◌, ◌<◌, ◌≤◌, [], length, sum, vec_len, vec_capacity, IfOk, IfErr};
ghost use Rattle.sand_model.specs.Piles.{PileView, most_grains_on};
ghost use Rattle.sand_wish.specs.declared.wish.Wish.{Wish};
ghost use Rattle.sand_wish.specs.Plans.{IsPlan, quota_of};
ghost use Rattle.sand_shared.specs.Passes.{IsPassOf, IsWhole};
ghost use Rattle.sand_shared.specs.Record.{IsRecordOf};
ghost use Rattle.sand_lab.specs.Crews.{unshared};
ghost use Rattle.sand_lab.specs.Epochs.{IsClosedEpoch};
ghost use Rattle.sand_lab.specs.Faults.{IsMemory, IsOfEpoch};
ghost use Rattle.sand_lab.specs.Journals.{HavePlaces, IsJournal, flattened, lists};
ghost use Rattle.sand_lab.specs.Reports.{IsEpoch};

use crate::album::{Album, Picture};
use crate::crew::Crew;
use crate::epoch_lists::{
    Blank, settle_and_write_journal, work_and_make_blank, write_history_and_free,
};
use crate::faults::LabFault;
use crate::gathering::{Findings, Gathered};
use crate::journal::Entry;
use crate::plan::quota_of;
use crate::report::Sheet;
use sand_model::Pile;
use sand_shared::{BarePass, Pass, Receipt, Record, SharedPile};
use sand_wish::{Gate, Wish};
use std::alloc::Global;
use std::thread::Threads;

/// A settled epoch, not published yet: its record, once for the report and once for the album, and what else is kept
/// of it.
#[derive(Drop)]
pub(crate) struct ClosedEpoch {
    closed: Record,
    shown: Record,
    journal: Vec<Entry>,
    findings: Findings,
}

// The shared pile of an epoch, and its first pass.
fn share(alloc: Global, start: &Pile, quota: u64) -> Result<(SharedPile, Pass), LabFault>
    requires limit { sum start.now.heights + quota ≤ most_grains_on start.now.grid }
    ensures terms { IfOk result (λ r. r.0.terms ≡ record { start = start.now; quota = quota }) }
    ensures first { IfOk result (λ r. r.1 ≡ unshared r.0 quota) }
    ensures memory { IfErr result IsMemory }
{
    SharedPile::new(alloc, start, quota).map_err(LabFault::of_shared)
}

// Settles a pile with a pass that has gathered everything, and makes the journal and the record.
fn settle<R: Threads + Sync>(
    rt: &R,
    alloc: Global,
    pile: SharedPile,
    mut all: BarePass,
    mut blank: Blank,
    parts: Vec<Vec<Receipt>>,
) -> Result<(Vec<Entry>, Record), LabFault>
    requires of_pile { IsPassOf pile all }
    requires whole { IsWhole pile.terms all }
    requires places { HavePlaces blank.drops (lists parts.items) (vec_len blank.journal) }
    requires parts { flattened (lists parts.items) ≡ all.receipts }
    requires room { (blank.history.items ≡ []) × (vec_len blank.journal ≤ vec_capacity blank.history) }
    ensures journal { IfOk result (λ r. IsJournal blank.drops (flattened (lists parts.items)) r.0.items) }
    ensures closed { IfOk result (λ r. IsRecordOf pile.terms all r.1) }
    ensures memory { IfErr result IsMemory }
{
    let rest = settle_and_write_journal(rt, alloc, &pile, &mut all, &mut blank, parts.as_slice())?;
    let Blank {
        journal,
        history,
        ..
    } = blank;
    let history = write_history_and_free(rt, history, journal.as_slice(), parts);
    Ok((journal, pile.complete(all, rest, history)))
}

/// Takes the steps of an epoch up to its record. The only error is Memory.
pub(crate) fn closed_epoch<R: Threads + Sync, G: Gate>(
    rt: &R,
    alloc: Global,
    start: &Pile,
    wish: Wish,
    epoch: u32,
    gate: &G,
) -> Result<ClosedEpoch, LabFault>
    requires plan { IsPlan wish }
    requires limit { sum start.now.heights + quota_of wish ≤ most_grains_on start.now.grid }
    ensures closed { IfOk result (IsClosedEpoch wish start.now epoch) }
    ensures memory { IfErr result IsMemory }
{
    let (pile, mut first) = share(alloc, start, quota_of(wish))?;
    let mut crew = Crew::hire(alloc, &pile, &mut first, start.shape(), wish, epoch)?;
    let blank = work_and_make_blank(rt, alloc, &mut crew, &pile, gate, wish)?;
    crew.sweep_on(rt, &pile, wish.sweeps);
    let (mut all, _none) = first.into_bare();
    let Gathered { parts, findings } = crew.gather(alloc, &pile, &mut all)?;
    let (journal, closed) = settle(rt, alloc, pile, all, blank, parts)?;
    let (closed, shown) = closed.twice(alloc)?;
    Ok(ClosedEpoch {
        closed,
        shown,
        journal,
        findings,
    })
}

impl ClosedEpoch {
    /// A copy of the record with room for `drops` more drops, from which the total of a run grows. A total that does
    /// not grow shares the history. The only error is Memory.
    pub(crate) fn copy_to_grow(&self, alloc: Global, drops: u64) -> Result<Record, LabFault>
        requires limit { sum self.now.closed.start.heights + (length self.now.closed.history + drops)
            ≤ most_grains_on self.now.closed.start.grid }
        ensures copy { IfOk result (λ r. r ≡ self.now.closed) }
        ensures memory { IfErr result IsMemory }
    {
        let copied = if drops == 0 {
            self.closed.copy(alloc)
        } else {
            self.closed.copy_with_room(alloc, drops as usize)
        };
        copied.map_err(LabFault::of_shared)
    }

    /// Publishes the record at the epoch's place in the album, and returns it with what else is kept of the epoch.
    /// Returns Memory if an allocation fails, and Taken if the place was already set.
    pub(crate) fn publish(
        self,
        alloc: Global,
        epoch: u32,
        album: &Album,
    ) -> Result<(Record, Sheet), LabFault>
        requires place { epoch < length album.now }
        ensures closed { IfOk result (λ r. r.0 ≡ self.closed) }
        ensures epoch { IfOk result (λ r. (wish : Wish) (start : PileView)
            → IsClosedEpoch wish start epoch self → IsEpoch album.now wish start epoch r.0 r.1) }
        ensures faults { IfErr result IsOfEpoch }
    {
        let ClosedEpoch {
            closed,
            shown,
            journal,
            findings,
        } = self;
        let note = album.publish(alloc, epoch, Picture::new(epoch, shown))?;
        let sheet = Sheet {
            journal,
            findings,
            note,
        };
        Ok((closed, sheet))
    }
}
