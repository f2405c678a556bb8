//! The record of a closed pile: the result that one thread would get.
//!
//! Two records are consecutive if the second starts from the pile of the first, and both can become one (`append`).
//! Settling in two parts is settling at once, so the joint record has the second one's pile, and the odometers add up.
//! Appending takes time in proportion to the second history and to the number of sites.

ghost use Rattle.std.specs.Prelude.{◌≡◌, ℕ, ◌+◌, ◌^◌, ◌<◌, ◌≤◌, ◌++◌, All, IfOk, OnOk, OnErr, IsOkUnless, alloc_error, length, sum, slice_index};
ghost use Rattle.sand_model.specs.Grid.{sites};
ghost use Rattle.sand_model.specs.Piles.{height_of, most_grains_on};
ghost use Rattle.sand_model.specs.Sand.{IsSettled, occurrences};
ghost use Rattle.sand_settle.specs.Settling.{odometer_of};
ghost use Rattle.sand_shared.specs.Record.{IsOneThreads};

use crate::faults::SharedFault;
use crate::history::History;
use crate::settling::add;
use sand_model::Pile;
use sand_settle::Settled;
use std::alloc::{AllocError, Global};
use std::marker::Model;

/// A closed pile: its start, the site of each drop by number, the settled pile, and how often each site has toppled
/// since the start. It is the result of one thread that drops the history in order.
#[derive(Debug, Drop)]
pub struct Record {
    pub(crate) start: Pile,
    pub(crate) history: History,
    pub(crate) settled: Settled,
}

impl Model for Record {
    ghost use Rattle.sand_shared.specs.Record.{RecordView, IsOneThreads};

    ghost Value = { RecordView };

    ghost view = { λ r. record { start = r.start; history = r.history; settled = r.settled } };

    ghost invariant = { λ r. IsOneThreads (record { start = r.start; history = r.history; settled = r.settled }) };
}

// Copies a pile; only an allocation can fail.
pub(crate) fn copy_of(alloc: Global, pile: &Pile) -> Result<Pile, AllocError>
    ensures { IfOk result (λ p. p ≡ pile.now) }
{
    match pile.copy(alloc) {
        Ok(copy) => Ok(copy),
        Err(_) => Err(AllocError),
    }
}

impl Record {
    /// A record made of the lists themselves. Allocates nothing.
    pub(crate) fn of_lists(
        start: Pile,
        history: Vec<usize>,
        heights: Vec<u64>,
        odometer: Vec<u64>,
    ) -> Record
        requires all_sites { All (λ i. i < sites start.grid) history.items }
        requires limit { sum start.heights + length history.items ≤ most_grains_on start.grid }
        requires len { (length heights.items ≡ sites start.grid) × (length odometer.items ≡ sites start.grid) }
        requires settled { IsSettled start.grid (λ i. height_of start i + occurrences history.items i)
            (slice_index odometer.items) (slice_index heights.items) }
        ensures start { result.start ≡ start }
        ensures history { result.history ≡ history.items }
        ensures heights { result.settled.pile.heights ≡ heights.items }
        ensures odometer { result.settled.odometer ≡ odometer.items }
    {
        let pile = Pile::from_vec(start.shape(), heights);
        let lost = start.grains() + history.len() as u64 - pile.grains();
        let settled = Settled::of_parts(pile, odometer, lost);
        Record {
            start,
            history: History::of(history),
            settled,
        }
    }

    pub fn start(&self) -> &Pile
        ensures value { result.now ≡ self.now.start }
        ensures one_threads { IsOneThreads self.now }
    {
        &self.start
    }

    /// The site of each drop, by number.
    pub fn history(&self) -> &[usize]
        ensures value { result.now ≡ self.now.history }
        ensures one_threads { IsOneThreads self.now }
    {
        self.history.as_slice()
    }

    /// The settled pile with its odometer and what fell into the sink.
    pub fn settled(&self) -> &Settled
        ensures value { result.now ≡ self.now.settled }
        ensures one_threads { IsOneThreads self.now }
    {
        &self.settled
    }

    /// The settled pile.
    pub fn pile(&self) -> &Pile
        ensures value { result.now ≡ self.now.settled.pile }
        ensures one_threads { IsOneThreads self.now }
    {
        self.settled.pile()
    }

    /// How often a site has toppled.
    pub fn odometer(&self, site: usize) -> u64
        requires { site < sites self.now.start.grid }
        ensures { result ≡ odometer_of self.now.settled site }
    {
        self.settled.odometer(site)
    }

    /// How often each site has toppled.
    pub fn odometers(&self) -> &[u64]
        ensures value { result.now ≡ self.now.settled.odometer }
        ensures one_threads { IsOneThreads self.now }
    {
        self.settled.odometers()
    }

    /// The total number of topplings.
    pub fn topplings(&self) -> u64
        ensures value { result ≡ self.now.settled.topplings }
        ensures bound { result < 2 ^ 54 }
    {
        self.settled.topplings()
    }

    /// How many grains fell into the sink.
    pub fn lost(&self) -> u64
        ensures value { result ≡ self.now.settled.lost }
        ensures one_threads { IsOneThreads self.now }
    {
        self.settled.lost()
    }

    /// Two records equal to this one, which share its history. Returns an error if an allocation fails; the record is
    /// then gone.
    pub fn twice(self, alloc: Global) -> Result<(Record, Record), AllocError>
        ensures first { IfOk result (λ r. r.0 ≡ self) }
        ensures second { IfOk result (λ r. r.1 ≡ self) }
    {
        let Record {
            start,
            history,
            settled,
        } = self;
        let history = history.share()?;
        let first = Record {
            start,
            history,
            settled,
        };
        let shared = first.history.copy(alloc)?;
        let second = first.copy_with(alloc, shared)?;
        Ok((first, second))
    }

    /// A copy. It shares the history if this record does (`twice`).
    pub fn copy(&self, alloc: Global) -> Result<Record, SharedFault>
        ensures made { IfOk result (λ r. r ≡ self.now) }
        ensures memory { IsOkUnless result (SharedFault.Memory alloc_error) }
    {
        let history = self.history.copy(alloc)?;
        Ok(self.copy_with(alloc, history)?)
    }

    /// A copy with room for `drops` more drops: an `append` of at most that many allocates nothing for their history.
    pub fn copy_with_room(&self, alloc: Global, drops: usize) -> Result<Record, SharedFault>
        ensures made { IfOk result (λ r. r ≡ self.now) }
        ensures memory { IsOkUnless result (SharedFault.Memory alloc_error) }
    {
        let history = self.history.copy_with_room(alloc, drops)?;
        Ok(self.copy_with(alloc, history)?)
    }

    fn copy_with(&self, alloc: Global, history: History) -> Result<Record, AllocError>
        requires copy { history ≡ self.now.history }
        ensures made { IfOk result (λ r. r ≡ self.now) }
    {
        let start = copy_of(alloc, &self.start)?;
        let settled = self.settled.copy(alloc)?;
        Ok(Record {
            start,
            history,
            settled,
        })
    }

    /// Appends a record that starts from this one's pile: this becomes the record of both histories, one after the
    /// other. Returns Memory if an allocation fails; this record is then unchanged.
    pub fn append(&mut self, alloc: Global, next: &Record) -> Result<(), SharedFault>
        requires start { next.now.start ≡ self.old.settled.pile }
        requires limit { sum self.old.start.heights + (length self.old.history + length next.now.history)
            ≤ most_grains_on self.old.start.grid }
        ensures one_threads { OnOk result (IsOneThreads self.new) }
        ensures start { OnOk result (self.new.start ≡ self.old.start) }
        ensures history { OnOk result (self.new.history ≡ self.old.history ++ next.now.history) }
        ensures pile { OnOk result (self.new.settled.pile ≡ next.now.settled.pile) }
        ensures odometer { OnOk result (
            (i : ℕ) → i < sites self.old.start.grid →
            odometer_of self.new.settled i ≡ odometer_of self.old.settled i + odometer_of next.now.settled i) }
        ensures topplings { OnOk result (
            self.new.settled.topplings ≡ self.old.settled.topplings + next.now.settled.topplings) }
        ensures lost { OnOk result (self.new.settled.lost ≡ self.old.settled.lost + next.now.settled.lost) }
        ensures unchanged { OnErr result (self.new ≡ self.old) }
        ensures memory { IsOkUnless result (SharedFault.Memory alloc_error) }
    {
        let pile = copy_of(alloc, next.settled.pile())?;
        let mut odometer = Vec::from_slice(alloc, self.settled.odometers())?;
        self.history.append(alloc, next.history.as_slice())?;
        add(&mut odometer, next.settled.odometers());
        let lost = self.settled.lost() + next.settled.lost();
        self.settled = Settled::of_parts(pile, odometer, lost);
        Ok(())
    }

    /// Like `append`, but returns a new record.
    pub fn followed_by(&self, alloc: Global, next: &Record) -> Result<Record, SharedFault>
        requires start { next.now.start ≡ self.now.settled.pile }
        requires limit { sum self.now.start.heights + (length self.now.history + length next.now.history)
            ≤ most_grains_on self.now.start.grid }
        ensures one_threads { IfOk result IsOneThreads }
        ensures start { IfOk result (λ r. r.start ≡ self.now.start) }
        ensures history { IfOk result (λ r. r.history ≡ self.now.history ++ next.now.history) }
        ensures pile { IfOk result (λ r. r.settled.pile ≡ next.now.settled.pile) }
        ensures odometer { IfOk result (λ r.
            (i : ℕ) → i < sites self.now.start.grid →
            odometer_of r.settled i ≡ odometer_of self.now.settled i + odometer_of next.now.settled i) }
        ensures topplings { IfOk result (λ r.
            r.settled.topplings ≡ self.now.settled.topplings + next.now.settled.topplings) }
        ensures lost { IfOk result (λ r. r.settled.lost ≡ self.now.settled.lost + next.now.settled.lost) }
        ensures memory { IsOkUnless result (SharedFault.Memory alloc_error) }
    {
        let mut both = self.copy_with_room(alloc, next.history.as_slice().len())?;
        both.append(alloc, next)?;
        Ok(both)
    }
}
