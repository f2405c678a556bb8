//! Completing a shared pile with a whole pass: one thread settles in plain memory what is left to topple, and the
//! record is made from that and from what toppled in place.
//!
//! No site has toppled in place more often than needed, so the odometer is what toppled in place plus the odometer of
//! the rest (`sand_model::laws::settles_after`). All memory is allocated before the shared words are closed.
//!
//! The two steps leave other threads free: `SharedPile::settle_rest` settles the rest, and `SharedPile::complete` makes
//! the record from a history that may be written meanwhile.
//!
//! `SharedPile::settle` reads each height once and topples in plain memory, as `sand_settle::settle` does: use it if
//! much is left to topple. `SharedPile::close` sweeps the shared words and allocates only the record: use it if little
//! is left, or if memory is short.

ghost use Rattle.std.specs.Prelude.{◌≡◌, ℕ, ◌+◌, ◌^◌, ◌<◌, ◌≤◌, ◌↔◌, [], length, sum, slice_index, vec_capacity, IfOk, IfErr, OnOk};
ghost use Rattle.sand_model.specs.Grid.{sites};
ghost use Rattle.sand_model.specs.Sand.{IsUnderway};
ghost use Rattle.sand_model.specs.Piles.{height_of, most_grains_on};
ghost use Rattle.sand_settle.specs.Settling.{odometer_of};
ghost use Rattle.sand_shared.specs.OpenPile.{grid_of_terms, toppled_by};
ghost use Rattle.sand_shared.specs.Events.{looked};
ghost use Rattle.sand_shared.specs.Passes.{IsPassOf, IsWhole, at_rest};
ghost use Rattle.sand_shared.specs.Record.{Tells, IsRecordOf, IsCompleted};
ghost use Rattle.sand_shared.specs.Seats.{HasAll, IsSeatAt, StaysSeated};
ghost use Rattle.sand_shared.specs.Sweeps.{IsRestOf, start_and_receipts};

use crate::bare_pass::BarePass;
use crate::closing::fill;
use crate::faults::CloseFault;
use crate::pass::Pass;
use crate::record::{Record, copy_of};
use crate::shared_pile::SharedPile;
use crate::steps::{PassSeat, Words};
use crate::view::{Receipt, Terms};
use sand_model::Pile;
use sand_settle::{SettleFault, Settled, settle};
use std::alloc::Global;
use std::marker::Brand;

impl Words {
    // Reads the heights of all sites into a list with room for them, for the seat of a whole pass.
    fn read(&self, seat: &mut PassSeat, heights: &mut Vec<u64>)
        requires seat { IsSeatAt self.now seat.old }
        requires hand { seat.old.me.0.hand ≡ [] }
        requires all { HasAll self.now.terms seat.old.me.0 }
        requires rows { seat.old.me.0.base + length seat.old.me.0.counts ≤ sites (grid_of_terms self.now.terms) }
        requires room { (heights.old.items ≡ []) × (sites (grid_of_terms self.now.terms) ≤ vec_capacity heights.old) }
        ensures seat { StaysSeated seat.old seat.new }
        ensures view { seat.new.me.0 ≡ looked seat.old.me.0 seat.new.me.0.spot seat.new.me.0.least }
        ensures len { length heights.new.items ≡ sites (grid_of_terms self.now.terms) }
        ensures limit { sum heights.new.items ≤ most_grains_on (grid_of_terms self.now.terms) }
        ensures underway { IsUnderway (grid_of_terms self.now.terms) (start_and_receipts self.now.terms seat.old.me.0)
            (toppled_by seat.old.me.0) (slice_index heights.new.items) }
    {
        let sites = self.terms().start.shape().sites();
        'sites: for site in 0..sites {
            let height = self.look::<Brand>(seat, site);
            heights.push_reserved(height);
        }
        self.learn::<Brand>(seat);
    }
}

// Adds the second list to the first, entry by entry.
pub(crate) fn add(numbers: &mut Vec<u64>, more: &[u64])
    requires len { length numbers.old.items ≡ length more.now }
    requires fits { (i : ℕ) → i < length more.now → slice_index numbers.old.items i + slice_index more.now i < 2 ^ 64 }
    ensures len { length numbers.new.items ≡ length numbers.old.items }
    ensures sums { (i : ℕ) → i < length more.now
        → slice_index numbers.new.items i ≡ slice_index numbers.old.items i + slice_index more.now i }
    ensures never_fall { (i : ℕ) → slice_index numbers.old.items i ≤ slice_index numbers.new.items i }
{
    'places: for i in 0..more.len() {
        numbers[i] += more[i];
    }
}

// The record of a start and a history, from the counts of what has toppled and the settled rest.
fn record_of(start: Pile, history: Vec<usize>, mut counts: Vec<u64>, rest: Settled) -> Record
    requires { IsCompleted start history.items counts.items rest }
    ensures start { result.start ≡ start }
    ensures history { result.history ≡ history.items }
    ensures never_fall { (i : ℕ) → slice_index counts.items i ≤ odometer_of result.settled i }
{
    add(&mut counts, rest.odometers());
    let (_, heights) = rest.into_pile().into_parts();
    Record::of_lists(start, history, heights, counts)
}

impl SharedPile {
    /// Settles the pile with a pass that has gathered everything, and returns the record, the same as
    /// `SharedPile::close`. Returns Missing if the pass lacks quota, receipts or rows; else Memory if an allocation
    /// fails. On error the pile and the pass come back.
    pub fn settle(self, alloc: Global, pass: Pass) -> Result<Record, (CloseFault, SharedPile, Pass)>
        requires { IsPassOf self pass }
        ensures missing { IfErr result (λ e. (e.0 ≡ CloseFault.Missing) ↔ ¬ IsWhole self.terms pass) }
        ensures whole { OnOk result (IsWhole self.terms pass) }
        ensures pile_back { IfErr result (λ e. e.1 ≡ self) }
        ensures pass_back { IfErr result (λ e. e.2 ≡ pass) }
        ensures closed { IfOk result (IsRecordOf self.terms pass) }
    {
        let mut history = match self.room_for_history(alloc, &pass) {
            Ok(history) => history,
            Err(fault) => return Err((fault, self, pass)),
        };
        let Pass { mut bare, receipts } = pass;
        let rest = match self.settle_rest(alloc, &mut bare) {
            Ok(rest) => rest,
            Err(fault) => return Err((fault, self, Pass { bare, receipts })),
        };
        self.write_history(&mut bare, &mut history, receipts.as_slice());
        Ok(self.complete(bare, rest, history))
    }

    /// The record of the pile with a pass that has gathered everything, the same as that of `SharedPile::settle`. The
    /// pile and the pass do not change, and may go on. Returns Missing if the pass lacks quota, receipts or rows; else
    /// Memory if an allocation fails.
    pub fn record_now(&self, alloc: Global, pass: &mut Pass) -> Result<Record, CloseFault>
        requires { IsPassOf self.now pass.old }
        ensures pass { pass.new ≡ pass.old }
        ensures missing { IfErr result (λ e. (e ≡ CloseFault.Missing) ↔ ¬ IsWhole self.now.terms pass.old) }
        ensures whole { OnOk result (IsWhole self.now.terms pass.old) }
        ensures record_now { IfOk result (IsRecordOf self.now.terms pass.old) }
    {
        let mut history = self.room_for_history(alloc, pass)?;
        let counts = Vec::from_slice(alloc, pass.bare.counts.as_slice())?;
        let start = copy_of(alloc, &self.words.terms().start)?;
        let Pass { bare, receipts } = pass;
        let rest = self.settle_rest(alloc, bare)?;
        self.write_history(bare, &mut history, receipts.as_slice());
        Ok(self.record_with(bare, start, history, counts, rest))
    }

    // The record of the pile with a whole pass, from copies of its start and its counts.
    fn record_with(
        &self,
        pass: &mut BarePass,
        start: Pile,
        history: Vec<usize>,
        counts: Vec<u64>,
        rest: Settled,
    ) -> Record
        requires pass { IsPassOf self.now pass.old }
        requires whole { IsWhole self.now.terms pass.old }
        requires start { start ≡ self.now.terms.start }
        requires tells { Tells pass.old.receipts history.items }
        requires len { length history.items ≡ length pass.old.receipts }
        requires counts { counts.items ≡ pass.old.counts }
        requires rest { IsRestOf self.now.terms pass.old rest }
        ensures pass { pass.new ≡ pass.old }
        ensures closed { IsRecordOf self.now.terms pass.old result }
    {
        self.words.learn::<Brand>(&mut pass.seat);
        record_of(start, history, counts, rest)
    }

    /// Settles what is left to topple, in plain memory, with a pass that has gathered everything. The shared pile and
    /// the pass do not change. Returns Missing if the pass lacks quota, receipts or rows; else Memory if an allocation
    /// fails.
    pub fn settle_rest(&self, alloc: Global, pass: &mut BarePass) -> Result<Settled, CloseFault>
        requires { IsPassOf self.now pass.old }
        ensures pass { pass.new ≡ pass.old }
        ensures missing { IfErr result (λ e. (e ≡ CloseFault.Missing) ↔ ¬ IsWhole self.now.terms pass.old) }
        ensures whole { OnOk result (IsWhole self.now.terms pass.old) }
        ensures rest { IfOk result (IsRestOf self.now.terms pass.old) }
    {
        if !pass.is_whole(self.words.terms()) {
            return Err(CloseFault::Missing);
        }
        let heights = Vec::with_capacity(alloc, pass.counts.len())?;
        let current = self.current_pile(pass, heights);
        match settle(alloc, &current) {
            Ok(rest) => Ok(rest),
            Err(SettleFault::Memory(error)) => Err(CloseFault::Memory(error)),
        }
    }

    // The shared pile as it is now, read into the given list by a whole pass.
    fn current_pile(&self, pass: &mut BarePass, mut heights: Vec<u64>) -> Pile
        requires pass { IsPassOf self.now pass.old }
        requires whole { IsWhole self.now.terms pass.old }
        requires room { (heights.items ≡ []) × (length pass.old.counts ≤ vec_capacity heights) }
        ensures pass { pass.new ≡ pass.old }
        ensures grid { result.grid ≡ grid_of_terms self.now.terms }
        ensures underway { IsUnderway (grid_of_terms self.now.terms)
            (start_and_receipts self.now.terms (at_rest pass.old)) (slice_index pass.old.counts) (height_of result) }
    {
        self.words.read(&mut pass.seat, &mut heights);
        Pile::from_vec(pass.shape, heights)
    }

    // Writes each receipt's site at its number, for a whole pass.
    fn write_history(&self, pass: &mut BarePass, history: &mut Vec<usize>, receipts: &[Receipt])
        requires pass { IsPassOf self.now pass.old }
        requires whole { IsWhole self.now.terms pass.old }
        requires receipts { receipts.now ≡ pass.old.receipts }
        requires len { length history.old.items ≡ length pass.old.receipts }
        ensures pass { pass.new ≡ pass.old }
        ensures tells { Tells pass.old.receipts history.new.items }
        ensures len { length history.new.items ≡ length pass.old.receipts }
    {
        self.words.learn::<Brand>(&mut pass.seat);
        fill(history, receipts);
    }

    /// Makes the record from what has toppled in place, the rest that `SharedPile::settle_rest` has settled, and the
    /// history of the pass's receipts.
    pub fn complete(self, pass: BarePass, rest: Settled, history: Vec<usize>) -> Record
        requires pass { IsPassOf self pass }
        requires whole { IsWhole self.terms pass }
        requires rest { IsRestOf self.terms pass rest }
        requires tells { Tells pass.receipts history.items }
        requires len { length history.items ≡ length pass.receipts }
        ensures history { result.history ≡ history.items }
        ensures closed { IsRecordOf self.terms pass result }
    {
        let SharedPile { words } = self;
        let BarePass {
            mut seat,
            counts,
            ..
        } = pass;
        words.learn::<Brand>(&mut seat);
        let Terms { start, quota: _ } = words.end(seat);
        record_of(start, history, counts, rest)
    }
}
