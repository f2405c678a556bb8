//! Closing a shared pile with a pass that has gathered everything: it sweeps until nothing topples.
//!
//! Then the pass's counts are all topplings and nothing is in hand, so the heights are the start plus all drops, minus
//! what toppled. Each height is at most 3, and no site toppled more often than needed: this is the settled pile with
//! its least odometer.

ghost use Rattle.std.specs.Prelude.{◌≡◌, ℕ, ◌<◌, ◌≤◌, ◌↔◌, [], length, slice_index, vec_capacity, IfOk, IfErr, OnOk, All};
ghost use Rattle.sand_model.specs.Grid.{sites};
ghost use Rattle.sand_shared.specs.OpenPile.{grid_of_terms};
ghost use Rattle.sand_shared.specs.Events.{looked};
ghost use Rattle.sand_shared.specs.Passes.{IsPassOf, IsWhole, EachOnce};
ghost use Rattle.sand_shared.specs.Record.{Tells, IsRecordOf};
ghost use Rattle.sand_shared.specs.Seats.{IsSeatAt, StaysSeated};
ghost use Rattle.sand_shared.specs.Sweeps.{IsCalm, with_counts};

use crate::bare_pass::BarePass;
use crate::faults::CloseFault;
use crate::pass::Pass;
use crate::record::Record;
use crate::shared_pile::SharedPile;
use crate::steps::{PassSeat, Words};
use crate::view::{Receipt, Terms};
use std::alloc::Global;

impl Words {
    fn sweep_out(&self, seat: &mut PassSeat, counts: &mut Vec<u64>)
        requires seat { IsSeatAt self.now seat.old }
        requires hand { seat.old.me.0.hand ≡ [] }
        requires counts { (seat.old.me.0.base ≡ 0) × (seat.old.me.0.counts ≡ counts.old.items) }
        requires all { length counts.old.items ≡ sites (grid_of_terms self.now.terms) }
        ensures seat { StaysSeated seat.old seat.new }
        ensures view { seat.new.me.0
            ≡ record (looked seat.old.me.0 seat.new.me.0.spot seat.new.me.0.least) { counts = counts.new.items } }
        ensures len { length counts.new.items ≡ length counts.old.items }
        ensures never_fall { (j : ℕ) → slice_index counts.old.items j ≤ slice_index counts.new.items j }
        ensures calm { IsCalm self.now.terms (with_counts seat.old.me.0 counts.new.items) }
    {
        'sweeps: while self.sweep_rows(seat, 0, counts) != 0 {}
    }
}

// Writes each receipt's site at its number.
pub(crate) fn fill(history: &mut Vec<usize>, receipts: &[Receipt])
    requires inside { All (λ r. r.number < length history.old.items) receipts.now }
    requires once { EachOnce receipts.now }
    ensures tells { Tells receipts.now history.new.items }
    ensures len { length history.new.items ≡ length history.old.items }
{
    for receipt in receipts {
        history[receipt.number as usize] = receipt.site;
    }
}

impl SharedPile {
    /// Closes the pile with a pass that has gathered everything, and returns the record, the same as
    /// `SharedPile::settle`. Returns Missing if the pass lacks quota, receipts or rows; else Memory if an allocation
    /// fails. On error nothing has toppled, and the pile and the pass come back.
    pub fn close(self, alloc: Global, pass: Pass) -> Result<Record, (CloseFault, SharedPile, Pass)>
        requires { IsPassOf self pass }
        ensures missing { IfErr result (λ e. (e.0 ≡ CloseFault.Missing) ↔ ¬ IsWhole self.terms pass) }
        ensures whole { OnOk result (IsWhole self.terms pass) }
        ensures pile_back { IfErr result (λ e. e.1 ≡ self) }
        ensures pass_back { IfErr result (λ e. e.2 ≡ pass) }
        ensures closed { IfOk result (IsRecordOf self.terms pass) }
    {
        let history = match self.room_for_history(alloc, &pass) {
            Ok(history) => history,
            Err(fault) => return Err((fault, self, pass)),
        };
        let heights = match Vec::with_capacity(alloc, pass.bare.counts.len()) {
            Ok(heights) => heights,
            Err(error) => return Err((error.into(), self, pass)),
        };
        let Pass { bare, receipts } = pass;
        Ok(self.topple_out(bare, receipts.as_slice(), history, heights))
    }

    // A history with an entry for each receipt, if the pass is whole.
    pub(crate) fn room_for_history(
        &self,
        alloc: Global,
        pass: &Pass,
    ) -> Result<Vec<usize>, CloseFault>
        requires { IsPassOf self.now pass.now }
        ensures missing { IfErr result (λ e. (e ≡ CloseFault.Missing) ↔ ¬ IsWhole self.now.terms pass.now) }
        ensures whole { OnOk result (IsWhole self.now.terms pass.now) }
        ensures history { IfOk result (λ v. length v.items ≡ length pass.now.receipts) }
    {
        if !self.is_whole(pass) {
            return Err(CloseFault::Missing);
        }
        Ok(vec![in alloc; 0usize; pass.receipts.len()]?)
    }

    // Sweeps until nothing topples, and writes the record into the given lists.
    fn topple_out(
        self,
        pass: BarePass,
        receipts: &[Receipt],
        mut history: Vec<usize>,
        mut heights: Vec<u64>,
    ) -> Record
        requires pass { IsPassOf self pass }
        requires whole { IsWhole self.terms pass }
        requires receipts { receipts.now ≡ pass.receipts }
        requires history { length history.items ≡ length pass.receipts }
        requires heights { (heights.items ≡ []) × (length pass.counts ≤ vec_capacity heights) }
        ensures { IsRecordOf self.terms pass result }
    {
        let SharedPile { words } = self;
        let BarePass {
            mut seat,
            mut counts,
            ..
        } = pass;
        words.sweep_out(&mut seat, &mut counts);
        let Terms { start, quota: _ } = words.close(seat, &mut heights);
        fill(&mut history, receipts);
        Record::of_lists(start, history, heights, counts)
    }
}
