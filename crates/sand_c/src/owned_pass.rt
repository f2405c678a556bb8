//! A pass that owns a share of its pile.
//!
//! A pass borrows nothing, but each of its calls takes the pile by reference. So C holds both: the pass, and one of the
//! owners of the pile. The pile is freed with the last of its passes.

ghost use Rattle.std.specs.Prelude.{◌≡◌, ◌+◌, ◌<◌, ◌↔◌, ◌⊎◌, length, sum, IfOk, IfErr, OnOk, OnErr, Ok, Err, IsTrue};
ghost use Rattle.sand_model.specs.Piles.{most_grains_on};
ghost use Rattle.sand_shared.specs.Passes.{IsPassOf};
ghost use Rattle.sand_shared.specs.Rows.{AreApart};
ghost use Rattle.sand_c.specs.OwnedPasses.{IsFirst};
ghost use Rattle.sand_c.specs.Arguments.{Fails};
ghost use Rattle.sand_c.specs.Passing.{HaveDropped, HasSwept, HasCounted, AreSplit, AreSplitByRows, AreJoined, IsRecordTo, RecordFails, are_together, drops_by, quota_of, rows_of, record_to, holding_of};

use crate::dropping::are_sites;
use crate::faults::Fault;
use crate::holding::SandpileHolding;
use sand_model::{Pile, Shape};
use sand_shared::{CloseFault, Pass, Record, SharedFault, SharedPile, SiteCounts};
use std::alloc::{AllocError, Global};
use std::marker::Model;
use std::sync::Arc;
use std::sync::atomic::AtomicU64;
use std::sync::atomic::Ordering::SeqCst;

// How often `is_of_pile` looks. Joins of passes of the other pile can deceive it only if one happens during each look.
const LOOKS: u32 = 64;

/// A pass, a share of its pile, counters for its lists of drops, a number that all passes of its pile share, and a number
/// of its own.
#[derive(Drop)]
pub struct OwnedPass {
    pile: Arc<SharedPile>,
    mark: Arc<AtomicU64>,
    own: AtomicU64,
    pass: Pass,
    counts: SiteCounts,
    shape: Shape,
}

impl Model for OwnedPass {
    ghost use Rattle.std.specs.Arc.{arc_value};
    ghost use Rattle.sand_c.specs.OwnedPasses.{OwnedPassView, IsOwned};

    ghost Value = { OwnedPassView };

    ghost view = { λ s. record { pile = arc_value s.pile; pass = s.pass } };

    ghost invariant = { λ s. IsOwned (record { pile = arc_value s.pile; pass = s.pass }) s.counts s.shape };
}

// Whether neither of two groups of rows follows the other.
fn are_apart(rows: (u16, u16), others: (u16, u16)) -> bool
    ensures { IsTrue result ↔ AreApart (record { first = rows.0; end = rows.1 }) (record { first = others.0; end = others.1 }) }
{
    rows.0 != rows.1 && others.0 != others.1 && others.0 != rows.1 && rows.0 != others.1
}

impl OwnedPass {
    /// The first pass of a new pile.
    pub(crate) fn first(alloc: Global, start: &Pile, quota: u64) -> Result<OwnedPass, Fault>
        ensures limit { (result ≡ Err Fault.TooManyGrains) ↔ (most_grains_on start.now.grid < sum start.now.heights + quota) }
        ensures other { IfErr result (λ e. (e ≡ Fault.TooManyGrains) ⊎ (e ≡ Fault.Memory)) }
        ensures first { IfOk result (IsFirst start.now quota) }
    {
        let (pile, pass) = match SharedPile::new(alloc, start, quota) {
            Ok(made) => made,
            Err(SharedFault::TooManyGrains) => return Err(Fault::TooManyGrains),
            Err(SharedFault::Memory(_)) => return Err(Fault::Memory),
        };
        let shape = start.shape();
        let counts = SiteCounts::new(alloc, shape)?;
        let mark = Arc::new(alloc, AtomicU64::new(0))?;
        let pile = Arc::new(alloc, pile)?;
        Ok(OwnedPass {
            pile,
            mark,
            own: AtomicU64::new(0),
            pass,
            counts,
            shape,
        })
    }

    /// Drops a grain on each site of a list, in order, with consecutive numbers. Returns the first number.
    pub(crate) fn drop_all(&mut self, drops: &[usize]) -> Result<u64, Fault>
        ensures dropped { IfOk result (λ n. HaveDropped self.old drops.now n self.new) }
        ensures may { OnOk result (drops_by self.old drops.now ≡ Ok self.old) }
        ensures fault { IfErr result (λ e. drops_by self.old drops.now ≡ Err e) }
        ensures unchanged { OnErr result (self.new ≡ self.old) }
    {
        if !are_sites(drops, self.shape.sites()) {
            return Err(Fault::NoSite);
        }
        match self.pile.drop_all(&mut self.pass, drops, &mut self.counts) {
            Ok(number) => Ok(number),
            Err(_) => Err(Fault::Spent),
        }
    }

    /// How many drops have begun so far.
    pub(crate) fn tally(&mut self) -> u64
        ensures { HasCounted self.old result self.new }
    {
        self.pile.tally(&mut self.pass)
    }

    /// Sweeps once over the rows of the pass. Returns the number of topplings.
    pub(crate) fn sweep(&mut self) -> u64
        ensures { HasSwept self.old result self.new }
    {
        self.pile.sweep(&mut self.pass)
    }

    // A pass of the pile with nothing, in a block of its own.
    fn blank(&mut self, alloc: Global) -> Result<Box<OwnedPass>, AllocError>
        ensures pile { IfOk result (λ b. b.value.pile ≡ self.old.pile) }
        ensures unchanged { self.new ≡ self.old }
    {
        let shape = self.shape;
        let counts = SiteCounts::new(alloc, shape)?;
        let pile = Arc::try_clone(&self.pile)?;
        let mark = Arc::try_clone(&self.mark)?;
        let Ok(pass) = self.pile.split(alloc, &mut self.pass, 0) else {
            return Err(AllocError);
        };
        let owned = OwnedPass {
            pile,
            mark,
            own: AtomicU64::new(0),
            pass,
            counts,
            shape,
        };
        Ok(Box::new(alloc, owned)?)
    }

    /// A new pass of the pile with part of the quota.
    pub(crate) fn split(&mut self, alloc: Global, quota: u64) -> Result<Box<OwnedPass>, Fault>
        ensures split { IfOk result (λ child. AreSplit self.old quota self.new child.value) }
        ensures may { OnOk result (quota_of self.old quota ≡ Ok self.old) }
        ensures fault { IfErr result (λ e. Fails e (quota_of self.old quota)) }
        ensures unchanged { OnErr result (self.new ≡ self.old) }
    {
        if self.pass.left() < quota {
            return Err(Fault::TooMuch);
        }
        // With a block for it, so that nothing can fail once the quota has been split.
        let mut child = self.blank(alloc)?;
        // All other faults are ruled out.
        let Ok(pass) = self.pile.split(alloc, &mut self.pass, quota) else {
            return Err(Fault::Memory);
        };
        child.pass = pass;
        Ok(child)
    }

    /// A new pass of the pile with the last `k` rows.
    pub(crate) fn split_rows(&mut self, alloc: Global, k: u16) -> Result<Box<OwnedPass>, Fault>
        ensures split { IfOk result (λ child. AreSplitByRows self.old k self.new child.value) }
        ensures may { OnOk result (rows_of self.old k ≡ Ok self.old) }
        ensures fault { IfErr result (λ e. Fails e (rows_of self.old k)) }
        ensures unchanged { OnErr result (self.new ≡ self.old) }
    {
        let (first, end) = self.pass.rows();
        if end.saturating_sub(first) < k {
            return Err(Fault::Rows);
        }
        let mut child = self.blank(alloc)?;
        // All other faults are ruled out.
        let Ok(pass) = self.pile.split_rows(alloc, &mut self.pass, k) else {
            return Err(Fault::Memory);
        };
        child.pass = pass;
        Ok(child)
    }

    // Takes the pass out, and leaves one with nothing.
    fn give(&mut self, alloc: Global) -> Result<Pass, AllocError>
        ensures given { IfOk result (λ p. p ≡ self.old.pass) }
        ensures of_pile { IfOk result (λ p. IsPassOf self.old.pile p) }
        ensures pile { self.new.pile ≡ self.old.pile }
        ensures unchanged { OnErr result (self.new ≡ self.old) }
    {
        match self.pile.split(alloc, &mut self.pass, 0) {
            Ok(blank) => Ok(std::mem::replace(&mut self.pass, blank)),
            Err(_) => Err(AllocError),
        }
    }

    // Whether both passes are of one pile, by a number that all passes of a pile share: it rises at each look. No proof
    // relies on this test.
    fn is_of_pile(&self, other: &OwnedPass) -> bool {
        for _ in 0..LOOKS {
            let before = other.mark.load(SeqCst);
            self.mark.fetch_add(1, SeqCst);
            if other.mark.load(SeqCst) == before {
                return false;
            }
        }
        true
    }

    /// Adds to the pass's own number, and returns what it was. So two handles can be asked whether they hold the same pass,
    /// which no contract can say.
    pub(crate) fn count(&self, more: u64) -> u64 {
        self.own.fetch_add(more, SeqCst)
    }

    /// Joins another pass of the pile to this one, and leaves a pass with nothing in its place.
    pub(crate) fn join(&mut self, alloc: Global, other: &mut OwnedPass) -> Result<(), Fault>
        requires { other.old.pile ≡ self.old.pile }
        ensures joined { OnOk result (AreJoined self.old other.old self.new) }
        ensures fault { IfErr result (λ e. (e ≡ Fault.OtherPile) ⊎ Fails e (are_together self.old other.old)) }
        ensures may { OnOk result (are_together self.old other.old ≡ Ok self.old) }
        ensures back { OnErr result (other.new ≡ other.old) }
        ensures unchanged { OnErr result (self.new ≡ self.old) }
    {
        if !self.is_of_pile(other) {
            return Err(Fault::OtherPile);
        }
        if are_apart(self.pass.rows(), other.pass.rows()) {
            return Err(Fault::Apart);
        }
        let pass = other.give(alloc)?;
        match self.pile.join(alloc, &mut self.pass, pass) {
            Ok(()) => Ok(()),
            Err((_, pass)) => {
                other.pass = pass;
                // Apart is ruled out.
                Err(Fault::Memory)
            }
        }
    }

    /// The record of the pile, if arrays of these lengths suit it and the pass is whole. The pile and the pass do not
    /// change.
    pub(crate) fn record_now(
        &mut self,
        alloc: Global,
        heights: usize,
        odometer: usize,
        history: usize,
    ) -> Result<Record, Fault>
        ensures settled { IfOk result (λ r. IsRecordTo
            r.settled.pile.heights r.settled.odometer r.history r.settled.topplings r.settled.lost self.old) }
        ensures fault { IfErr result (λ e. RecordFails e (record_to self.old heights odometer history)) }
        ensures unchanged { self.new ≡ self.old }
        ensures heights { IfOk result (λ r. heights ≡ length r.settled.pile.heights) }
        ensures odometer { IfOk result (λ r. odometer ≡ length r.settled.odometer) }
        ensures history { IfOk result (λ r. history ≡ length r.history) }
    {
        let sites = self.shape.sites();
        if heights != sites || odometer != sites || history != self.pass.receipts().len() {
            return Err(Fault::Length);
        }
        match self.pile.record_now(alloc, &mut self.pass) {
            Ok(settled) => Ok(settled),
            Err(CloseFault::Missing) => Err(Fault::Missing),
            Err(CloseFault::Memory(_)) => Err(Fault::Memory),
        }
    }

    /// What the pass holds.
    pub(crate) fn holding(&self) -> SandpileHolding
        ensures { result ≡ holding_of self.now.pass }
    {
        let (first_row, end_row) = self.pass.rows();
        SandpileHolding {
            left: self.pass.left(),
            seen: self.pass.seen(),
            drops: self.pass.receipts().len(),
            first_row,
            end_row,
        }
    }
}
