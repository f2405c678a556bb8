//! The pile of one thread, with lists of its heights and odometer that can be read at any time.
//!
//! Grains are dropped one by one, and each settles before the next. They are dropped on the same pile on tiles, a
//! `DrivenPile`. Then the heights and counts near the dropped site are read from there: its avalanche has changed no
//! other (`near`). After a far avalanche all are read, which is faster. The memory of the first drop serves all later
//! ones (`room_is_kept`). The record is the same as if all grains had been on the start together (`laws::drops_add_up`).

ghost use Rattle.std.specs.Prelude.{◌≡◌, ℕ, ◌+◌, ◌^◌, ◌<◌, ◌≤◌, ◌↔◌, List, [], ◌∷◌, ◌++◌, length, sum, IfOk, IfErr, IsSome, IsOk, OnOk, OnErr, IsTrue, IsOkUnless, MatchOption, alloc_error};
ghost use Rattle.sand_model.specs.Grid.{sites};
ghost use Rattle.sand_model.specs.Piles.{PileView, height_of, most_grains_on};
ghost use Rattle.sand_settle.specs.Settling.{odometer_of};
ghost use Rattle.sand_settle.specs.Avalanches.{IsAvalanche};
ghost use Rattle.sand_settle.specs.Drops.{grid_of_driven, topplings_between, driven_view, IsAfter, Drops, IsPaid};

use crate::driven_pile::DrivenPile;
use crate::faults::OneFault;
use crate::settled::Settled;
use crate::settling::settle;
use core::mem::replace_with;
use sand_fronts::Avalanche;
use sand_model::Pile;
use std::alloc::{AllocError, Global};
use std::marker::Model;

/// A pile on which one thread drops grains one by one, with all topplings since its start. It is for programs that read
/// many sites after each drop; `DrivenPile` is faster if they read few, or all sites only now and then.
#[derive(Drop)]
pub struct OnePile {
    settled: Settled,
    // The same record on tiles, where sand topples. Made at the first drop.
    driven: Option<DrivenPile>,
    number: u64,
}

impl Model for OnePile {
    ghost use Rattle.sand_settle.specs.Drops.{DrivenView, driven_view, IsOnePile};

    ghost Value = { DrivenView };

    ghost view = { λ p. driven_view p.settled p.number };

    ghost invariant = { λ p. IsOnePile p.settled p.driven p.number };
}

// Drops a grain at a site of a driven pile, and brings its settled record up to date.
fn drop_grain(settled: Settled, drop: (DrivenPile, usize)) -> (Settled, (DrivenPile, Avalanche))
    requires same { drop.0 ≡ driven_view settled drop.0.number }
    requires site { drop.1 < sites settled.pile.grid }
    requires paid { IsPaid settled }
    requires room { drop.0.grains < most_grains_on (grid_of_driven drop.0) }
    ensures same { result.1.0 ≡ driven_view result.0 result.1.0.number }
    ensures drops { Drops drop.0 drop.1 result.1.0 }
    ensures avalanche { IsAvalanche settled.pile.grid drop.1 (topplings_between settled result.0) result.1.1 }
{
    let (mut driven, site) = drop;
    let Settled {
        pile,
        mut odometer,
        ..
    } = settled;
    let grains = pile.grains() + 1;
    let (shape, mut heights) = pile.into_parts();
    let (_, avalanche) = driven.drop_at(site).unwrap();
    let reach = avalanche.reach as usize;
    driven.update_heights(&mut heights, site, reach + 1);
    driven.update_odometer(&mut odometer, site, reach);
    let record = Settled {
        pile: Pile::from_counted(shape, heights, grains - avalanche.lost),
        odometer,
        topplings: driven.topplings(),
        lost: driven.lost(),
    };
    (record, (driven, avalanche))
}

// The driven pile of the last drop, or a new one of a settled record.
fn take_driven(
    alloc: Global,
    settled: &Settled,
    kept: &mut Option<DrivenPile>,
) -> Result<DrivenPile, OneFault>
    requires paid { IsPaid settled.now }
    ensures driven { IfOk result (λ v. MatchOption kept.old (v ≡ driven_view settled.now 0) (λ w. v ≡ w)) }
    ensures kept { IsSome kept.old → IsOk result }
    ensures memory { IsOkUnless result (OneFault.Memory alloc_error) }
    ensures unchanged { OnErr result (kept.new ≡ kept.old) }
{
    if let Some(driven) = kept.take() {
        return Ok(driven);
    }
    let Ok(copy) = settled.copy(alloc) else {
        return Err(OneFault::Memory(AllocError));
    };
    DrivenPile::of_settled(alloc, copy)
}

impl OnePile {
    /// The settled start, before any drop. Fails only if an allocation fails (Memory).
    pub fn new(alloc: Global, start: &Pile) -> Result<OnePile, OneFault>
        ensures settled { IfOk result (λ v. IsAfter start.now [] v) }
        ensures memory { IsOkUnless result (OneFault.Memory alloc_error) }
    {
        let settled = settle(alloc, start)?;
        // For the proof: the start's grains are within the limit, so those on the settled pile and those lost are too.
        let _ = start.grains();
        Ok(OnePile {
            settled,
            driven: None,
            number: 0,
        })
    }

    /// Drops a grain at a site, and topples until the pile is stable. Returns the number of the drop, from 0 on, and
    /// its avalanche. Fails if the start and all drops have reached the grain limit (Full), otherwise if an allocation
    /// fails (Memory), and then changes nothing. After the first drop, no drop fails with Memory.
    pub fn drop_at(&mut self, alloc: Global, site: usize) -> Result<(u64, Avalanche), OneFault>
        requires { site < sites (grid_of_driven self.old) }
        ensures number { IfOk result (λ r. r.0 ≡ self.old.number) }
        ensures avalanche { IfOk result (λ r.
            IsAvalanche (grid_of_driven self.old) site (topplings_between self.old.settled self.new.settled) r.1) }

        // From the record before, and from any start and drops that lead to it.
        ensures drops { OnOk result (Drops self.old site self.new) }
        ensures after { OnOk result ((start : PileView) (history : List ℕ) → IsAfter start history self.old
            → IsAfter start (history ++ site ∷ []) self.new) }

        ensures full { (result ≡ Err OneFault.Full) ↔ (self.old.grains ≡ most_grains_on (grid_of_driven self.old)) }
        ensures err { OnErr result (self.new ≡ self.old) }

        // The memory of the first drop serves all later ones.
        ensures room_is_kept { 0 < self.old.number → IfErr result (λ e. e ≡ OneFault.Full) }
    {
        if self.is_full() {
            return Err(OneFault::Full);
        }
        let driven = take_driven(alloc, &self.settled, &mut self.driven)?;
        let (driven, avalanche) = replace_with(&mut self.settled, (driven, site), drop_grain);
        let number = self.number;
        self.number = driven.tally();
        self.driven = Some(driven);
        Ok((number, avalanche))
    }

    fn is_full(&self) -> bool
        ensures full { IsTrue result ↔ (self.now.grains ≡ most_grains_on (grid_of_driven self.now)) }
        ensures limit { self.now.grains ≤ most_grains_on (grid_of_driven self.now) }
    {
        let settled = self.settled();
        let limit = settled.pile().shape().grain_limit();
        settled.pile().grains() + settled.lost() == limit
    }

    fn settled(&self) -> &Settled
        ensures value { result.now ≡ self.now.settled }
        ensures paid { IsPaid self.now.settled }
        ensures grains { self.now.grains ≡ sum self.now.settled.pile.heights + self.now.settled.lost }
    {
        &self.settled
    }

    /// The number of drops.
    pub fn tally(&self) -> u64
        ensures { result ≡ self.now.number }
    {
        self.number
    }

    pub fn pile(&self) -> &Pile
        ensures { result.now ≡ self.now.settled.pile }
    {
        self.settled().pile()
    }

    pub fn height(&self, site: usize) -> u64
        requires { site < sites (grid_of_driven self.now) }
        ensures { result ≡ height_of self.now.settled.pile site }
    {
        self.pile().height(site)
    }

    /// How often a site has toppled since the start, including its settling.
    pub fn odometer(&self, site: usize) -> u64
        requires { site < sites (grid_of_driven self.now) }
        ensures { result ≡ odometer_of self.now.settled site }
    {
        self.settled().odometer(site)
    }

    /// The same for all sites, by site.
    pub fn odometers(&self) -> &[u64]
        ensures value { result.now ≡ self.now.settled.odometer }
        ensures len { length self.now.settled.odometer ≡ sites (grid_of_driven self.now) }
    {
        self.settled().odometers()
    }

    /// The number of topplings since the start, including its settling.
    pub fn topplings(&self) -> u64
        ensures value { result ≡ self.now.settled.topplings }
        ensures bound { result < 2 ^ 54 }
    {
        self.settled().topplings()
    }

    /// The number of grains that fell into the sink since the start, including its settling.
    pub fn lost(&self) -> u64
        ensures { result ≡ self.now.settled.lost }
    {
        self.settled().lost()
    }
}
