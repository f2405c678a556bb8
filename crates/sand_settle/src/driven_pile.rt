//! The pile of one thread, driven by fronts: like `OnePile`, but its heights and odometer are on tiles until read.
//!
//! All memory is allocated with the pile, so no drop allocates. A drop topples 64 sites a step (`sand_fronts`). Its
//! result is the settled record of the start and the drops, by the same definitions (`IsAfter`, `Drops`,
//! `IsAvalanche`). No count overflows, because of the weight: each grain weighs little, and a toppling takes 2
//! (`IsPaid`).

ghost use Rattle.std.specs.Prelude.{◌≡◌, ℕ, ◌+◌, ◌^◌, ◌<◌, ◌≤◌, ◌↔◌, List, [], ◌∷◌, ◌++◌, length, sum, slice_index, IfOk, OnOk, OnErr, IfErr, IsOkUnless, alloc_error};
ghost use Rattle.sand_model.specs.Grid.{sites};
ghost use Rattle.sand_model.specs.Piles.{PileView, height_of, most_grains, most_grains_on};
ghost use Rattle.sand_settle.specs.Avalanches.{IsAvalanche};
ghost use Rattle.sand_settle.specs.Settling.{odometer_of};
ghost use Rattle.sand_settle.specs.Drops.{grid_of_driven, topplings_between, IsAfter, Drops, IsPaid, driven_view};
ghost use Rattle.sand_settle.specs.Waves.{HasDropped, HasDroppedInWaves};
ghost use Rattle.sand_settle.specs.Near.{AgreeFar};

use crate::faults::OneFault;
use crate::near::write_near;
use crate::settled::Settled;
use crate::settling::settle;
use sand_fronts::{Avalanche, TiledPile};
use sand_model::{Pile, Shape};
use std::alloc::{AllocError, Global};
use std::marker::Model;

// To read all sites at once is faster than to read those within a greater reach one by one.
const FAR: usize = 80;

/// A pile on which one thread drops grains one by one, with all topplings since its start. It is for many drops, between
/// which at most single sites are read; `OnePile` keeps whole lists up to date.
#[derive(Drop)]
pub struct DrivenPile {
    // The settled start, for its odometer.
    start: Settled,
    // The heights now, and the topplings since the start was settled.
    tiles: TiledPile,
    number: u64,
    topplings: u64,
    lost: u64,
    // The grains of the start and of the drops.
    grains: u64,
}

impl Model for DrivenPile {
    ghost use Rattle.sand_settle.specs.Drops.{DrivenView, driven_view};
    ghost use Rattle.sand_settle.specs.Driven.{driven_record, IsDriven};

    ghost Value = { DrivenView };

    ghost view = { λ p. driven_view (driven_record p.start p.tiles p.topplings p.lost) p.number };

    ghost invariant = { λ p. IsDriven p.start p.tiles p.number p.topplings p.lost p.grains };
}

impl DrivenPile {
    /// The settled start, before any drop. Fails only if an allocation fails (Memory).
    pub fn new(alloc: Global, start: &Pile) -> Result<DrivenPile, OneFault>
        ensures settled { IfOk result (λ v. IsAfter start.now [] v) }
        ensures memory { IsOkUnless result (OneFault.Memory alloc_error) }
    {
        let settled = settle(alloc, start)?;
        // For the proof: the start's grains are within the limit, so those on the settled pile and those lost are too.
        let _ = start.grains();
        let pile = DrivenPile::of_settled(alloc, settled)?;
        Ok(pile)
    }

    /// A settled record, before any drop on it. Fails only if an allocation fails (Memory).
    pub(crate) fn of_settled(alloc: Global, settled: Settled) -> Result<DrivenPile, OneFault>
        requires { IsPaid settled }
        ensures settled { IfOk result (λ v. v ≡ driven_view settled 0) }
        ensures memory { IsOkUnless result (OneFault.Memory alloc_error) }
    {
        let shape = settled.pile().shape();
        let Ok(tiles) = TiledPile::new(alloc, shape, settled.pile().heights()) else {
            return Err(OneFault::Memory(AllocError));
        };
        let (topplings, lost) = (settled.topplings(), settled.lost());
        let grains = settled.pile().grains() + lost;
        Ok(DrivenPile {
            start: settled,
            tiles,
            number: 0,
            topplings,
            lost,
            grains,
        })
    }

    /// Drops a grain at a site, and topples until the pile is stable. Returns the number of the drop, from 0 on, and
    /// its avalanche. Fails only if the start and all drops have reached the grain limit (Full), and then changes
    /// nothing.
    pub fn drop_at(&mut self, site: usize) -> Result<(u64, Avalanche), OneFault>
        requires { site < sites (grid_of_driven self.old) }
        ensures number { IfOk result (λ r. r.0 ≡ self.old.number) }
        ensures avalanche { IfOk result (λ r.
            IsAvalanche (grid_of_driven self.old) site (topplings_between self.old.settled self.new.settled) r.1) }

        // From the record before, and from any start and drops that lead to it.
        ensures drops { OnOk result (Drops self.old site self.new) }
        ensures after { OnOk result ((start : PileView) (history : List ℕ) → IsAfter start history self.old
            → IsAfter start (history ++ site ∷ []) self.new) }

        ensures full { (result ≡ Err OneFault.Full) ↔ (self.old.grains ≡ most_grains_on (grid_of_driven self.old)) }
        ensures err { OnErr result (self.new ≡ self.old) }
        ensures no_other { IfErr result (λ e. e ≡ OneFault.Full) }
    {
        let (number, avalanche, _) = self.drop_with_waves(site, &mut [])?;
        Ok((number, avalanche))
    }

    /// The same, and writes the size of each wave of the avalanche to a list, as many as it has room for. Also returns
    /// the number of waves.
    pub fn drop_with_waves(
        &mut self,
        site: usize,
        sizes: &mut [u64],
    ) -> Result<(u64, Avalanche, usize), OneFault>
        requires { site < sites (grid_of_driven self.old) }
        ensures dropped { IfOk result (λ r. HasDropped self.old site r.0 r.1 self.new) }
        ensures waves { IfOk result (λ r. HasDroppedInWaves self.old site r.2 r.1 sizes.old sizes.new self.new) }
        ensures full { (result ≡ Err OneFault.Full) ↔ (self.old.grains ≡ most_grains_on (grid_of_driven self.old)) }
        ensures err { OnErr result (self.new ≡ self.old) }
        ensures no_other { IfErr result (λ e. e ≡ OneFault.Full) }
        ensures sizes { OnErr result (sizes.new ≡ sizes.old) }
    {
        if self.grains == self.limit() {
            return Err(OneFault::Full);
        }
        let (avalanche, waves) = self.tiles.drop_with_waves(site, sizes);
        let number = self.number;
        self.number = number + 1;
        self.topplings += avalanche.size;
        self.lost += avalanche.lost;
        self.grains += 1;
        Ok((number, avalanche, waves))
    }

    // The most grains of the start and the drops.
    #[inline(always)]
    fn limit(&self) -> u64
        ensures value { result ≡ most_grains_on (grid_of_driven self.now) }
        ensures small { result ≤ most_grains }
    {
        self.shape().grain_limit()
    }

    pub fn shape(&self) -> Shape
        ensures value { result ≡ grid_of_driven self.now }
        ensures paid { IsPaid self.now.settled }
    {
        self.start.pile().shape()
    }

    /// The number of drops.
    pub fn tally(&self) -> u64
        ensures { result ≡ self.now.number }
    {
        self.number
    }

    pub fn height(&self, site: usize) -> u64
        requires { site < sites (grid_of_driven self.now) }
        ensures { result ≡ height_of self.now.settled.pile site }
    {
        self.tiles.height(site)
    }

    /// The number of topplings since the start, including its settling.
    pub fn topplings(&self) -> u64
        ensures { result ≡ self.now.settled.topplings }
    {
        self.topplings
    }

    /// The number of grains that fell into the sink since the start, including its settling.
    pub fn lost(&self) -> u64
        ensures { result ≡ self.now.settled.lost }
    {
        self.lost
    }

    /// How often a site has toppled since the start, including its settling.
    pub fn odometer(&self, site: usize) -> u64
        requires { site < sites (grid_of_driven self.now) }
        ensures { result ≡ odometer_of self.now.settled site }
    {
        self.start.odometer(site) + self.tiles.times(site)
    }

    /// Writes the height of each site. It is faster than to read them one by one.
    pub fn read_heights(&self, heights: &mut [u64])
        requires { length heights.old ≡ sites (grid_of_driven self.now) }
        ensures { heights.new ≡ self.now.settled.pile.heights }
    {
        self.tiles.read_heights(heights);
    }

    /// Writes how often each site has toppled since the start, including its settling. It is faster than to read the
    /// sites one by one.
    pub fn read_odometer(&self, odometer: &mut [u64])
        requires { length odometer.old ≡ sites (grid_of_driven self.now) }
        ensures { odometer.new ≡ self.now.settled.odometer }
    {
        odometer.copy_from_slice(self.start.odometers());
        self.tiles.add_times(odometer);
    }

    /// Brings a list of the heights up to date that has those of all sites farther from a site than a reach.
    pub(crate) fn update_heights(&self, heights: &mut [u64], site: usize, reach: usize)
        requires site { site < sites (grid_of_driven self.now) }
        requires fits { reach < 2 ^ 33 }
        requires len { length heights.old ≡ sites (grid_of_driven self.now) }
        requires far { AgreeFar (grid_of_driven self.now) site reach (slice_index heights.old)
            (height_of self.now.settled.pile) }
        ensures { heights.new ≡ self.now.settled.pile.heights }
    {
        if reach > FAR {
            self.read_heights(heights);
            return;
        }
        let height_at = |i: usize| -> u64
            requires { i < sites (grid_of_driven self.now) }
            ensures { result ≡ height_of self.entry.now.settled.pile i }
        { self.height(i) };
        write_near(self.shape(), site, reach, heights, &height_at);
    }

    /// Brings a list of how often each site has toppled up to date that has this of all sites farther from a site than a
    /// reach. After a drop at that site, which topples no site farther away, it is faster than to read all sites.
    pub fn update_odometer(&self, odometer: &mut [u64], site: usize, reach: usize)
        requires site { site < sites (grid_of_driven self.now) }
        requires fits { reach < 2 ^ 33 }
        requires len { length odometer.old ≡ sites (grid_of_driven self.now) }
        requires far { AgreeFar (grid_of_driven self.now) site reach (slice_index odometer.old)
            (odometer_of self.now.settled) }
        ensures { odometer.new ≡ self.now.settled.odometer }
    {
        if reach > FAR {
            self.read_odometer(odometer);
            return;
        }
        let count_at = |i: usize| -> u64
            requires { i < sites (grid_of_driven self.now) }
            ensures { result ≡ odometer_of self.entry.now.settled i }
        { self.odometer(i) };
        write_near(self.shape(), site, reach, odometer, &count_at);
    }

    /// The settled record of the start and all drops, without a copy.
    pub fn finish(self) -> Settled
        ensures value { result ≡ self.settled }
        ensures kept { result.lost + sum result.pile.heights ≡ self.grains }
    {
        let DrivenPile {
            start,
            tiles,
            topplings,
            lost,
            grains,
            ..
        } = self;
        let Settled {
            pile,
            mut odometer,
            ..
        } = start;
        let (shape, mut heights) = pile.into_parts();
        tiles.read_heights(&mut heights);
        tiles.add_times(&mut odometer);
        Settled {
            pile: Pile::from_counted(shape, heights, grains - lost),
            odometer,
            topplings,
            lost,
        }
    }
}
