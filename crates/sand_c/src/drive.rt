//! A driven pile that knows how many more grains it takes.

ghost use Rattle.std.specs.Prelude.{◌≡◌, ◌+◌, ◌<◌, ◌≤◌, [], All, length, IfOk, IfErr, OnOk, OnErr, Ok, Err, IsOk};
ghost use Rattle.sand_model.specs.Grid.{sites};
ghost use Rattle.sand_model.specs.Piles.{most_grains_on};
ghost use Rattle.sand_settle.specs.Drops.{grid_of_driven, IsAfter};
ghost use Rattle.sand_c.specs.Driving.{HaveDriven, HasDriven, IsReading, IsSiteOf, drops_on_drive, drop_on_drive, entries_of, with_site};
ghost use Rattle.sand_c.specs.Waves.{HaveDrivenInWaves, waves_on_drive};

use crate::dropping::{are_sites, drop_all, drop_grain};
use crate::faults::Fault;
use crate::kept_odometer::{keep_odometer, take_topplings};
use crate::waves::drop_all_in_list;
use crate::{SandpileAvalanche, SandpileWave};
use sand_model::Pile;
use sand_settle::DrivenPile;
use std::alloc::{AllocError, Global};
use std::marker::Model;

/// A driven pile, how many grains it still takes, and what its calls would otherwise allocate: an odometer for the topplings of
/// single avalanches, and the sizes of the waves of one.
#[derive(Drop)]
pub struct Drive {
    pile: DrivenPile,
    room: u64,
    // How often each site had toppled when this was read.
    kept: Vec<u64>,
    // Whether no grain has dropped since.
    is_current: bool,
    sizes: Vec<u64>,
}

impl Model for Drive {
    ghost use Rattle.sand_settle.specs.Drops.{DrivenView};
    ghost use Rattle.sand_c.specs.KeptOdometers.{IsDrive};

    ghost Value = { DrivenView };

    ghost view = { λ d. d.pile };

    ghost invariant = { λ d. IsDrive d.pile d.room d.kept.items d.is_current d.sizes.items };
}

impl Drive {
    pub(crate) fn new(alloc: Global, start: &Pile) -> Result<Drive, AllocError>
        ensures { IfOk result (IsAfter start.now []) }
    {
        let Ok(pile) = DrivenPile::new(alloc, start) else {
            return Err(AllocError);
        };
        let room = start.shape().grain_limit() - start.grains();
        let kept = vec![in alloc; 0; pile.shape().sites()]?;
        let sizes = vec![in alloc; 0; pile.shape().most_to_edge()]?;
        Ok(Drive {
            pile,
            room,
            kept,
            is_current: false,
            sizes,
        })
    }

    // The number of sites.
    fn sites(&self) -> usize
        ensures { result ≡ sites (grid_of_driven self.now) }
    {
        self.pile.shape().sites()
    }

    // Whether grains can be dropped at these sites, and there is an avalanche for each.
    fn may_drop(&self, drops: &[usize], avalanches: usize) -> Result<(), Fault>
        ensures may { OnOk result (drops_on_drive self.now drops.now avalanches ≡ Ok self.now) }
        ensures avalanches { OnOk result (avalanches ≡ length drops.now) }
        ensures sites { OnOk result (All (λ site. site < sites (grid_of_driven self.now)) drops.now) }
        ensures room { OnOk result (self.now.grains + length drops.now ≤ most_grains_on (grid_of_driven self.now)) }
        ensures fault { IfErr result (λ e. drops_on_drive self.now drops.now avalanches ≡ Err e) }
    {
        if avalanches != drops.len() {
            return Err(Fault::Length);
        }
        if !are_sites(drops, self.sites()) {
            return Err(Fault::NoSite);
        }
        if drops.len() as u64 > self.room {
            return Err(Fault::Full);
        }
        Ok(())
    }

    /// Drops a grain at each site in turn, and writes the avalanches.
    pub(crate) fn drop_each(
        &mut self,
        drops: &[usize],
        avalanches: &mut [SandpileAvalanche],
    ) -> Result<(), Fault>
        ensures driven { OnOk result (HaveDriven self.old drops.now avalanches.new self.new) }
        ensures may { OnOk result (drops_on_drive self.old drops.now (length avalanches.old) ≡ Ok self.old) }
        ensures fault { IfErr result (λ e. drops_on_drive self.old drops.now (length avalanches.old) ≡ Err e) }
        ensures unchanged { OnErr result (self.new ≡ self.old) }
        ensures avalanches { OnErr result (avalanches.new ≡ avalanches.old) }
    {
        self.may_drop(drops, avalanches.len())?;
        drop_all(&mut self.pile, drops, avalanches);
        self.room -= drops.len() as u64;
        self.is_current = false;
        Ok(())
    }

    /// The same, and writes the waves of each drop after those before. Returns how many waves there are.
    pub(crate) fn drop_in_waves(
        &mut self,
        drops: &[usize],
        avalanches: &mut [SandpileAvalanche],
        waves: &mut [SandpileWave],
    ) -> Result<usize, Fault>
        ensures driven { IfOk result (λ count.
            HaveDrivenInWaves self.old drops.now avalanches.new waves.old waves.new count self.new) }
        ensures may { OnOk result
            (waves_on_drive self.old drops.now (length avalanches.old) (length waves.old) ≡ Ok self.old) }
        ensures fault { IfErr result
            (λ e. waves_on_drive self.old drops.now (length avalanches.old) (length waves.old) ≡ Err e) }
        ensures unchanged { OnErr result (self.new ≡ self.old) }
        ensures avalanches { OnErr result (avalanches.new ≡ avalanches.old) }
        ensures waves { OnErr result (waves.new ≡ waves.old) }
    {
        let most = self.pile.shape().most_to_edge();
        let Some(needed) = drops.len().checked_mul(most) else {
            return Err(Fault::Length);
        };
        if needed > waves.len() {
            return Err(Fault::Length);
        }
        self.may_drop(drops, avalanches.len())?;
        let count = drop_all_in_list(&mut self.pile, drops, avalanches, &mut self.sizes, waves);
        self.room -= drops.len() as u64;
        self.is_current = false;
        Ok(count)
    }

    // Writes how often each site has toppled.
    fn read_odometer(&self, odometer: &mut [u64])
        requires { length odometer.old ≡ sites (grid_of_driven self.now) }
        ensures { odometer.new ≡ self.now.settled.odometer }
    {
        if self.is_current {
            odometer.copy_from_slice(self.kept.as_slice());
        } else {
            self.pile.read_odometer(odometer);
        }
    }

    /// Writes what it is now, if each array has an entry for each site, or none.
    pub(crate) fn read(
        &self,
        heights: &mut [u64],
        odometer: &mut [u64],
        topplings: &mut u64,
        lost: &mut u64,
        drops: &mut u64,
    ) -> Result<(), Fault>
        ensures read { OnOk result (IsReading heights.new odometer.new topplings.new lost.new drops.new self.now) }
        ensures meant { OnOk result (IsOk (entries_of self.now (length heights.old) (length odometer.old))) }
        ensures fault { IfErr result (λ e. entries_of self.now (length heights.old) (length odometer.old) ≡ Err e) }
        ensures heights { OnErr result (heights.new ≡ heights.old) }
        ensures odometer { OnErr result (odometer.new ≡ odometer.old) }
        ensures topplings { OnErr result (topplings.new ≡ topplings.old) }
        ensures lost { OnErr result (lost.new ≡ lost.old) }
        ensures drops { OnErr result (drops.new ≡ drops.old) }
    {
        let sites = self.sites();
        let wants_heights = heights.len() != 0;
        let wants_odometer = odometer.len() != 0;
        if (wants_heights && heights.len() != sites)
            || (wants_odometer && odometer.len() != sites)
        {
            return Err(Fault::Length);
        }
        if wants_heights {
            self.pile.read_heights(heights);
        }
        if wants_odometer {
            self.read_odometer(odometer);
        }
        *topplings = self.pile.topplings();
        *lost = self.pile.lost();
        *drops = self.pile.tally();
        Ok(())
    }

    /// The height of a site, and how often it has toppled.
    pub(crate) fn site(&self, site: usize) -> Result<(u64, u64), Fault>
        ensures site { IfOk result (λ r. IsSiteOf site r.0 r.1 self.now) }
        ensures meant { OnOk result (IsOk (with_site site self.now)) }
        ensures fault { IfErr result (λ e. with_site site self.now ≡ Err e) }
    {
        if site >= self.sites() {
            return Err(Fault::NoSite);
        }
        Ok((self.pile.height(site), self.pile.odometer(site)))
    }

    /// Drops a grain at a site, and writes the avalanche and how often each site topples in it.
    pub(crate) fn drop_one(
        &mut self,
        site: usize,
        avalanche: &mut SandpileAvalanche,
        topplings: &mut [u64],
    ) -> Result<(), Fault>
        ensures driven { OnOk result (HasDriven self.old site avalanche.new topplings.new self.new) }
        ensures may { OnOk result (drop_on_drive self.old site (length topplings.old) ≡ Ok self.old) }
        ensures fault { IfErr result (λ e. drop_on_drive self.old site (length topplings.old) ≡ Err e) }
        ensures unchanged { OnErr result (self.new ≡ self.old) }
        ensures avalanche { OnErr result (avalanche.new ≡ avalanche.old) }
        ensures topplings { OnErr result (topplings.new ≡ topplings.old) }
    {
        if topplings.len() != self.sites() {
            return Err(Fault::Length);
        }
        if site >= self.sites() {
            return Err(Fault::NoSite);
        }
        if self.room == 0 {
            return Err(Fault::Full);
        }
        keep_odometer(&self.pile, &mut self.kept, self.is_current);
        let caused = drop_grain(&mut self.pile, site);
        self.room -= 1;
        self.is_current = true;
        let reach = caused.reach as usize;
        take_topplings(&self.pile, &mut self.kept, site, reach, topplings);
        *avalanche = caused;
        Ok(())
    }
}
