//! The settled record of a pile: its settled pile, its odometer, its topplings and the grains lost.
//!
//! A `Settled` is always the settled record of some heights, however it was made: its odometer is the least that
//! stabilises them.

ghost use Rattle.std.specs.Prelude.{◌≡◌, ◌<◌, ◌^◌, IfOk, length, sum};
ghost use Rattle.sand_model.specs.Grid.{sites};
ghost use Rattle.sand_model.specs.Sand.{IsStable};
ghost use Rattle.sand_model.specs.Piles.{height_of};
ghost use Rattle.sand_settle.specs.Settling.{IsSettledRecord, IsSomeSettledRecord, odometer_of};

use sand_model::Pile;
use std::alloc::{AllocError, Global};
use std::marker::Model;

/// A settled pile, with its odometer: how often each site toppled, by site.
#[derive(Debug, Drop)]
pub struct Settled {
    pub(crate) pile: Pile,
    pub(crate) odometer: Vec<u64>,
    pub(crate) topplings: u64,
    pub(crate) lost: u64,
}

impl Model for Settled {
    ghost use Rattle.sand_settle.specs.Settling.{SettledView, IsSomeSettledRecord};

    ghost Value = { SettledView };

    ghost view = { λ r. record { pile = r.pile; odometer = r.odometer.items; topplings = r.topplings; lost = r.lost } };

    ghost invariant = { λ r. IsSomeSettledRecord
        (record { pile = r.pile; odometer = r.odometer.items; topplings = r.topplings; lost = r.lost }) };
}

pub(crate) fn sum_of(counts: &[u64]) -> u64
    requires { sum counts.now < 2 ^ 64 }
    ensures { result ≡ sum counts.now }
{
    counts.iter().sum()
}

impl Settled {
    /// The record of a settled pile, its odometer and the number of grains lost, which must be those of some heights.
    /// Copies nothing.
    pub fn of_parts(pile: Pile, odometer: Vec<u64>, lost: u64) -> Settled
        requires settled { IsSomeSettledRecord
            (record { pile = pile; odometer = odometer.items; topplings = sum odometer.items; lost = lost }) }
        requires fits { sum odometer.items < 2 ^ 64 }
        ensures { result
            ≡ record { pile = pile; odometer = odometer.items; topplings = sum odometer.items; lost = lost } }
    {
        let topplings = sum_of(&odometer);
        Settled {
            pile,
            odometer,
            topplings,
            lost,
        }
    }

    /// The record of a pile that no site topples.
    pub(crate) fn of_stable(alloc: Global, pile: &Pile) -> Result<Settled, AllocError>
        requires { IsStable pile.now.grid (height_of pile.now) }
        ensures record { IfOk result (λ r. IsSettledRecord pile.now.grid (height_of pile.now) r) }
        ensures pile { IfOk result (λ r. r.pile ≡ pile.now) }
        ensures topplings { IfOk result (λ r. r.topplings ≡ 0) }
        ensures lost { IfOk result (λ r. r.lost ≡ 0) }
    {
        let Ok(settled) = pile.copy(alloc) else {
            return Err(AllocError);
        };
        let odometer = vec![in alloc; 0u64; pile.shape().sites()]?;
        Ok(Settled {
            pile: settled,
            odometer,
            topplings: 0,
            lost: 0,
        })
    }

    pub fn copy(&self, alloc: Global) -> Result<Settled, AllocError>
        ensures { IfOk result (λ r. r ≡ self.now) }
    {
        let Ok(pile) = self.pile.copy(alloc) else {
            return Err(AllocError);
        };
        let odometer = Vec::from_slice(alloc, self.odometer.as_slice())?;
        Ok(Settled {
            pile,
            odometer,
            topplings: self.topplings,
            lost: self.lost,
        })
    }

    pub fn pile(&self) -> &Pile
        ensures value { result.now ≡ self.now.pile }
        ensures settled { IsSomeSettledRecord self.now }
        ensures odometer_each { length self.now.odometer ≡ sites self.now.pile.grid }
    {
        &self.pile
    }

    /// The settled pile itself, without a copy.
    pub fn into_pile(self) -> Pile
        ensures { result ≡ self.pile }
    {
        self.pile
    }

    /// How often a site toppled.
    pub fn odometer(&self, site: usize) -> u64
        requires { site < sites self.now.pile.grid }
        ensures { result ≡ odometer_of self.now site }
    {
        self.odometer[site]
    }

    /// The same for all sites, by site.
    pub fn odometers(&self) -> &[u64]
        ensures value { result.now ≡ self.now.odometer }
        ensures odometer_each { length self.now.odometer ≡ sites self.now.pile.grid }
    {
        self.odometer.as_slice()
    }

    /// The number of topplings.
    pub fn topplings(&self) -> u64
        ensures { result ≡ self.now.topplings }
    {
        self.topplings
    }

    /// The number of grains that fell into the sink.
    pub fn lost(&self) -> u64
        ensures { result ≡ self.now.lost }
    {
        self.lost
    }
}
