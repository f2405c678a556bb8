//! Toppling in place: a sweep over the rows of a pass, while other threads drop and topple.
//!
//! Only the holder of a row takes grains from its sites, so what a look finds is still there at the unload, and what is
//! unloaded stays in hand until it is delivered to the neighbours. So no grain vanishes, and no site topples more often
//! than needed: the grains are on it, so whatever stabilises the pile topples it too.

ghost use Rattle.std.specs.Prelude.{◌≡◌, ◌+◌, ◌*◌, ◌^◌, ◌<◌, ◌≤◌, true, [], ◌∷◌, length, sum, IfSome};
ghost use Rattle.sand_model.specs.Grid.{sites};
ghost use Rattle.sand_shared.specs.OpenPile.{grid_of_terms, holds_site};
ghost use Rattle.sand_shared.specs.Events.{looked, raised, sent, grains_for, behind_first, delivered_to};
ghost use Rattle.sand_shared.specs.Seats.{HasAll, IsSeatAt, StaysSeated};
ghost use Rattle.sand_shared.specs.Sweeps.{LeavesAtMost, LeavesAtLeast, IsSparing, SweptRows, SweptAll, Swept};
ghost use Rattle.sand_shared.specs.Passes.{IsPassOf};

use crate::pass::Pass;
use crate::shared_pile::SharedPile;
use crate::steps::{PassSeat, Words};
use sand_model::TOPPLING_HEIGHT;
use std::marker::Brand;

impl Words {
    // Delivers the first grains in hand to a neighbour, if there is one.
    #[inline(always)]
    fn deliver_to(&self, seat: &mut PassSeat, neighbour: Option<usize>, times: u64)
        requires seat { IsSeatAt self.now seat.old }
        requires hand { IfSome neighbour (λ j. seat.old.me.0.hand ≡ grains_for j times ∷ behind_first seat.old.me.0.hand) }
        requires site { IfSome neighbour (λ j. j < sites (grid_of_terms self.now.terms)) }
        ensures seat { StaysSeated seat.old seat.new }
        ensures view { seat.new.me.0 ≡ delivered_to neighbour seat.old.me.0 }
    {
        if let Some(site) = neighbour {
            self.deliver::<Brand>(seat, site, times);
        }
    }

    // Delivers the grains in hand to the neighbours of a site: north, west, east and south.
    fn deliver_around(&self, seat: &mut PassSeat, site: usize, times: u64)
        requires seat { IsSeatAt self.now seat.old }
        requires hand { seat.old.me.0.hand ≡ sent self.now.terms site times }
        requires site { site < sites (grid_of_terms self.now.terms) }
        ensures seat { StaysSeated seat.old seat.new }
        ensures view { seat.new.me.0 ≡ record seat.old.me.0 { hand = [] } }
    {
        let around = self.neighbours(site);
        for place in around {
            self.deliver_to(seat, place, times);
        }
    }

    // Looks at a site of the pass's rows, and topples it as often as the grains found allow. Returns how often.
    fn relieve(&self, seat: &mut PassSeat, site: usize) -> u64
        requires seat { IsSeatAt self.now seat.old }
        requires hand { seat.old.me.0.hand ≡ [] }
        requires own { holds_site seat.old.me.0 site ≡ true }
        requires rows { seat.old.me.0.base + length seat.old.me.0.counts ≤ sites (grid_of_terms self.now.terms) }
        requires site { site < sites (grid_of_terms self.now.terms) }
        ensures seat { StaysSeated seat.old seat.new }
        ensures view { seat.new.me.0
            ≡ record (looked seat.old.me.0 site seat.new.me.0.least) { counts = raised seat.old.me.0 site result } }
        ensures bound { sum seat.new.me.0.counts < 2 ^ 54 }
        ensures enough { LeavesAtMost self.now.terms seat.old.me.0 site (4 * result + 3) }
        ensures no_more { HasAll self.now.terms seat.old.me.0
            → LeavesAtLeast self.now.terms seat.old.me.0 site (4 * result) }
        ensures sparing { HasAll self.now.terms seat.old.me.0 → IsSparing self.now.terms seat.new.me.0 }
    {
        let times = self.look::<Brand>(seat, site) / TOPPLING_HEIGHT;
        if times != 0 {
            self.unload::<Brand>(seat, site, times);
            self.deliver_around(seat, site, times);
        }
        times
    }

    // Sweeps once over the sites of the pass's rows, the first of which is `base`. Returns the number of topplings.
    pub(crate) fn sweep_rows(&self, seat: &mut PassSeat, base: usize, counts: &mut Vec<u64>) -> u64
        requires seat { IsSeatAt self.now seat.old }
        requires hand { seat.old.me.0.hand ≡ [] }
        requires counts { (seat.old.me.0.base ≡ base) × (seat.old.me.0.counts ≡ counts.old.items) }
        requires rows { base + length counts.old.items ≤ sites (grid_of_terms self.now.terms) }
        ensures seat { StaysSeated seat.old seat.new }
        ensures view { seat.new.me.0
            ≡ record (looked seat.old.me.0 seat.new.me.0.spot seat.new.me.0.least) { counts = counts.new.items } }
        ensures swept { SweptRows self.now.terms seat.old.me.0 counts.new.items result }
        ensures all { HasAll self.now.terms seat.old.me.0
            → SweptAll self.now.terms seat.old.me.0 counts.new.items result }
        ensures bound { sum counts.new.items < 2 ^ 54 }
    {
        self.tell_limits();
        let mut topplings = 0;
        'sites: for i in 0..counts.len() {
            let times = self.relieve(seat, base + i);
            if times == 0 {
                continue 'sites;
            }
            counts[i] += times;
            topplings += times;
        }
        topplings
    }
}

impl SharedPile {
    /// Visits each site of the pass's rows once, in order of number, and topples it as often as the grains found there
    /// allow. Returns the number of topplings, 0 for a pass without rows. If the pass is whole, the contract determines
    /// how often each site topples (`in_turn` of `SweptAll`); otherwise it gives a lower bound (`enough` of
    /// `SweptRows`).
    pub fn sweep(&self, pass: &mut Pass) -> u64
        requires { IsPassOf self.now pass.old }
        ensures of_pile { IsPassOf self.now pass.new }
        ensures pass { pass.new ≡ record pass.old { counts = pass.new.counts } }
        ensures swept { Swept self.now.terms pass.old pass.new.counts result }
        ensures bound { sum pass.new.counts < 2 ^ 54 }
    {
        let bare = &mut pass.bare;
        let base = usize::from(bare.rows.first) * bare.shape.width();
        self.words
            .sweep_rows(&mut bare.seat, base, &mut bare.counts)
    }
}
