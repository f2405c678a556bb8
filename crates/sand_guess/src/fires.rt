//! Fires: they find which topplings are needless, and take them back.
//!
//! **A fire is a wave.** First all topples once that is not marked: the sink, and sites that cannot be taken back. Then
//! a marked site burns if and only if it may topple, and no site does so twice. Once all but the sites of a set have
//! toppled, the heights are those after taking back a toppling of each site of the set. So a fire leaves the heights
//! that the next one begins with.
//!
//! **Most fires are local**, unless there are few tiles. Once all tiles have burnt, only those near unburnt sites burn
//! again, as if all others had burnt before. So a fire finds no site that is not to be taken back, and fires over all
//! tiles find what is left.
//!
//! **A tile rests** if all of it is to be taken back and nothing burns there by itself. Until the fire comes in from
//! another tile, its heights stay as they are, and a number tells how often it was taken back.

ghost use Rattle.std.specs.Prelude.{◌≤◌, ◌<◌};

use crate::tile::{ROUNDS, is_any};
use crate::tiles::{PLANES, Tiles, add_planes, count_up};
use std::mem;
use std::simd::prelude::*;

// More fires than any pile was seen to take.
const MOST_FIRES: usize = 100_000_000;

// The fires before the tiles near unburnt sites are chosen again.
const PERIOD: i64 = 16;

// Of so few tiles, most are near unburnt sites, and local fires spare less than they miss. 128 by 128 sites have fewer.
const FEW_TILES: usize = 400;

impl Tiles {
    // A tile that takes part in fires.
    fn listed_tile(&self, n: usize) -> usize {
        self.fire.get(n).copied().unwrap_or(usize::MAX)
    }

    // Puts a tile at a place of the list.
    fn put_listed(&mut self, n: usize, k: usize) {
        if let Some(slot) = self.fire.get_mut(n) {
            *slot = k;
        }
    }

    // Has a tile take part in fires, if it does not yet.
    fn join(&mut self, k: usize, is_inside: bool) {
        if let Some(place) = self.places.get_mut(k)
            && !place.is_listed
        {
            place.is_listed = true;
            place.is_inside = is_inside;
            self.put_listed(self.listed, k);
            self.listed = self.listed.wrapping_add(1);
        }
    }

    // Has the tiles around those that take part in fires do so, too.
    fn join_around(&mut self, is_inside: bool) {
        for n in 0..self.listed {
            let around = self.around(self.listed_tile(n), u16x8::splat(0));
            for (k, _) in around {
                self.join(k, is_inside);
            }
        }
    }

    // Chooses the tiles that fires reach: all, or those near sites that the last fire did not burn.
    fn choose(&mut self, is_whole: bool) {
        (self.listed, self.is_stale) = (0, false);
        for place in &mut self.places {
            place.wake(self.fires);
            (place.is_listed, place.is_inside) = (false, false);
        }
        (self.fires, self.resting) = (0, 0);
        for k in 0..self.places.len() {
            let is_reached = match self.places.get(k) {
                Some(place) => is_whole || place.is_open(),
                None => false,
            };
            if is_reached {
                self.join(k, true);
            }
        }
        if !is_whole {
            self.join_around(true);
            self.join_around(true);
            self.join_around(false);
            self.have_rest();
        }
    }

    // Has tiles rest that can.
    fn have_rest(&mut self) {
        let mut listed = 0usize;
        for n in 0..self.listed {
            let k = self.listed_tile(n);
            let Some(place) = self.places.get_mut(k) else {
                break;
            };
            let is_resting = place.rest_for(PERIOD);
            self.put_listed(listed, k);
            listed = listed.wrapping_add(usize::from(!is_resting));
        }
        self.resting = self.listed.wrapping_sub(listed);
        self.listed = listed;
    }

    /// Notes what burns on a tile. If it rested, it takes part in fires again.
    #[inline(always)]
    pub(crate) fn note_burnt(&mut self, k: usize, burnt: u16x8) {
        let Some(place) = self.places.get_mut(k) else {
            return;
        };
        place.burnt |= burnt;
        if place.is_resting {
            place.wake(self.fires);
            self.resting = self.resting.wrapping_sub(1);
            self.put_listed(self.listed, k);
            self.listed = self.listed.wrapping_add(1);
        }
    }

    // The kindling gives grains to its neighbours. It has paid for them.
    fn kindle(&mut self) {
        for n in 0..self.listed {
            let k = self.listed_tile(n);
            if let Some(place) = self.places.get_mut(k) {
                let kindling = place.kindling();
                if place.is_inside {
                    let was_due = is_any(place.tile.due);
                    place.tile.give(kindling, u16x8::splat(0));
                    let is_new = !was_due & is_any(place.tile.due);
                    self.waiting.add_if(k, is_new);
                }
                self.hand_over(k, kindling);
            }
        }
    }

    // Subtracts from the counts what was taken back on a tile.
    fn count_back(&mut self, k: usize, counts: &mut [i64]) {
        if k < self.places.len() && k < self.counts.len() {
            add_planes(&self.places[k], counts, self.counts[k], -1);
            self.counts[k] = [u16x8::splat(0); PLANES];
            self.places[k].count_whole(counts);
        }
    }

    // Subtracts it, and marks what still can be taken back.
    fn renew(&mut self, k: usize, counts: &mut [i64], least: i64) {
        self.count_back(k, counts);
        if let Some(place) = self.places.get_mut(k) {
            place.mark(counts, least);
            place.limit(counts, least);
        }
    }

    // Does so on all tiles.
    fn renew_all(&mut self, counts: &mut [i64], least: i64) {
        for k in 0..self.places.len() {
            self.renew(k, counts, least);
        }
    }

    // Around a tile, takes back the grains that its unburnt sites gave to tiles that fires do not reach.
    fn hand_back(&mut self, k: usize, unburnt: u16x8) {
        for (other, set) in self.around(k, unburnt) {
            if let Some(place) = self.places.get_mut(other)
                && !place.is_inside
            {
                self.is_stale |= place.tile.lose(set);
            }
        }
    }

    // Takes back a toppling of each marked site that did not burn, and returns whether there are any.
    fn end_fire(&mut self, counts: &mut [i64], least: i64) -> bool {
        let mut is_any_left = self.resting > 0;
        for n in 0..self.listed {
            let k = self.listed_tile(n);
            let Some(place) = self.places.get_mut(k) else {
                break;
            };
            let (unburnt, mut is_used_up) = place.end_fire();
            if is_any(unburnt) {
                is_any_left = true;
                if k < self.counts.len() {
                    is_used_up |= count_up(&mut self.counts[k], unburnt);
                }
                self.hand_back(k, unburnt);
            }
            if is_used_up {
                self.renew(k, counts, least);
            }
        }
        is_any_left
    }

    // Burns the marked sites.
    fn burn(&mut self) {
        for n in 0..self.listed {
            let k = self.listed_tile(n);
            if let Some(place) = self.places.get_mut(k) {
                place.begin_fire();
            }
        }
        self.is_burning = true;
        self.kindle();
        self.topple_waiting(&mut [], ROUNDS);
        self.is_burning = false;
    }

    // Burns until a fire that reaches all tiles burns all, and returns whether there was one.
    fn burn_all(&mut self, counts: &mut [i64], least: i64, times: usize) -> bool {
        let mut rest = times.wrapping_mul(self.places.len());
        let mut is_whole = true;
        self.choose(true);
        for _ in 0..MOST_FIRES {
            self.burn();
            let is_left = self.end_fire(counts, least);
            rest = rest.saturating_sub(self.listed);
            if is_whole && !is_left || rest == 0 {
                return rest > 0;
            }
            self.fires = self.fires.wrapping_add(1);
            if is_whole || !is_left || self.is_stale || self.fires >= PERIOD {
                is_whole = !is_left || self.places.len() < FEW_TILES;
                self.choose(is_whole);
            }
        }
        false
    }

    /// Takes back topplings, the greatest set possible each time, in as many fires as take the time of `times` over all
    /// tiles. Returns whether no more can be taken back. No count goes below `least`. The heights after these counts are
    /// on the tiles and stable, and stay so.
    pub(crate) fn take_back(&mut self, counts: &mut [i64], least: i64, times: usize) -> bool {
        self.renew_all(counts, least);
        let is_done = self.burn_all(counts, least, times);
        for place in &mut self.places {
            place.wake(self.fires);
        }
        for k in 0..self.places.len() {
            self.count_back(k, counts);
        }
        is_done
    }

    /// Writes by site the turn at which it burns, from 1 on, or 0 if nothing toppled there. All that toppled burns.
    pub(crate) fn turns(&mut self, counts: &[i64], list: &mut Vec<i64>) {
        list.fill(0);
        mem::swap(&mut self.turns, list);
        for place in &mut self.places {
            place.mark(counts, 0);
        }
        self.choose(true);
        self.burn();
        mem::swap(&mut self.turns, list);
    }
}
