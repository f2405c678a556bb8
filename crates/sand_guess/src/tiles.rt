//! Heights on tiles: sand topples, and burns, where there is something to do.
//!
//! A tile waits while some of its sites may topple (`waiting`). A visit topples them, and then the grains that leave the
//! tile are added to those around it.
//!
//! Sites burn in the same way: `fires` takes topplings back.

ghost use Rattle.std.specs.Prelude.{◌≤◌, ◌<◌};

use crate::places::{Place, pitch_of, places_of};
use crate::tile::{LEVEL, ROUNDS, is_any};
use crate::waiting::Waiting;
use sand_model::Shape;
use std::alloc::{AllocError, Global};
use std::simd::prelude::*;

// The greatest number on the tiles when toppling begins: later it may have four more.
const MOST: u64 = 11;

// Counts are read when one reaches 2 ^ 15, at the latest.
pub(crate) const PLANES: usize = 16;

// The planes that a count is added to without a test.
const FEW_PLANES: usize = 6;

/// Whether the tiles have room for a height.
#[inline(always)]
pub(crate) fn has_room(height: i64) -> bool {
    height.wrapping_add(LEVEL).cast_unsigned() <= MOST
}

/// The tiles of a grid.
#[derive(Drop)]
pub(crate) struct Tiles {
    /// The number of tiles in a row.
    pitch: usize,
    pub(crate) places: Vec<Place>,
    /// By tile, how often each place toppled: a plane for each bit of the count. While topplings are taken back, how often
    /// that was done.
    pub(crate) counts: Vec<[u16x8; PLANES]>,
    pub(crate) waiting: Waiting,
    /// The tiles that take part in a fire, `listed` of them.
    pub(crate) fire: Vec<usize>,
    pub(crate) listed: usize,
    pub(crate) is_burning: bool,
    /// The fires since these tiles were chosen, and the number of tiles that rest.
    pub(crate) fires: i64,
    pub(crate) resting: usize,
    /// Whether a site that fires do not reach has less than no grains.
    pub(crate) is_stale: bool,
    /// By site, the turn at which it burns, if that is asked for, and the last turn.
    pub(crate) turns: Vec<i64>,
    turn: i64,
}

/// Counts a toppling of each place of a set, and returns whether the planes have to be read before they are full.
#[inline(always)]
pub(crate) fn count_up(counts: &mut [u16x8; PLANES], set: u16x8) -> bool {
    let mut carry = set;
    for plane in 0..PLANES {
        if plane == FEW_PLANES && !is_any(carry) {
            return false;
        }
        let before = counts[plane];
        counts[plane] = before ^ carry;
        carry &= before;
    }
    is_any(counts[PLANES - 1])
}

// Adds counts, a plane for each bit, to numbers by site, or subtracts them if `number` is not 1 but -1.
pub(crate) fn add_planes(
    place: &Place,
    sums: &mut [i64],
    planes: [u16x8; PLANES],
    mut number: i64,
) {
    for set in planes {
        if is_any(set) {
            place.add_where(sums, set, number);
        }
        number = number.wrapping_mul(2);
    }
}

impl Tiles {
    pub(crate) fn new(alloc: Global, shape: Shape) -> Result<Tiles, AllocError> {
        let places = places_of(alloc, shape)?;
        let counts = vec![in alloc; [u16x8::splat(0); PLANES]; places.len()]?;
        let pitch = pitch_of(shape);
        Ok(Tiles {
            pitch,
            waiting: Waiting::new(alloc, places.len(), pitch)?,
            fire: vec![in alloc; 0usize; places.len()]?,
            places,
            counts,
            listed: 0,
            is_burning: false,
            fires: 0,
            resting: 0,
            is_stale: false,
            turns: Vec::new(alloc),
            turn: 0,
        })
    }

    /// Loads heights. The tiles have room for all of them.
    pub(crate) fn put(&mut self, heights: &[i64]) {
        self.waiting.clear();
        for k in 0..self.places.len() {
            if let Some(place) = self.places.get_mut(k) {
                place.put(heights);
                let is_due = is_any(place.tile.due);
                self.waiting.add_if(k, is_due);
            }
        }
    }

    // Adds a grain at each place of a set.
    #[inline(always)]
    fn gain(&mut self, k: usize, set: u16x8) {
        if let Some(place) = self.places.get_mut(k)
            && place.is_inside
        {
            let is_new = place.tile.gain(set);
            self.waiting.add_if(k, is_new);
        }
    }

    // The tiles around a tile, and the places of each that get what leaves a set of places.
    #[inline(always)]
    pub(crate) fn around(&self, k: usize, set: u16x8) -> [(usize, u16x8); 4] {
        let (none, one) = (u16x8::splat(0), u16x8::splat(1));
        let Some(place) = self.places.get(k) else {
            return [(k, none); 4];
        };
        let to_north = none.shuffle(set, [0, 0, 0, 0, 0, 0, 0, 8]);
        let to_south = set.shuffle(none, [7, 8, 8, 8, 8, 8, 8, 8]);
        let to_west = (set & one) * u16x8::splat(place.west_end);
        let to_east = (set & u16x8::splat(place.east_end)).simd_min(one);
        [
            (k.wrapping_sub(self.pitch), to_north),
            (k.wrapping_add(self.pitch), to_south),
            (place.west, to_west),
            (place.east, to_east),
        ]
    }

    // Gives the grains that leave a tile to those around it.
    #[inline(always)]
    pub(crate) fn hand_over(&mut self, k: usize, set: u16x8) {
        let [north, south, west, east] = self.around(k, set);
        self.gain(north.0, north.1);
        self.gain(south.0, south.1);
        self.gain(west.0, west.1);
        self.gain(east.0, east.1);
    }

    // Adds to the counts how often each place of a tile has toppled since they were last read.
    fn read_counts(&mut self, k: usize, counts: &mut [i64]) {
        if k < self.places.len() && k < self.counts.len() {
            add_planes(&self.places[k], counts, self.counts[k], 1);
            self.counts[k] = [u16x8::splat(0); PLANES];
        }
    }

    // Topples the sites of a tile that may topple, and counts them.
    #[inline(always)]
    fn visit(&mut self, k: usize, counts: &mut [i64]) {
        let Some(place) = self.places.get_mut(k) else {
            return;
        };
        let toppled = if self.turns.is_empty() {
            place.tile.visit()
        } else {
            place.visit_in_turns(&mut self.turns, &mut self.turn)
        };
        let is_due = is_any(place.tile.due);
        self.waiting.add_if(k, is_due);
        if self.is_burning {
            self.note_burnt(k, toppled);
        } else if k < self.counts.len() && count_up(&mut self.counts[k], toppled) {
            self.read_counts(k, counts);
        }
        self.hand_over(k, toppled);
    }

    // Topples until no tile waits, and returns whether this number of visits for each tile was enough.
    pub(crate) fn topple_waiting(&mut self, counts: &mut [i64], visits: usize) -> bool {
        for _ in 0..visits.wrapping_mul(self.places.len()) {
            let Some(k) = self.waiting.next() else {
                return true;
            };
            self.visit(k, counts);
        }
        self.waiting.is_empty()
    }

    /// Topples until no site may topple, and returns whether this number of visits for each tile was enough.
    pub(crate) fn topple(&mut self, counts: &mut [i64], visits: usize) -> bool {
        let is_stable = self.topple_waiting(counts, visits);
        for k in 0..self.places.len() {
            self.read_counts(k, counts);
        }
        is_stable
    }
}
