//! The sites that a drop has toppled: a set of places for each tile.
//!
//! Most drops topple sites of a few tiles. The tiles whose sets are not empty are also in a list, so that only those are
//! read after a drop.

ghost use Rattle.std.specs.Prelude.{◌≡◌, ℕ, ◌+◌, ◌<◌, ◌≤◌, ◌==◌, bit_or, length, slice_index, if◌then◌else◌, IfOk};
ghost use Rattle.sand_model.specs.Lists.{Lists};
ghost use Rattle.sand_fronts.specs.Marking.{has_mark};

use sand_model::IndexList;
use std::alloc::{AllocError, Global};
use std::marker::Model;

/// A set of places for each tile.
#[derive(Drop)]
pub(crate) struct Marks {
    words: Vec<u64>,
    tiles: IndexList,
}

impl Model for Marks {
    ghost use Rattle.std.specs.Prelude.{◌<◌, length};
    ghost use Rattle.sand_model.specs.Lists.{Lists};
    ghost use Rattle.sand_fronts.specs.Marking.{MarksView, has_mark};

    ghost Value = { MarksView };

    ghost view = { λ m. record { sets = m.words.items; tiles = m.tiles.items } };

    ghost invariant = { λ m. (length m.words.items < m.tiles.room)
        × Lists (length m.words.items) (has_mark m.words.items) m.tiles.items };
}

impl Marks {
    /// Empty sets for n tiles. Fails only if an allocation fails.
    pub(crate) fn new(alloc: Global, n: usize) -> Result<Marks, AllocError>
        requires { n ≤ 2097152 }
        ensures len { IfOk result (λ m. length m.sets ≡ n) }
        ensures none { IfOk result (λ m. (k : ℕ) → slice_index m.sets k ≡ 0) }
    {
        let words = vec![in alloc; 0u64; n]?;
        let tiles = IndexList::new(alloc, n + 1)?;
        Ok(Marks { words, tiles })
    }

    /// Adds places to the set of a tile.
    #[inline(always)]
    pub(crate) fn mark(&mut self, k: usize, set: u64)
        requires tile { k < length self.old.sets }
        requires fits { length self.old.sets ≤ 2097152 }
        ensures len { length self.new.sets ≡ length self.old.sets }
        ensures each { (m : ℕ) → slice_index self.new.sets m
            ≡ (if m == k then bit_or (slice_index self.old.sets m) set else slice_index self.old.sets m) }
    {
        let before = self.words[k];
        let after = before | set;
        self.words[k] = after;
        self.tiles.push_if(k, (before == 0) & (after != 0));
    }

    /// The number of tiles whose sets are not empty.
    #[inline(always)]
    pub(crate) fn len(&self) -> usize
        ensures value { result ≡ length self.now.tiles }
        ensures lists { Lists (length self.now.sets) (has_mark self.now.sets) self.now.tiles }
    {
        self.tiles.len()
    }

    /// Takes the last tile out of the list, and its set.
    #[inline(always)]
    pub(crate) fn take_last(&mut self) -> (usize, u64)
        requires { 0 < length self.old.tiles }
        ensures tile { result.0 < length self.old.sets }
        ensures set { result.1 ≡ slice_index self.old.sets result.0 }
        ensures len { length self.new.sets ≡ length self.old.sets }
        ensures fewer { length self.new.tiles + 1 ≡ length self.old.tiles }
        ensures each { (m : ℕ) → slice_index self.new.sets m ≡ (if m == result.0 then 0 else slice_index self.old.sets m) }
    {
        let last = self.tiles.len() - 1;
        let k = self.tiles.item(last);
        self.tiles.truncate(last);
        let set = self.words[k];
        self.words[k] = 0;
        (k, set)
    }
}
