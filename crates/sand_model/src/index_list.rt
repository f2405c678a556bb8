//! A list of sites or of tiles that wait for their turn, in memory that is allocated beforehand.

ghost use Rattle.std.specs.Prelude.{◌≡◌, ℕ, ◌+◌, ◌<◌, ◌≤◌, ◌^◌, [], ◌∷◌, ◌++◌, length, take, slice_index, slice_set, IfOk, if◌then◌else◌};

use std::alloc::{AllocError, Global};
use std::marker::Model;

/// A list of the indices of sites or of tiles, with room for `room` of them.
#[derive(Drop)]
pub struct IndexList {
    len: usize,
    slots: Vec<u32>,
}

impl Model for IndexList {
    ghost use Rattle.std.specs.Prelude.{◌≤◌, length, take};
    ghost use Rattle.sand_model.specs.IndexLists.{ListView};

    ghost Value = { ListView };

    ghost view = { λ l. record { items = take l.len l.slots.items; room = length l.slots.items } };

    ghost invariant = { λ l. l.len ≤ length l.slots.items };
}

impl IndexList {
    /// An empty list. Fails only if an allocation fails.
    pub fn new(alloc: Global, room: usize) -> Result<IndexList, AllocError>
        ensures { IfOk result (λ l. l ≡ record { items = []; room = room }) }
    {
        let slots = vec![in alloc; 0u32; room]?;
        Ok(IndexList { len: 0, slots })
    }

    #[inline(always)]
    pub fn len(&self) -> usize
        ensures value { result ≡ length self.now.items }
        ensures within { length self.now.items ≤ self.now.room }
    {
        self.len
    }

    #[inline(always)]
    pub fn item(&self, position: usize) -> usize
        requires { position < length self.now.items }
        ensures { result ≡ slice_index self.now.items position }
    {
        self.slots[position] as usize
    }

    #[inline(always)]
    pub fn clear(&mut self)
        ensures { self.new ≡ record self.old { items = [] } }
    {
        self.len = 0;
    }

    /// Adds an index if `test` is true. It is written either way, so that an unpredictable test costs no branch.
    #[inline(always)]
    pub fn push_if(&mut self, index: usize, test: bool)
        requires room { length self.old.items < self.old.room }
        requires fits { index < 2 ^ 32 }
        ensures { self.new
            ≡ record self.old { items = (if test then self.old.items ++ index ∷ [] else self.old.items) } }
    {
        self.slots[self.len] = index as u32;
        self.len += usize::from(test);
    }

    /// Overwrites the index at a position. Returns the next position if `test` is true, and otherwise the same.
    #[inline(always)]
    pub fn keep_if(&mut self, position: usize, index: usize, test: bool) -> usize
        requires inside { position < length self.old.items }
        requires fits { index < 2 ^ 32 }
        ensures list { self.new ≡ record self.old { items = slice_set self.old.items position index } }
        ensures next { result ≡ (if test then position + 1 else position) }
    {
        self.slots[position] = index as u32;
        position + usize::from(test)
    }

    /// Leaves the first `len` indices.
    #[inline(always)]
    pub fn truncate(&mut self, len: usize)
        requires { len ≤ length self.old.items }
        ensures { self.new ≡ record self.old { items = take len self.old.items } }
    {
        self.len = len;
    }
}
