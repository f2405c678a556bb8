//! The tiles that wait for a visit, and the order in which they get it.
//!
//! Tiles that are visited again soon are still in the cache. So a pass goes along the tiles in words of 64, and at each
//! step it visits what waits in the word there, then in the one a row of tiles before it, and so on: before it has left
//! a tile, it has come by `VISITS` times. Between two visits of a tile each tile around it gets one, as it would first
//! in, first out, so no place gets more than four grains.

ghost use Rattle.std.specs.Prelude.{◌≤◌, ◌<◌};

use std::alloc::{AllocError, Global};

// The tiles of a word, a bit for each.
const BITS: usize = 64;

// How often a pass comes by a tile.
const VISITS: usize = 4;

/// The tiles that wait, each of them once.
#[derive(Drop)]
pub(crate) struct Waiting {
    words: Vec<u64>,
    /// The words from a tile to the one in the next row, or one more.
    row: usize,
    /// The steps of a pass.
    steps: usize,
    /// Where the pass is: its step, how many rows before that, the word there, and the tiles that wait in it.
    step: usize,
    rows_before: usize,
    word: usize,
    left: u64,
}

impl Waiting {
    /// None of so many tiles, with `pitch` in a row.
    pub(crate) fn new(alloc: Global, tiles: usize, pitch: usize) -> Result<Waiting, AllocError> {
        let words = vec![in alloc; 0u64; tiles.div_ceil(BITS)]?;
        let row = pitch / BITS + 1;
        Ok(Waiting {
            steps: words.len().wrapping_add(row.wrapping_mul(VISITS - 1)),
            words,
            row,
            step: 0,
            rows_before: 0,
            word: 0,
            left: 0,
        })
    }

    pub(crate) fn is_empty(&self) -> bool {
        self.left == 0 && self.words.iter().all(|word| *word == 0)
    }

    /// Has no tile wait any more.
    pub(crate) fn clear(&mut self) {
        self.words.fill(0);
        self.left = 0;
    }

    /// Has a tile wait, if a test is true.
    #[inline(always)]
    pub(crate) fn add_if(&mut self, k: usize, test: bool) {
        if let Some(word) = self.words.get_mut(k / BITS) {
            *word |= u64::from(test) << (k % BITS);
        }
    }

    // Goes to the next word.
    fn go_on(&mut self) {
        let before = self.rows_before.wrapping_add(1);
        if before < VISITS && before.wrapping_mul(self.row) <= self.step {
            self.rows_before = before;
        } else {
            self.rows_before = 0;
            self.step = self.step.wrapping_add(1);
            self.step = if self.step < self.steps { self.step } else { 0 };
        }
        self.word = self
            .step
            .wrapping_sub(self.rows_before.wrapping_mul(self.row));
        if let Some(word) = self.words.get_mut(self.word) {
            self.left = *word;
            *word = 0;
        }
    }

    // Goes to the next word in which a tile waits, and returns whether there is one.
    fn find(&mut self) -> bool {
        for _ in 0..self.steps.wrapping_mul(VISITS) {
            self.go_on();
            if self.left != 0 {
                return true;
            }
        }
        false
    }

    /// Takes the next tile that is to be visited.
    #[inline(always)]
    pub(crate) fn next(&mut self) -> Option<usize> {
        if self.left == 0 && !self.find() {
            return None;
        }
        let k = self
            .word
            .wrapping_mul(BITS)
            .wrapping_add(self.left.trailing_zeros() as usize);
        self.left &= self.left.wrapping_sub(1);
        Some(k)
    }
}
