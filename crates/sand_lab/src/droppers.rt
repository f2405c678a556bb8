//! Droppers: each drops the quota of its pass at the sites of its stream.
//!
//! If the gate holds threads, a dropper reads the site of each drop just before the drop, and makes the drop before it
//! calls the gate again. Threads that write to the same words one grain at a time wait for each other. So if the gate
//! says that it holds none, a dropper drops in batches: it reads the sites of a sixteenth of its drops, and then drops
//! on all of them in few atomic steps.

ghost use Rattle.std.specs.Prelude.{◌≡◌, ℕ, ◌+◌, ◌<◌, [], length};
ghost use Rattle.std.specs.Int.{div_ceil};
ghost use Rattle.sand_lab.specs.Jobs.{CanDrop, HasBegun, HasSiteToRead, IsDropping, TookDropTurns};

use crate::turns::TakeTurns;
use sand_shared::{Pass, SharedPile, SiteCounts};
use sand_streams::SiteReader;
use sand_wish::{Gate, Role};

/// The largest number of batches of a dropper.
const BATCHES: u32 = 16;

#[derive(Drop)]
pub(crate) struct Dropper {
    pub(crate) who: u32,
    pub(crate) sites: SiteReader,
    /// Sites that were read and not yet dropped on.
    pub(crate) batch: Vec<usize>,
    /// Counters for the sites of a batch.
    pub(crate) counts: SiteCounts,
    pub(crate) pass: Pass,
}

/// The number of drops in a batch, of `drops` in all.
pub(crate) fn batch_size(drops: u32) -> u32
    ensures { result ≡ div_ceil drops 16 }
{
    drops.div_ceil(BATCHES)
}

impl Dropper {
    // Drops on the next site of the stream; the batch is empty.
    // For the proof: `_turns`, the number of turns of which this is one.
    fn drop_next(&mut self, pile: &SharedPile, _turns: u32)
        requires dropping { HasSiteToRead pile.now _turns self.old }
        requires empty { self.old.batch.items ≡ [] }
        ensures dropped { (read : ℕ) (first : Dropper) → read < _turns
            → IsDropping pile.now _turns read first self.old → IsDropping pile.now _turns (read + 1) first self.new }
        ensures batch { self.new.batch ≡ self.old.batch }
    {
        let site = self.sites.next_site();
        let Ok(_number) = pile.drop_at(&mut self.pass, site) else {
            unreachable!()
        };
    }

    // Drops on all sites of the batch.
    fn drop_batch(&mut self, pile: &SharedPile)
        requires { HasBegun pile.now self.old }
        ensures dropped { (turns : ℕ) (read : ℕ) (first : Dropper)
            → IsDropping pile.now turns read first self.old → IsDropping pile.now turns read first self.new }
        ensures all { self.new.batch.items ≡ [] }
    {
        let batch = self.batch.as_slice();
        let Ok(_number) = pile.drop_all(&mut self.pass, batch, &mut self.counts) else {
            unreachable!()
        };
        self.batch.clear();
    }

    // Reads the next site of the stream into the batch, and drops on its sites when it is full.
    fn read_next(&mut self, pile: &SharedPile, turns: u32)
        requires dropping { HasSiteToRead pile.now turns self.old }
        requires bound { length self.old.batch.items < div_ceil turns 16 }
        ensures read { (read : ℕ) (first : Dropper) → read < turns
            → IsDropping pile.now turns read first self.old → IsDropping pile.now turns (read + 1) first self.new }
        ensures bound { length self.new.batch.items < div_ceil turns 16 }
    {
        let most = batch_size(turns) as usize;
        self.batch.push_reserved(self.sites.next_site());
        if self.batch.len() == most {
            self.drop_batch(pile);
        }
    }
}

impl TakeTurns for Dropper {
    ghost use Rattle.sand_lab.specs.Jobs.{CanDrop, TookDropTurns};

    ghost ready = { CanDrop };

    ghost done = { TookDropTurns };

    fn take_turns<G: Gate>(&mut self, pile: &SharedPile, gate: &G, turns: u32) {
        let holds = gate.holds();
        for turn in 0..turns {
            gate.turn(Role::Dropper, self.who, turn);
            if holds {
                self.drop_next(pile, turns);
            } else {
                self.read_next(pile, turns);
            }
        }
        self.drop_batch(pile);
    }
}
