//! Observers: each reads the tally repeatedly.

use crate::turns::TakeTurns;
use sand_shared::{Pass, SharedPile};
use sand_wish::{Gate, Role};

/// How often an observer reads the tally.
pub(crate) const TALLIES: u32 = 16;

#[derive(Drop)]
pub(crate) struct Observer {
    pub(crate) who: u32,
    pub(crate) tallies: Vec<u64>,
    pub(crate) pass: Pass,
}

impl TakeTurns for Observer {
    ghost use Rattle.sand_lab.specs.Jobs.{CanTally, TookTallyTurns};

    ghost ready = { CanTally };

    ghost done = { TookTallyTurns };

    fn take_turns<G: Gate>(&mut self, pile: &SharedPile, gate: &G, turns: u32) {
        for turn in 0..turns {
            gate.turn(Role::Observer, self.who, turn);
            let tally = pile.tally(&mut self.pass);
            self.tallies.push_reserved(tally);
        }
    }
}
