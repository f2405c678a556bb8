//! Workers: each sweeps a band of rows.

use crate::turns::TakeTurns;
use sand_shared::{Pass, SharedPile};
use sand_wish::{Gate, Role};

#[derive(Drop)]
pub(crate) struct Worker {
    pub(crate) who: u32,
    /// The topplings that all its sweeps returned.
    pub(crate) swept: u64,
    /// The topplings that the last one returned.
    pub(crate) last: u64,
    pub(crate) pass: Pass,
}

impl TakeTurns for Worker {
    ghost use Rattle.sand_shared.specs.Passes.{SharedView};
    ghost use Rattle.sand_lab.specs.Jobs.{CanSweep, TookSweepTurns};

    ghost ready = { λ s turns w. CanSweep s w };

    ghost done = { TookSweepTurns };

    fn take_turns<G: Gate>(&mut self, pile: &SharedPile, gate: &G, turns: u32) {
        for turn in 0..turns {
            gate.turn(Role::Worker, self.who, turn);
            self.last = pile.sweep(&mut self.pass);
            self.swept += self.last;
        }
    }
}
