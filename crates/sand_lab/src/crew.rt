//! The crew of an epoch: droppers, workers and observers, who work concurrently.

ghost use Rattle.std.specs.Prelude.{◌≡◌, ◌↔◌, ℕ, All, IsTrue};
ghost use Rattle.std.specs.List.{AllZip};
ghost use Rattle.std.specs.Thread.{IsSync};
ghost use Rattle.sand_lab.specs.Crews.{IsCrew, HasBecome, HasWorked, tallies_each};
ghost use Rattle.sand_lab.specs.Jobs.{CanDrop, CanSweep, CanTally, TookDropTurns, TookSweepTurns, TookTallyTurns};
ghost use Rattle.sand_wish.specs.declared.wish.Wish.{Wish};

use crate::droppers::Dropper;
use crate::observers::{Observer, TALLIES};
use crate::turns::{TakeTurns, take_turns_together};
use crate::workers::Worker;
use sand_shared::SharedPile;
use sand_wish::{Gate, Open, Wish};
use std::thread::{Threads, join_mut};

/// All who work on the shared pile of an epoch.
#[derive(Drop)]
pub(crate) struct Crew {
    pub(crate) droppers: Vec<Dropper>,
    pub(crate) workers: Vec<Worker>,
    pub(crate) observers: Vec<Observer>,
}

// For the proof: `take_turns_together`, with a contract that speaks of the list and not of what it lends.
fn all_take_turns<R: Threads + Sync, G: Gate, M: TakeTurns>(
    rt: &R,
    pile: &SharedPile,
    gate: &G,
    turns: u32,
    members: &mut Vec<M>,
)
    requires { All (M.ready pile.now turns) members.old.items }
    ensures { AllZip (M.done pile.now turns) members.old.items members.new.items }
{
    take_turns_together(rt, pile, gate, turns, members.as_mut_slice());
}

// Workers sweep while observers read the tally.
fn sweep_and_tally<R: Threads + Sync, G: Gate>(
    rt: &R,
    pile: &SharedPile,
    gate: &G,
    sweeps: u32,
    workers: &mut Vec<Worker>,
    observers: &mut Vec<Observer>,
)
    requires workers { All (CanSweep pile.now) workers.old.items }
    requires observers { All (CanTally pile.now tallies_each) observers.old.items }
    ensures workers { AllZip (TookSweepTurns pile.now sweeps) workers.old.items workers.new.items }
    ensures observers { AllZip (TookTallyTurns pile.now tallies_each) observers.old.items observers.new.items }
{
    join_mut(
        rt,
        &mut ||
            requires { IsSync R.row × IsSync G.row × All (CanSweep pile.now) workers.now.items }
            ensures { AllZip (TookSweepTurns pile.entry.now sweeps) workers.entry.now.items workers.exit.now.items }
        { all_take_turns(rt, pile, gate, sweeps, workers) },
        &mut ||
            requires { IsSync R.row × IsSync G.row × All (CanTally pile.now tallies_each) observers.now.items }
            ensures { AllZip (TookTallyTurns pile.entry.now tallies_each)
                observers.entry.now.items observers.exit.now.items }
        { all_take_turns(rt, pile, gate, TALLIES, observers) },
    );
}

impl Crew {
    // For the proof: `work`, with a contract that speaks of the members one by one.
    fn all_work<R: Threads + Sync, G: Gate>(
        &mut self,
        rt: &R,
        pile: &SharedPile,
        gate: &G,
        wish: Wish,
    )
        requires droppers { All (CanDrop pile.now wish.drops) self.old.droppers.items }
        requires workers { All (CanSweep pile.now) self.old.workers.items }
        requires observers { All (CanTally pile.now tallies_each) self.old.observers.items }
        ensures droppers { AllZip (TookDropTurns pile.now wish.drops) self.old.droppers.items self.new.droppers.items }
        ensures workers { AllZip (TookSweepTurns pile.now wish.sweeps) self.old.workers.items self.new.workers.items }
        ensures observers { AllZip (TookTallyTurns pile.now tallies_each)
            self.old.observers.items self.new.observers.items }
    {
        let Crew {
            droppers,
            workers,
            observers,
        } = self;
        join_mut(
            rt,
            &mut ||
                requires { IsSync R.row × IsSync G.row × All (CanDrop pile.now wish.drops) droppers.now.items }
                ensures { AllZip (TookDropTurns pile.entry.now wish.drops)
                    droppers.entry.now.items droppers.exit.now.items }
            { all_take_turns(rt, pile, gate, wish.drops, droppers) },
            &mut ||
                requires { IsSync R.row × IsSync G.row × All (CanSweep pile.now) workers.now.items
                    × All (CanTally pile.now tallies_each) observers.now.items }
                ensures workers { AllZip (TookSweepTurns pile.entry.now wish.sweeps)
                    workers.entry.now.items workers.exit.now.items }
                ensures observers { AllZip (TookTallyTurns pile.entry.now tallies_each)
                    observers.entry.now.items observers.exit.now.items }
            { sweep_and_tally(rt, pile, gate, wish.sweeps, workers, observers) },
        );
    }

    /// Droppers drop, workers sweep and observers read the tally, all concurrently.
    pub(crate) fn work<R: Threads + Sync, G: Gate>(
        &mut self,
        rt: &R,
        pile: &SharedPile,
        gate: &G,
        wish: Wish,
    )
        requires { (epoch : ℕ) × IsCrew pile.now wish epoch self.old }
        ensures { HasBecome pile.now wish self.old self.new }
    {
        self.all_work(rt, pile, gate, wish);
    }

    // Whether no worker toppled anything in its last sweep.
    fn is_calm(&self) -> bool
        ensures { IsTrue result ↔ All (λ w. w.last ≡ 0) self.now.workers.items }
    {
        self.workers.iter().all(|worker| worker.last == 0)
    }

    /// Rounds in which each worker sweeps once, until one topples nothing; at most `rounds`.
    pub(crate) fn sweep_on<R: Threads + Sync>(&mut self, rt: &R, pile: &SharedPile, rounds: u32)
        requires { (wish : Wish) × (epoch : ℕ) × HasWorked pile.now wish epoch self.old }
        ensures { (wish : Wish) (epoch : ℕ) → HasWorked pile.now wish epoch self.old
            → HasWorked pile.now wish epoch self.new }
    {
        for _ in 0..rounds {
            all_take_turns(rt, pile, &Open, 1, &mut self.workers);
            if self.is_calm() {
                return;
            }
        }
    }
}
