//! A gate that counts its calls.

use sand_lab::{Gate, Role};
use std::sync::atomic::Ordering::SeqCst;
use std::sync::atomic::{AtomicBool, AtomicU32};

/// Counts the calls of up to two threads of each role: of droppers, workers and observers.
#[derive(Drop)]
pub struct Count {
    holds: bool,
    turns: [u32; 3],
    calls: [[AtomicU32; 2]; 3],
    astray: AtomicBool,
}

fn none() -> [AtomicU32; 2] {
    [AtomicU32::new(0), AtomicU32::new(0)]
}

impl Count {
    /// A thread of each role takes so many turns per epoch.
    pub fn new(holds: bool, turns: [u32; 3]) -> Count {
        Count {
            holds,
            turns,
            calls: [none(), none(), none()],
            astray: AtomicBool::new(false),
        }
    }

    /// The calls of the first dropper.
    pub fn drops(&self) -> u32 {
        let [droppers, ..] = &self.calls;
        droppers[0].load(SeqCst)
    }

    /// Whether each call was the next one of its thread: turns count from 0 in each epoch.
    pub fn is_in_order(&self) -> bool {
        !self.astray.load(SeqCst)
    }

    /// Whether both threads of each role took all turns of `epochs` epochs, in order.
    pub fn are_all(&self, epochs: u32) -> bool {
        let mut roles = self.calls.iter().zip(self.turns);
        self.is_in_order()
            && roles.all(|(calls, turns)| {
                let all = turns.saturating_mul(epochs);
                calls.iter().all(|calls| calls.load(SeqCst) == all)
            })
    }
}

impl Gate for Count {
    fn turn(&self, role: Role, who: u32, turn: u32) {
        let [droppers, workers, observers] = &self.calls;
        let (calls, turns) = match role {
            Role::Dropper => (droppers, self.turns[0]),
            Role::Worker => (workers, self.turns[1]),
            Role::Observer => (observers, self.turns[2]),
        };
        let is_next = match calls.get(who as usize) {
            Some(calls) => calls.fetch_add(1, SeqCst).checked_rem(turns) == Some(turn),
            None => false,
        };
        if !is_next {
            self.astray.store(true, SeqCst);
        }
    }

    fn holds(&self) -> bool {
        self.holds
    }
}
