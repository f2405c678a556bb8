//! A gate that holds threads until others have begun a turn. They pass it only if they run at the same time.

use sand_lab::{Gate, Role};
use sand_testing::meeting::Meeting;
use std::alloc::{AllocError, Global};
use std::sync::atomic::AtomicBool;
use std::sync::atomic::Ordering::SeqCst;

/// A turn of a thread: its role, its number in that role, and the number of the turn.
#[derive(Clone, Copy, Debug, PartialEq, Eq)]
pub struct Turn(Role, u32, u32);

// A turn at which a thread is held until another turn has begun.
#[derive(Drop)]
struct Hold {
    held: Turn,
    until: Turn,
    begun: Meeting,
}

/// Turns, each held until the next one of the list has begun, and whether a thread was released early. A list may have
/// a turn several times.
#[derive(Drop)]
pub struct Chain {
    holds: Vec<Hold>,
    failed: AtomicBool,
}

impl Chain {
    pub fn new(alloc: Global, turns: &[Turn]) -> Result<Chain, AllocError> {
        let mut holds = Vec::new(alloc);
        for (held, until) in turns.iter().zip(turns.iter().skip(1)) {
            holds.push(Hold {
                held: *held,
                until: *until,
                begun: Meeting::new(),
            })?;
        }
        let failed = AtomicBool::new(false);
        Ok(Chain { holds, failed })
    }

    /// Whether no thread was released early.
    pub fn has_held(&self) -> bool {
        !self.failed.load(SeqCst)
    }

    // Tells the holds that wait for this turn that it has begun.
    fn begin(&self, turn: Turn) {
        for hold in &self.holds {
            if hold.until == turn {
                hold.begun.begin();
            }
        }
    }
}

impl Gate for Chain {
    fn turn(&self, role: Role, who: u32, turn: u32) {
        let turn = Turn(role, who, turn);
        self.begin(turn);
        for hold in &self.holds {
            if hold.held == turn && !hold.begun.waited_for(1) {
                self.failed.store(true, SeqCst);
            }
        }
    }
}

pub fn dropper(who: u32, turn: u32) -> Turn {
    Turn(Role::Dropper, who, turn)
}

pub fn worker(turn: u32) -> Turn {
    Turn(Role::Worker, 0, turn)
}

pub fn observer(turn: u32) -> Turn {
    Turn(Role::Observer, 0, turn)
}
