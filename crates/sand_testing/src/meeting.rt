//! A place where threads meet.

use std::sync::atomic::AtomicU64;
use std::sync::atomic::Ordering::SeqCst;

// How often a thread checks for the others before it gives up.
const PATIENCE: u64 = 1_000_000_000;

/// Where threads meet: each counts itself, then waits until all have begun.
#[derive(Drop)]
pub struct Meeting {
    begun: AtomicU64,
}

impl Meeting {
    pub fn new() -> Meeting {
        Meeting {
            begun: AtomicU64::new(0),
        }
    }

    pub fn begin(&self) {
        self.begun.fetch_add(1, SeqCst);
    }

    /// Returns true once so many threads have begun, and false if they do not.
    pub fn waited_for(&self, threads: u64) -> bool {
        for _ in 0..PATIENCE {
            if self.begun.load(SeqCst) >= threads {
                return true;
            }
        }
        false
    }
}
