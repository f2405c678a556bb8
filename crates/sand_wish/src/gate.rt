//! Gates: what each thread of a run calls before each of its turns.

/// Whose turn it is.
#[derive(Clone, Copy, Debug, PartialEq, Eq)]
pub enum Role {
    /// Drops grains.
    Dropper,
    /// Sweeps its rows.
    Worker,
    /// Reads the tally.
    Observer,
}

/// A hook that is called before each drop, each tally of an observer, and each sweep, except in the rounds after the
/// droppers have ended. It may hold the calling thread. It does not change the pile.
pub trait Gate: Sync {
    /// `who` is the thread's number within its role; `turn` counts from 0 in each epoch.
    fn turn(&self, role: Role, who: u32, turn: u32);

    /// Whether `turn` may wait, or look at what drops have done. If so, each drop is made before the gate is called for
    /// the next one. If not, nobody can tell when a drop is made, and droppers drop in batches, which is faster.
    fn holds(&self) -> bool {
        true
    }
}

/// A gate that holds no thread.
#[derive(Clone, Copy, Debug)]
pub struct Open;

impl Gate for Open {
    fn turn(&self, _role: Role, _who: u32, _turn: u32) {}

    fn holds(&self) -> bool {
        false
    }
}

/// A gate, or none, which holds no thread.
impl<G: Gate> Gate for Option<&G> {
    fn turn(&self, role: Role, who: u32, turn: u32) {
        if let Some(gate) = self {
            gate.turn(role, who, turn);
        }
    }

    fn holds(&self) -> bool {
        match self {
            Some(gate) => gate.holds(),
            None => false,
        }
    }
}
