//! Turns: what a member of a crew does with its pass, turn by turn; and how all members of a list do that together, each
//! on its own thread.
//!
//! The list is split into halves for the two sides of a join, down to single members, so no list of threads is needed.

ghost use Rattle.std.specs.Prelude.{◌≡◌, ℕ, ◌+◌, ◌<◌, All, length};
ghost use Rattle.std.specs.List.{AllZip};
ghost use Rattle.std.specs.Thread.{IsSync, IsSend};
ghost use Rattle.sand_shared.specs.Passes.{SharedView};

use sand_shared::SharedPile;
use sand_wish::Gate;
use std::thread::{Threads, join_mut};

/// A member of a crew.
pub(crate) trait TakeTurns: Send {
    // when it may begin, and what it has done, in a number of turns on a pile
    ghost ready: { SharedView → ℕ → Self → Type 0 };

    ghost done: { SharedView → ℕ → Self → Self → Type 0 };

    /// Takes `turns` turns.
    fn take_turns<G: Gate>(&mut self, pile: &SharedPile, gate: &G, turns: u32)
        requires { ready pile.now turns self.old }
        ensures { done pile.now turns self.old self.new };
}

/// All members of a list take `turns` turns each, each on its own thread if one can be made.
#[cycle(turns)]
#[tactic(auto, using(crate::proofs::OneTurnMore::zip_append))]
pub(crate) fn take_turns_together<R: Threads + Sync, G: Gate, M: TakeTurns>(
    rt: &R,
    pile: &SharedPile,
    gate: &G,
    turns: u32,
    members: &mut [M],
)
    requires { All (M.ready pile.now turns) members.old }
    ensures { AllZip (M.done pile.now turns) members.old members.new }
{
    if members.is_empty() {
        return;
    }
    if members.len() == 1 {
        members[0].take_turns(pile, gate, turns);
        return;
    }
    let (front, back) = members.split_at_mut(members.len() / 2);
    take_turns_in_halves(rt, pile, gate, turns, front, back);
}

// The two halves of a list take their turns, one on another thread if one can be made.
#[cycle(turns)]
fn take_turns_in_halves<R: Threads + Sync, G: Gate, M: TakeTurns>(
    rt: &R,
    pile: &SharedPile,
    gate: &G,
    turns: u32,
    front: &mut [M],
    back: &mut [M],
)
    requires some { (0 < length front.old) × (0 < length back.old) }
    requires front { All (M.ready pile.now turns) front.old }
    requires back { All (M.ready pile.now turns) back.old }
    ensures front { AllZip (M.done pile.now turns) front.old front.new }
    ensures back { AllZip (M.done pile.now turns) back.old back.new }
{
    join_mut(
        rt,
        &mut ||
            requires { IsSync R.row × IsSync G.row × All (M.ready pile.now turns) front.now }
            ensures { AllZip (M.done pile.entry.now turns) front.entry.now front.exit.now }
        { take_turns_together(rt, pile, gate, turns, front) },
        &mut ||
            requires { IsSync R.row × IsSync G.row × All (M.ready pile.now turns) back.now }
            ensures { AllZip (M.done pile.entry.now turns) back.entry.now back.exit.now }
        { take_turns_together(rt, pile, gate, turns, back) },
    );
}
