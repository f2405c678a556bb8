//! Two threads that meet, and then drop or sweep on one pile at the same time.

ghost use Rattle.std.specs.Prelude.{◌<◌, IfSome};
ghost use Rattle.std.specs.Thread.{IsSync};
ghost use Rattle.sand_model.specs.Grid.{sites};
ghost use Rattle.sand_shared.specs.OpenPile.{grid_of_terms};
ghost use Rattle.sand_shared.specs.Passes.{IsPassOf};

use crate::meeting::Meeting;
use crate::records::drop_rest;
use sand_shared::{Pass, SharedPile};
use std::thread::{Threads, join};

// Meets the other thread; then makes all remaining drops at a site, or sweeps if none is given. Also returns how often
// the sweep toppled, or nothing if they did not meet.
fn take_turn(
    pile: &SharedPile,
    meeting: &Meeting,
    mut pass: Pass,
    site: Option<usize>,
) -> (Pass, Option<u64>)
    requires pass { IsPassOf pile.now pass }
    requires site { IfSome site (λ s. s < sites (grid_of_terms pile.now.terms)) }
    ensures { IsPassOf pile.now result.0 }
{
    meeting.begin();
    let met = meeting.waited_for(2);
    let topplings = match site {
        Some(site) => {
            drop_rest(pile, &mut pass, site);
            0
        }
        None => pile.sweep(&mut pass),
    };
    (pass, met.then_some(topplings))
}

/// Two threads meet; then each makes all remaining drops of its pass at its site, or sweeps if it has none. Also
/// returns how often the sweep of each toppled, or nothing if they did not meet.
pub fn both_at_once<R: Threads + Sync>(
    rt: &R,
    pile: &SharedPile,
    one: Pass,
    other: Pass,
    here: Option<usize>,
    there: Option<usize>,
) -> (Pass, Pass, Option<(u64, u64)>)
    requires one { IsPassOf pile.now one }
    requires other { IsPassOf pile.now other }
    requires here { IfSome here (λ s. s < sites (grid_of_terms pile.now.terms)) }
    requires there { IfSome there (λ s. s < sites (grid_of_terms pile.now.terms)) }
    ensures one { IsPassOf pile.now result.0 }
    ensures other { IsPassOf pile.now result.1 }
{
    let meeting = Meeting::new();
    let place = &meeting;
    let (first, second) = join(
        rt,
        move || -> (Pass, Option<u64>)
            requires { IsPassOf pile.now one × IfSome here (λ s. s < sites (grid_of_terms pile.now.terms)) }
            ensures { IsPassOf pile.entry.now result.0 }
        { take_turn(pile, place, one, here) },
        move || -> (Pass, Option<u64>)
            requires { IsPassOf pile.now other × IfSome there (λ s. s < sites (grid_of_terms pile.now.terms)) }
            ensures { IsPassOf pile.entry.now result.0 }
        { take_turn(pile, place, other, there) },
    );
    (first.0, second.0, first.1.zip(second.1))
}
