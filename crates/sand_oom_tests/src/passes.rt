//! Shared piles and passes: made, split, joined and ended.

use crate::memory::was_refused;
use crate::piles::full;
use crate::trying::refused;
use sand_model::Edge::Open;
use sand_shared::{Pass, SharedFault, SharedPile, SiteCounts};
use sand_testing::pile_with_passes::Call::{
    DropRest, Holds, IntoBare, Join, JoinAll, JoinBare, Split, SplitRows, Sweep, Toppled,
};
use sand_testing::pile_with_passes::Returned::{Done, Fault, Has, Number};
use sand_testing::pile_with_passes::{Call, Ending, Left, PileWithPasses, Returned, Start};
use std::alloc::Global;
use std::test::Fail;

// Whether a pass has a quota of 7 and all of three rows, and has done nothing.
fn is_first(pass: &Pass) -> bool {
    let drops = (pass.left(), pass.receipts().len(), pass.seen());
    drops == (7, 0, 0) && pass.rows() == (0, 3)
}

#[test]
fn new_shared_piles_report_out_of_memory(rt: HostRuntime) -> Result<(), Fail> {
    let start = full(rt.alloc())?;
    refused!(rt, "SharedPile::new", alloc => SharedPile::new(alloc, &start, 7), made => is_first(&made.1))?;
    let shape = start.shape();
    refused!(rt, "SiteCounts::new", alloc => SiteCounts::new(alloc, shape).map_err(SharedFault::Memory), _counts => true)
}

// A call on a shared pile, or its ending if no call is given: the calls before it, what these calls return until it
// succeeds, and those after it, before the ending.
#[derive(Clone, Copy)]
struct Trial {
    name: &'static str,
    start: Start<'static>,
    before: &'static [(Call, Returned)],
    unchanged: &'static [(Call, Returned)],
    call: Option<Call>,
    after: &'static [(Call, Returned)],
    ending: Ending,
    left: Left<'static>,
}

// Three by three sites of three grains, and a quota of five.
const SPLIT: Trial = Trial {
    name: "SharedPile::split",
    start: Start(Open, (3, 3), &[3; 9], 5),
    before: &[],
    unchanged: &[(Holds(0), Has(5, 0, 0, 0, 3))],
    call: Some(Split(0, 2)),
    after: &[
        (Holds(1), Has(2, 0, 0, 0, 0)),
        (Holds(0), Has(3, 0, 0, 0, 3)),
        (Join(0, 1), Done),
    ],
    ending: Ending::Close,
    left: Left(&[], &[3; 9], &[0; 9], 0),
};

// The last two of three rows are split off.
const SPLIT_ROWS: Trial = Trial {
    name: "SharedPile::split_rows",
    call: Some(SplitRows(0, 2)),
    after: &[
        (Holds(1), Has(0, 0, 0, 1, 3)),
        (Holds(0), Has(5, 0, 0, 0, 1)),
        (Join(0, 1), Done),
    ],
    ..SPLIT
};

// A pass of quota 2 that has dropped twice is joined to a child of quota 2, which has to grow for its receipts.
const JOIN: Trial = Trial {
    name: "SharedPile::join",
    start: Start(Open, (1, 1), &[0], 4),
    before: &[
        (Split(0, 2), Done),
        (DropRest(0, 0), Done),
        (DropRest(1, 0), Done),
    ],
    unchanged: &[
        (Holds(1), Has(0, 2, 4, 0, 0)),
        (Holds(0), Has(0, 2, 2, 0, 1)),
    ],
    call: Some(Join(1, 0)),
    after: &[],
    ending: Ending::Close,
    left: Left(&[0; 4], &[0], &[1], 4),
};

// A child of quota 1 takes in the pass, which has dropped twelve times, and another child. It has to grow for the
// receipts of each.
const JOIN_ALL: Trial = Trial {
    name: "SharedPile::join_all",
    start: Start(Open, (1, 1), &[0], 14),
    before: &[
        (Split(0, 1), Done),
        (Split(0, 1), Done),
        (DropRest(1, 0), Done),
        (DropRest(2, 0), Done),
        (DropRest(0, 0), Done),
    ],
    unchanged: &[],
    call: Some(JoinAll(1)),
    left: Left(&[0; 14], &[2], &[3], 12),
    ..JOIN
};

// Three rows of one site: the pass of the second takes in that of the third, and has to grow for its count.
const JOIN_BARE: Trial = Trial {
    name: "SharedPile::join_bare",
    start: Start(Open, (1, 3), &[1; 3], 0),
    before: &[
        (SplitRows(0, 1), Done),
        (SplitRows(0, 1), Done),
        (IntoBare(0), Done),
        (IntoBare(1), Done),
        (IntoBare(0), Done),
    ],
    unchanged: &[],
    call: Some(JoinBare),
    after: &[(JoinBare, Done)],
    ending: Ending::SettleRest,
    left: Left(&[], &[1; 3], &[0; 3], 0),
};

// Two sites that topple once each, as the pile is closed.
const CLOSE: Trial = Trial {
    name: "SharedPile::close",
    start: Start(Open, (2, 1), &[4, 4], 0),
    before: &[],
    unchanged: &[(Toppled(0, 0), Number(0)), (Toppled(0, 1), Number(0))],
    call: None,
    after: &[],
    ending: Ending::Close,
    left: Left(&[], &[1, 1], &[1, 1], 6),
};

// Topplings in place stay counted.
const CLOSE_SWEPT: Trial = Trial {
    name: "SharedPile::close, after a sweep",
    before: &[(Sweep(0), Number(2))],
    unchanged: &[(Toppled(0, 0), Number(1)), (Toppled(0, 1), Number(1))],
    ..CLOSE
};

// What the second site gives to the first topples when the pile is settled.
const SETTLE_SWEPT: Trial = Trial {
    name: "SharedPile::settle, after a sweep",
    start: Start(Open, (2, 1), &[3, 4], 0),
    before: &[(Sweep(0), Number(1))],
    unchanged: &[(Toppled(0, 0), Number(0)), (Toppled(0, 1), Number(1))],
    ending: Ending::Settle,
    left: Left(&[], &[0, 1], &[1, 1], 6),
    ..CLOSE
};

// The second site topples in place, and so the first one in plain memory.
const RECORD_NOW: Trial = Trial {
    name: "SharedPile::record_now",
    start: Start(Open, (2, 1), &[3, 3], 1),
    before: &[(DropRest(0, 1), Done), (Sweep(0), Number(1))],
    unchanged: &[
        (Holds(0), Has(0, 1, 1, 0, 1)),
        (Toppled(0, 0), Number(0)),
        (Toppled(0, 1), Number(1)),
    ],
    ending: Ending::RecordNow,
    left: Left(&[1], &[0, 1], &[1, 1], 6),
    ..CLOSE
};

// Two sites of seven grains.
const SETTLE_REST: Trial = Trial {
    name: "SharedPile::settle_rest",
    start: Start(Open, (2, 1), &[7, 7], 0),
    before: &[(IntoBare(0), Done)],
    unchanged: &[],
    ending: Ending::SettleRest,
    left: Left(&[], &[1, 1], &[2, 2], 12),
    ..CLOSE
};

// Makes the tested call; then, with all its memory, what follows it.
fn call(
    alloc: Global,
    mut pile: PileWithPasses,
    trial: Trial,
) -> Result<bool, (u32, PileWithPasses)> {
    if let Some(call) = trial.call {
        let returned = pile.call(alloc, call);
        was_refused(alloc);
        if let Some(Fault(fault)) = returned {
            return Err((fault, pile));
        }
    }
    match pile.play(alloc, trial.after) {
        Some(pile) => pile.end(alloc, trial.ending, trial.left),
        None => Ok(false),
    }
}

// One try, which takes the pile out of its place unless it fails.
fn once(alloc: Global, place: &mut Option<PileWithPasses>, trial: Trial) -> Result<bool, u32> {
    let pile = place.take();
    let Some(pile) = pile.and_then(|pile| pile.play(alloc, trial.unchanged)) else {
        return Ok(false);
    };
    call(alloc, pile, trial).map_err(|(fault, pile)| {
        *place = Some(pile);
        fault
    })
}

#[test]
fn calls_on_a_shared_pile_report_out_of_memory(rt: HostRuntime) -> Result<(), Fail> {
    for trial in [
        SPLIT,
        SPLIT_ROWS,
        JOIN,
        JOIN_ALL,
        JOIN_BARE,
        CLOSE,
        CLOSE_SWEPT,
        SETTLE_SWEPT,
        RECORD_NOW,
        SETTLE_REST,
    ] {
        refused!(
            rt,
            trial.name,
            |alloc: Global| Ok(PileWithPasses::played(alloc, trial.start, trial.before)),
            |alloc: Global, place: &mut Option<PileWithPasses>| once(alloc, place, trial)
        )?;
    }
    Ok(())
}
