//! Two threads that drop or sweep on one pile at the same time, on values worked out by hand.

use crate::passes::{TWO_ROWS, TWO_ROWS_SWEPT};
use sand_model::Edge::Open;
use sand_testing::pile_with_passes::Call::{DropAt, Join, Split, SplitRows, Toppled};
use sand_testing::pile_with_passes::Returned::{Done, Number};
use sand_testing::pile_with_passes::{
    Call, ENDINGS, Ending, Left, PileWithPasses, Returned, Start,
};
use std::alloc::Global;
use std::thread::Threads;

const ROUNDS: usize = 100;

// Runs the two passes that these calls leave on two threads that meet, each with drops at its site or a sweep, and joins
// them. Also returns how often the sweep of each toppled.
fn met<R: Threads + Sync>(
    rt: &R,
    alloc: Global,
    start: Start<'_>,
    calls: &[(Call, Returned)],
    sites: [Option<usize>; 2],
) -> Option<(PileWithPasses, (u64, u64))> {
    let pile = PileWithPasses::played(alloc, start, calls)?;
    let (pile, swept) = pile.both_at_once(rt, sites[0], sites[1])?;
    Some((pile.play(alloc, &[(Join(0, 1), Done)])?, swept))
}

// Whether a receipt of the first pass, and no other, has this number.
fn is_once(pile: &PileWithPasses, number: u64) -> bool {
    let receipts = pile.receipts(0).iter();
    receipts.filter(|receipt| receipt.number == number).count() == 1
}

// Whether the numbers of the drops of each pass increase.
fn numbers_rise(pile: &PileWithPasses) -> bool {
    matches!(pile.receipts(0), [a, b, c, d] if a.number < b.number && c.number < d.number)
}

#[test]
fn two_threads_drop_on_one_site(rt: HostRuntime) {
    let left = Left(&[0, 0, 0, 0], &[0], &[1], 4);
    let start = Start(Open, (1, 1), &[0], 4);
    let met = met(&rt, rt.alloc(), start, &[(Split(0, 2), Done)], [Some(0); 2]);
    let (pile, _) = met.expect(&rt, "they meet");
    assert!(rt; numbers_rise(&pile));
    assert!(rt; (0..4).all(|number| is_once(&pile, number)));
    assert!(rt; pile.leaves(rt.alloc(), Ending::Close, left));
}

// The history has the order of their numbers.
#[test]
fn two_threads_drop_on_two_sites(rt: HostRuntime) {
    let start = Start(Open, (2, 1), &[3, 3], 2);
    for ending in ENDINGS {
        let split = [(Split(0, 1), Done)];
        let met = met(&rt, rt.alloc(), start, &split, [Some(0), Some(1)]);
        let (pile, _) = met.expect(&rt, "they meet");
        let history = match pile.receipts(0) {
            [first, _] if first.number == 0 => [0, 1],
            _ => [1, 0],
        };
        assert!(rt; pile.leaves(rt.alloc(), ending, Left(&history, &[1, 1], &[1, 1], 6)));
    }
}

// They sweep after a drop in the middle, with the same result as one thread.
#[test]
fn two_threads_sweep_at_once(rt: HostRuntime) {
    let start = Start(Open, (3, 3), &[3; 9], 1);
    let calls = [(DropAt(0, 4), Number(0)), (SplitRows(0, 2), Done)];
    let left = Left(
        &[4],
        &[1, 3, 1, 3, 0, 3, 1, 3, 1],
        &[1, 1, 1, 1, 2, 1, 1, 1, 1],
        12,
    );
    for ending in ENDINGS {
        let met = met(&rt, rt.alloc(), start, &calls, [None; 2]);
        let (pile, _) = met.expect(&rt, "they meet");
        assert!(rt; pile.leaves(rt.alloc(), ending, left));
    }
}

// Whether each of two threads that sweep a row topples it once, whichever is first.
fn sweep_a_row_each<R: Threads + Sync>(rt: &R, alloc: Global, ending: Ending) -> Option<bool> {
    let (pile, swept) = met(rt, alloc, TWO_ROWS, &[(SplitRows(0, 1), Done)], [None; 2])?;
    let calls = [(Toppled(0, 0), Number(1)), (Toppled(0, 1), Number(1))];
    let pile = pile.play(alloc, &calls)?;
    Some(pile.leaves(alloc, ending, TWO_ROWS_SWEPT) && swept == (1, 1))
}

#[test]
fn two_threads_sweep_a_row_each(rt: HostRuntime) {
    for _ in 0..ROUNDS {
        for ending in ENDINGS {
            assert!(rt; sweep_a_row_each(&rt, rt.alloc(), ending) == Some(true));
        }
    }
}
