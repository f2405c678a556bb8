//! Worked examples, and what no contract says: that a call succeeds.

use crate::piles::{pile_on, row};
use sand_model::{Edge, Pile};
use sand_settle::{OnePile, settle};
use std::alloc::Global;
use std::test::Fail;

// Whether a pile settles to these heights, with this odometer, and these numbers of lost grains and topplings.
fn settles(
    alloc: Global,
    start: Option<Pile>,
    heights: &[u64],
    odometer: &[u64],
    sums: (u64, u64),
) -> Option<bool> {
    let record = settle(alloc, &start?).ok()?;
    let is_right = record.pile().heights() == heights && record.odometers() == odometer;
    Some(is_right && (record.lost(), record.topplings()) == sums)
}

// Piles in one row, the heights and the odometer once they are settled, and the numbers of lost grains and topplings.
const SETTLED: [(Edge, &[u64], &[u64], &[u64], (u64, u64)); 4] = [
    (Edge::Open, &[0, 4, 0], &[1, 0, 1], &[0, 1, 0], (2, 1)),
    (Edge::Open, &[4, 4], &[1, 1], &[1, 1], (6, 2)),
    (Edge::Open, &[3, 0, 3], &[3, 0, 3], &[0, 0, 0], (0, 0)),
    (Edge::Cylinder, &[4, 4, 4], &[2, 2, 2], &[1, 1, 1], (6, 3)),
];

#[test]
fn settles_as_worked_out(rt: HostRuntime) {
    for (edge, start, heights, odometer, sums) in SETTLED {
        let pile = pile_on(rt.alloc(), start.len(), 1, edge, start);
        let settles = settles(rt.alloc(), pile, heights, odometer, sums);
        assert!(rt; settles == Some(true), "{start:?}");
    }
}

#[test]
fn settles_high_piles_of_one_site(rt: HostRuntime) {
    for (start, height, topplings) in [
        (0, 0, 0),
        (4_294_967_295, 3, 1_073_741_823),
        (4_294_967_296, 0, 1_073_741_824),
        (1_099_511_627_775, 3, 274_877_906_943),
    ] {
        let pile = row(rt.alloc(), &[start]);
        let sums = (start - height, topplings);
        let settles = settles(rt.alloc(), pile, &[height], &[topplings], sums);
        assert!(rt; settles == Some(true), "at {start}");
    }
}

// The settled pile of one thread.
fn one_of(alloc: Global, start: Option<Pile>) -> Option<OnePile> {
    OnePile::new(alloc, &start?).ok()
}

// The number, site, size, area, reach and lost grains of a drop.
type Dropped = (u64, usize, u64, u32, u32, u64);

// Drops a grain. Returns the number of the fault if it is refused; 0 if the site is not in the grid. No clause says so,
// because each clause lengthens the proofs of the callers.
fn drop_at(alloc: Global, one: &mut OnePile, site: usize) -> Result<Dropped, u32> {
    if site >= one.pile().shape().sites() {
        return Err(0);
    }
    let dropped = one.drop_at(alloc, site);
    let (number, a) = dropped.map_err(|fault| fault.number())?;
    Ok((number, a.site, a.size, a.area, a.reach, a.lost))
}

// Whether a pile has these heights and this odometer.
fn has(one: &OnePile, heights: &[u64], odometer: &[u64]) -> bool {
    one.pile().heights() == heights && one.odometers() == odometer
}

#[test]
fn two_drops_on_a_full_square(rt: HostRuntime) -> Result<(), Fail> {
    let start = pile_on(rt.alloc(), 3, 3, Edge::Open, &[3; 9]);
    let mut one = one_of(rt.alloc(), start).ok_or("no pile")?;
    let odometer = [1, 1, 1, 1, 2, 1, 1, 1, 1];
    let first = drop_at(rt.alloc(), &mut one, 4);
    assert!(rt; first == Ok((0, 4, 10, 9, 2, 12)));
    assert!(rt; has(&one, &[1, 3, 1, 3, 0, 3, 1, 3, 1], &odometer));
    let second = drop_at(rt.alloc(), &mut one, 0);
    assert!(rt; second == Ok((1, 0, 0, 0, 0, 0)));
    assert!(rt; has(&one, &[2, 3, 1, 3, 0, 3, 1, 3, 1], &odometer));
    assert!(rt; (one.tally(), one.lost(), one.topplings()) == (2, 12, 10));
    drop(one);
    Ok(())
}

// The number of the fault of a first drop on a pile of one site, and the number of drops after it.
fn refusal(alloc: Global, height: u64) -> Option<(u32, u64)> {
    let mut one = one_of(alloc, row(alloc, &[height]))?;
    let fault = drop_at(alloc, &mut one, 0).err();
    let tally = one.tally();
    drop(one);
    Some((fault?, tally))
}

#[test]
fn refuses_a_drop_over_the_limit(rt: HostRuntime) {
    assert!(rt; refusal(rt.alloc(), 1_099_511_627_775) == Some((6, 0)));
}
