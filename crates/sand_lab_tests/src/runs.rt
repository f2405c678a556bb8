//! Runs on piles worked out by hand.

use crate::setup::{TWO_EPOCHS, run_gated};
use sand_lab::Open;
use sand_testing::piles::{one_site, open_pile};
use sand_testing::records::{is_record, is_settled};
use sand_testing::wish;
use std::test::Fail;

// Whether these are sixteen tallies of six drops that never decrease.
fn climbs(tallies: &[u64]) -> bool {
    let mut pairs = tallies.iter().zip(tallies.iter().skip(1));
    tallies.len() == 16 && tallies[15] <= 6 && pairs.all(|(one, next)| one <= next)
}

#[test]
fn two_epochs_on_one_site(rt: HostRuntime) -> Result<(), Fail> {
    let start = one_site(rt.alloc(), 0)?;
    let report = run_gated(&rt, rt.alloc(), start, TWO_EPOCHS, &Open)?;
    let [first, second] = report.records() else {
        panic!(rt; "two records");
    };
    assert!(rt; is_record(first, &[0; 6], &[2], &[1], 4));
    assert!(rt; is_record(second, &[0; 6], &[0], &[2], 8));
    assert!(rt; is_record(report.total(), &[0; 12], &[0], &[3], 12));
    assert!(rt; climbs(report.tallies(0, 1)));
    drop(report);
    Ok(())
}

#[test]
fn droppers_that_drop_nothing(rt: HostRuntime) -> Result<(), Fail> {
    let start = one_site(rt.alloc(), 0)?;
    let report = run_gated(&rt, rt.alloc(), start, wish!(droppers: 64), &Open)?;
    let [epoch] = report.records() else {
        panic!(rt; "one record");
    };
    assert!(rt; is_record(epoch, &[], &[0], &[0], 0));
    assert!(rt; report.journal(0).is_empty());
    drop(report);
    Ok(())
}

#[test]
fn as_many_threads_as_there_may_be(rt: HostRuntime) -> Result<(), Fail> {
    let start = one_site(rt.alloc(), 0)?;
    let wish = wish!(droppers: 64, drops: 1, workers: 16, sweeps: 3, observers: 16);
    let report = run_gated(&rt, rt.alloc(), start, wish, &Open)?;
    assert!(rt; is_settled(report.total().settled(), &[0], &[16], 64));
    drop(report);
    Ok(())
}

#[test]
fn each_worker_sweeps_its_row(rt: HostRuntime) -> Result<(), Fail> {
    let start = open_pile(rt.alloc(), 2, 2, &[4; 4])?;
    let report = run_gated(&rt, rt.alloc(), start, wish!(workers: 2, sweeps: 1), &Open)?;
    assert_eq!(rt; [report.swept(0, 0), report.swept(0, 1)], [2, 2]);
    assert!(rt; is_record(report.total(), &[], &[2; 4], &[1; 4], 8));
    drop(report);
    Ok(())
}

// The second band topples 330 and 111 times while the droppers work, then 37 and 11 times in two rounds; the first band
// never topples. The rest topples when the pile is closed.
#[test]
fn rounds_go_on_while_one_band_topples(rt: HostRuntime) -> Result<(), Fail> {
    let mut heights = [0; 64];
    heights[48] = 1000;
    let start = open_pile(rt.alloc(), 1, 64, &heights)?;
    let report = run_gated(&rt, rt.alloc(), start, wish!(workers: 2, sweeps: 2), &Open)?;
    assert_eq!(rt; [report.swept(0, 0), report.swept(0, 1)], [0, 489]);
    assert_eq!(rt; report.total().topplings(), 494);
    drop(report);
    Ok(())
}
