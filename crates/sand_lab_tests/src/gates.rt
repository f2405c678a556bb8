//! Runs with gates that hold threads until others have begun a turn.

ghost use Rattle.std.specs.Prelude.{◌≡◌, ℕ, ◌<◌, IfOk, length};
ghost use Rattle.sand_lab.specs.Reports.{sheet_at};

use crate::holding::{Chain, Turn, dropper, observer, worker};
use crate::setup::run_gated;
use sand_lab::{Entry, Report, Wish};
use sand_model::Pile;
use sand_testing::piles::{one_site, open_pile};
use sand_testing::wish;
use std::alloc::{AllocError, Global};
use std::process::Abort;
use std::test::Fail;
use std::thread::Threads;

// The report of a run with each of these turns held until the next one has begun, and none released early.
fn run_held<R: Threads + Sync + Abort>(
    rt: &R,
    alloc: Global,
    start: Pile,
    wish: Wish,
    turns: &[Turn],
) -> Result<Report, Fail>
    ensures epochs { IfOk result (λ p. length p.sheets ≡ wish.epochs) }
    ensures tallies { IfOk result (λ p. (t : ℕ) → t < wish.epochs → length (sheet_at p t).tallies ≡ wish.observers) }
    ensures swept { IfOk result (λ p. (t : ℕ) → t < wish.epochs → length (sheet_at p t).swept ≡ wish.workers) }
{
    let gate = Chain::new(alloc, turns)?;
    let report = run_gated(rt, alloc, start, wish, &gate)?;
    assert!(rt; gate.has_held(), "{turns:?}");
    Ok(report)
}

// Each thread is held at its turn until all others have begun theirs.
#[test]
fn threads_meet(rt: HostRuntime) -> Result<(), Fail> {
    let (fall, sweep, tally) = (dropper(0, 0), worker(0), observer(0));
    for (wish, turns) in [
        (
            wish!(droppers: 2, drops: 1),
            [fall, dropper(1, 0), fall].as_slice(),
        ),
        (wish!(drops: 1, sweeps: 2), &[fall, worker(1), fall]),
        (
            wish!(drops: 1, sweeps: 1, observers: 1),
            &[fall, sweep, fall, tally, sweep, tally, fall],
        ),
    ] {
        let start = one_site(rt.alloc(), 0)?;
        drop(run_held(&rt, rt.alloc(), start, wish, turns)?);
    }
    Ok(())
}

// Each of the first two tallies of an observer is read after the gate's call for a drop and before that drop is made.
// No drop is made before the gate's call for the first tally.
#[test]
fn an_observer_reads_between_two_drops(rt: HostRuntime) -> Result<(), Fail> {
    for (drops, first, second) in [(3, 1, 2), (40, 20, 21)] {
        let start = one_site(rt.alloc(), 0)?;
        let wish = wish!(drops: drops, observers: 1);
        let turns = [
            dropper(0, 0),
            observer(0),
            dropper(0, first),
            observer(1),
            dropper(0, second),
            observer(2),
        ];
        let report = run_held(&rt, rt.alloc(), start, wish, &turns)?;
        let due = [u64::from(first), u64::from(second)];
        assert!(rt; report.tallies(0, 0).starts_with(&due), "{drops} drops");
        drop(report);
    }
    Ok(())
}

// Turns in which two droppers alternate: each drop is made after the other dropper's drop before it.
fn in_turn(alloc: Global, droppers: [u32; 2]) -> Result<Vec<Turn>, AllocError> {
    let mut turns = Vec::new(alloc);
    for turn in 0..34 {
        turns.push(dropper(droppers[0], turn))?;
        turns.push(dropper(droppers[1], turn))?;
    }
    Ok(turns)
}

// Whether two droppers alternate in the first 66 drops of a journal.
fn alternates(journal: &[Entry], droppers: [u32; 2]) -> bool {
    (0..66).all(|n| journal.get(n).map(|entry| entry.dropper) == Some(droppers[n % 2]))
}

#[test]
fn the_journal_has_the_order_of_the_drops(rt: HostRuntime) -> Result<(), Fail> {
    for droppers in [[0, 1], [1, 0]] {
        let start = one_site(rt.alloc(), 0)?;
        let wish = wish!(droppers: 2, drops: 34);
        let turns = in_turn(rt.alloc(), droppers)?;
        let report = run_held(&rt, rt.alloc(), start, wish, turns.as_slice())?;
        assert!(rt; alternates(report.journal(0), droppers), "{droppers:?}");
        drop((report, turns));
    }
    Ok(())
}

// Both drops are on the second site. The sweep after the first drop topples that site, and the round after the drops
// topples the first site. A sweep before the drops would topple nothing, and the first site would topple only in the
// settling.
#[test]
fn a_worker_sweeps_after_its_gate(rt: HostRuntime) -> Result<(), Fail> {
    let start = open_pile(rt.alloc(), 2, 1, &[3, 3])?;
    let wish = wish!(seed: 1, drops: 2, sweeps: 1);
    let turns = [dropper(0, 0), worker(0), dropper(0, 1)];
    let report = run_held(&rt, rt.alloc(), start, wish, &turns)?;
    assert_eq!(rt; report.swept(0, 0), 2);
    drop(report);
    Ok(())
}

// Both droppers wait for the worker's last turn, so nothing topples before it, and one sweep is not enough.
#[test]
fn rounds_sweep_until_nothing_topples(rt: HostRuntime) -> Result<(), Fail> {
    let start = open_pile(rt.alloc(), 8, 8, &[3; 64])?;
    let wish = wish!(seed: 42, droppers: 2, drops: 50, sweeps: 600);
    let turns = [dropper(0, 0), worker(599), dropper(1, 0), worker(599)];
    let report = run_held(&rt, rt.alloc(), start, wish, &turns)?;
    let topplings = report.total().topplings();
    assert_eq!(rt; (topplings, report.swept(0, 0)), (567, 567));
    drop(report);
    Ok(())
}
