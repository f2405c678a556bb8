//! The laboratory: streams, albums and runs, and the texts of a report.
//!
//! A run can do without a refused allocation: if a thread cannot be started, the thread that wanted it does its work.

use crate::memory::was_refused;
use crate::trying::{Spares, each_refused, print_refused, refused};
use sand_desk::{journal_text, lab_text};
use sand_lab::{Album, Open, Report, Wish, sites_of};
use sand_model::{Pile, Shape};
use sand_shared::Record;
use sand_testing::pile_with_passes::Left;
use sand_testing::piles::{one_site, open_pile};
use sand_testing::records::is_record;
use sand_testing::runs::{run_into, seen_anew};
use sand_testing::wish;
use std::alloc::Global;
use std::process::Abort;
use std::sync::atomic::AtomicU32;
use std::sync::atomic::Ordering::SeqCst;
use std::test::Fail;
use std::thread::Threads;

// A run of two epochs on a square, and what each epoch and both leave. The first one leaves two grains on the first site.
#[derive(Clone, Copy)]
struct Trial {
    name: &'static str,
    side: usize,
    start: &'static [u64],
    wish: Wish,
    first: Left<'static>,
    second: Left<'static>,
    total: Left<'static>,
}

const TRIALS: [Trial; 3] = [
    Trial {
        name: "run",
        side: 1,
        start: &[0],
        wish: wish!(droppers: 2, drops: 3, epochs: 2),
        first: Left(&[0; 6], &[2], &[1], 4),
        second: Left(&[0; 6], &[0], &[2], 8),
        total: Left(&[0; 12], &[0], &[3], 12),
    },
    Trial {
        name: "run, with workers and observers",
        side: 1,
        start: &[2],
        wish: wish!(seed: 7, droppers: 3, drops: 4, epochs: 2, workers: 2, sweeps: 2, observers: 2),
        first: Left(&[0; 12], &[2], &[3], 12),
        second: Left(&[0; 12], &[2], &[3], 12),
        total: Left(&[0; 24], &[2], &[6], 24),
    },
    Trial {
        name: "run, with a row for each worker",
        side: 2,
        start: &[4; 4],
        wish: wish!(epochs: 2, workers: 2, sweeps: 2),
        first: Left(&[], &[2; 4], &[1; 4], 8),
        second: Left(&[], &[2; 4], &[0; 4], 0),
        total: Left(&[], &[2; 4], &[1; 4], 8),
    },
];

#[test]
fn streams_and_albums_report_out_of_memory(rt: HostRuntime) -> Result<(), Fail> {
    let shape = Shape::new(1, 1)?;
    refused!(rt, "sites_of", alloc => sites_of(alloc, shape, 7, 1, 40), sites =>
        sites.as_slice() == [0; 40].as_slice())?;
    refused!(rt, "Album::new", alloc => Album::new(alloc, 5), album => album.places() == 5)
}

fn has_left(record: &Record, left: Left<'_>) -> bool {
    let Left(history, heights, odometer, lost) = left;
    is_record(record, history, heights, odometer, lost)
}

// Whether a report is right.
fn is_report(report: &Report, trial: &Trial) -> bool {
    matches!(report.records(), [first, second]
        if has_left(first, trial.first) && has_left(second, trial.second))
        && has_left(report.total(), trial.total)
}

// Whether a run into an album has the right result, or the number of its fault.
fn run_once<R: Threads + Sync>(
    rt: &R,
    alloc: Global,
    start: &Pile,
    trial: &Trial,
    album: &Album,
) -> Result<bool, u32> {
    match run_into(rt, alloc, start, trial.wish, &Open, album) {
        Ok(report) => Ok(is_report(&report, trial)),
        Err(fault) => Err(fault.number()),
    }
}

// The epochs and the heights of the first site in the pictures of an album with two places.
fn pictures(album: &Album) -> [Option<(u32, u64)>; 2] {
    [seen_anew(album, 0), seen_anew(album, 1)]
}

// Whether an album shows the first epoch of a failed run, and keeps showing it after a run into the place taken.
fn stays_published<R: Threads + Sync>(
    rt: &R,
    alloc: Global,
    start: &Pile,
    trial: &Trial,
    album: &Album,
) -> bool {
    let first = [Some((0, 2)), None];
    pictures(album) == first
        && run_once(rt, alloc, start, trial, album) == Err(17)
        && pictures(album) == first
}

// A run into an album. If it fails between its two epochs, the first stays published; `between` counts this.
fn run_and_look<R: Threads + Sync>(
    rt: &R,
    alloc: Global,
    start: &Pile,
    trial: &Trial,
    album: &Album,
    between: &AtomicU32,
) -> Result<bool, u32> {
    let outcome = run_once(rt, alloc, start, trial, album);
    was_refused(alloc);
    let [first, second] = pictures(album);
    if outcome.is_err() && first.is_some() && second.is_none() {
        between.fetch_add(1, SeqCst);
        if !stays_published(rt, alloc, start, trial, album) {
            return Ok(false);
        }
    }
    outcome
}

// Two albums, each with a place for each of two epochs.
fn two_albums(alloc: Global) -> Result<Vec<Album>, Fail> {
    let albums = [Album::new(alloc, 2)?, Album::new(alloc, 2)?];
    Ok(Vec::from_array(alloc, albums)?)
}

// Tries a run. If it fails, it is repeated with another album.
fn each_refused_of<R: Threads + Sync + Print + Abort>(
    rt: &R,
    alloc: Global,
    trial: &Trial,
) -> Result<(), Fail> {
    let start = open_pile(alloc, trial.side, trial.side, trial.start)?;
    let between = AtomicU32::new(0);
    let tried = each_refused(
        rt,
        alloc,
        trial.name,
        Spares::Thread,
        two_albums,
        |alloc: Global, albums: &mut Vec<Album>| match albums.pop() {
            Some(album) => run_and_look(rt, alloc, &start, trial, &album, &between),
            None => Ok(false),
        },
    );
    drop(start);
    tried?;
    print_refused(rt, alloc, "between two epochs", between.load(SeqCst), 0)
}

// If the second epoch runs out of memory, what the first epoch published stays: its place is taken, the other is not.
#[test]
fn runs_report_out_of_memory(rt: HostRuntime) -> Result<(), Fail> {
    for trial in &TRIALS {
        each_refused_of(&rt, rt.alloc(), trial)?;
    }
    Ok(())
}

const LAB: &[u8] =
    b"epoch drops topplings lost grains\n0 2 0 0 2\ntotal 2 0 0 2\n1 1\n2\nodometer\n0\n";

const JOURNAL: &[u8] = b"journal\n0 0 0 0\n0 1 0 0\n";

// The texts of a run with one dropper and two drops.
#[test]
fn texts_of_a_run_report_out_of_memory(rt: HostRuntime) -> Result<(), Fail> {
    let start = one_site(rt.alloc(), 0)?;
    let album = Album::new(rt.alloc(), 1)?;
    let ran = run_into(&rt, rt.alloc(), &start, wish!(drops: 2), &Open, &album);
    drop((start, album));
    let report = ran?;
    refused!(rt, "lab_text", alloc => lab_text(alloc, &report), text => text.as_slice() == LAB)?;
    refused!(rt, "journal_text", alloc => journal_text(alloc, &report), text => text.as_slice() == JOURNAL)
}
