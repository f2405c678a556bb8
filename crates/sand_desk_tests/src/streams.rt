//! Commands and help with readers that fail and writers that stop.

use crate::runs::{fault_of, sent};
use crate::stopping::{Cut, Failing, Giver, Sluggish};
use sand_desk::show_help;
use std::alloc::Global;
use std::io::{ErrorKind, Read};
use std::process::Abort;
use std::test::Fail;
use std::thread::Threads;

// The numbers of two faults.
const READ: Option<u32> = Some(20);

const TOO_LONG: Option<u32> = Some(22);

const SETTLE: &str = "settle";

const PILE: &[u8] = b"3 1\n0 4 0\n";

const SETTLED: &[u8] = b"3 1\n1 0 1\nodometer\n0 1 0\nlost 2\ntopplings 1\n";

const RUN: &[u8] =
    b"epoch drops topplings lost grains\n0 2 0 0 2\ntotal 2 0 0 2\n1 1\n2\nodometer\n0\njournal\n0 0 0 0\n0 1 0 0\n";

const DROPS: &[u8] =
    b"number site size area reach lost\n3 1 1 1 0 3\n4 0 0 0 0 0\n5 1 0 0 0 0\n2 1\n2 1\nlost 3\ntopplings 1\n";

const FAILURES: [Option<ErrorKind>; 2] = [Some(ErrorKind::Other), None];

// However a writer stops, it has the first bytes of the text, and the fault says how many.
fn stops<T: Threads + Sync + Abort>(
    rt: &T,
    alloc: Global,
    line: &str,
    bytes: &[u8],
    taken: &[u8],
    failure: Option<ErrorKind>,
) -> Result<(), Fail> {
    let mut reader = bytes;
    let mut writer = Sluggish::new(alloc, taken.len());
    writer.failure = failure;
    let fault = fault_of(rt, alloc, line, &mut reader, &mut writer)?;
    assert_eq!(rt; sent(fault), Some(taken.len()));
    assert_eq!(rt; writer.taken.as_slice(), taken);
    Ok(())
}

#[test]
fn a_writer_that_stops(rt: HostRuntime) -> Result<(), Fail> {
    for (line, stdin, stdout) in [
        (SETTLE, PILE, SETTLED),
        ("lab --droppers 1 --drops 2 --journal", b"1 1\n0\n", RUN),
        ("drops --count 3 --stream 1 --from 3", b"2 1\n0 3\n", DROPS),
    ] {
        for room in 0..stdout.len() {
            for failure in FAILURES {
                stops(&rt, rt.alloc(), line, stdin, &stdout[..room], failure)?;
            }
        }
    }
    Ok(())
}

// The number of the fault of `settle`, if nothing was written.
fn unwritten<T: Threads + Sync, R: Read>(
    rt: &T,
    alloc: Global,
    reader: &mut R,
) -> Result<Option<u32>, Fail> {
    let mut writer = Sluggish::new(alloc, 100);
    let fault = fault_of(rt, alloc, SETTLE, reader, &mut writer)?;
    let number = fault.map(|fault| fault.number());
    Ok(number.filter(|_| writer.taken.is_empty()))
}

#[test]
fn a_writer_that_cannot_flush(rt: HostRuntime) -> Result<(), Fail> {
    let mut reader = PILE;
    let mut writer = Sluggish::new(rt.alloc(), 100);
    writer.flushes = false;
    let fault = fault_of(&rt, rt.alloc(), SETTLE, &mut reader, &mut writer)?;
    assert_eq!(rt; sent(fault), Some(44));
    assert_eq!(rt; writer.taken.as_slice(), SETTLED);
    Ok(())
}

// It is written up to where the writer stops, or fails to flush. Nothing is read.
#[test]
fn help_that_is_not_written_to_its_end(rt: HostRuntime) -> Result<(), Fail> {
    let start = b"Settles a pile: topples sites until each has at most 3 grains\n";
    for room in [0, 1, start.len(), 10_000] {
        let mut writer = Sluggish::new(rt.alloc(), room);
        writer.flushes = false;
        let mut reader = Failing(b"");
        let asked = fault_of(&rt, rt.alloc(), "settle --help", &mut reader, &mut writer)?;
        let shown = show_help(rt.alloc(), asked.ok_or("no help")?, &mut writer);
        let taken = writer.taken.as_slice();
        assert_eq!(rt; sent(shown.err()), Some(taken.len()), "at {room}");
        let is_start = taken
            .iter()
            .zip(start.iter())
            .all(|(byte, due)| byte == due);
        assert!(rt; is_start && taken.len() >= room.min(100), "at {room}");
    }
    Ok(())
}

// It gives one byte per call, or as many as requested.
#[test]
fn a_reader_that_fails_after_some_bytes(rt: HostRuntime) -> Result<(), Fail> {
    for count in 0..PILE.len() + 1 {
        let bytes = &PILE[..count];
        let one_by_one = unwritten(&rt, rt.alloc(), &mut Failing(bytes))?;
        let at_once = unwritten(&rt, rt.alloc(), &mut Cut(bytes))?;
        assert_eq!(rt; [one_by_one, at_once], [READ; 2], "after {count}");
    }
    Ok(())
}

#[test]
fn spaces_without_end(rt: HostRuntime) -> Result<(), Fail> {
    let mut reader = Giver {
        left: usize::MAX,
        step: 1,
        calls: 0,
        fails_at: 0,
    };
    let number = unwritten(&rt, rt.alloc(), &mut reader)?;
    assert_eq!(rt; (number, reader.calls), (TOO_LONG, 1_048_577));
    Ok(())
}
