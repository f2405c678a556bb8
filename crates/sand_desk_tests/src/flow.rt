//! Readers and writers that stop early, fail, or move few bytes per call.

use crate::stopping::{Giver, Sluggish};
use sand_advice::{Cleared, progress_of};
use sand_text::{INPUT_LIMIT, StreamFault, read_all, write_text};
use std::alloc::Global;
use std::io::ErrorKind;
use std::rt::{Clock, Env};
use std::test::Fail;

// A reader is called once after its last byte, and never after it failed or gave too much.
#[test]
fn a_reader_is_read_to_its_end(rt: HostRuntime) -> Result<(), Fail> {
    let too_long = Err(StreamFault::TooLong);
    for (left, step, fails_at, expected) in [
        (0, 1, 0, (Ok(0), 1, 0)),
        (5, 1, 0, (Ok(5), 6, 0)),
        (5, 2, 2, (Err(StreamFault::Read), 2, 3)),
        (5, 2, 1, (Err(StreamFault::Read), 1, 5)),
        (INPUT_LIMIT, 1_000, 0, (Ok(INPUT_LIMIT), 1_050, 0)),
        (INPUT_LIMIT + 1, 1_000, 0, (too_long, 1_049, 0)),
        (INPUT_LIMIT + 9, 1_000, 0, (too_long, 1_049, 8)),
    ] {
        let mut reader = Giver {
            left,
            step,
            calls: 0,
            fails_at,
        };
        let read = read_all(rt.alloc(), &mut reader).map(|text| text.len());
        assert_eq!(rt; (read, reader.calls, reader.left), expected, "at {left}");
    }
    Ok(())
}

const FAILS: Option<ErrorKind> = Some(ErrorKind::Interrupted);

// A writer that stopped is not called again, though it would take more.
#[test]
fn a_text_is_written_up_to_where_the_writer_stops(rt: HostRuntime) -> Result<(), Fail> {
    let text = b"3 1\n0 4 0\n";
    for (step, room, failure, flushes, expected, calls) in [
        (1, 10, FAILS, true, Ok(()), 10),
        (3, 99, FAILS, true, Ok(()), 4),
        (1, 0, FAILS, true, Err(StreamFault::Write(0)), 1),
        (1, 0, None, true, Err(StreamFault::Write(0)), 1),
        (1, 4, FAILS, true, Err(StreamFault::Write(4)), 5),
        (1, 4, None, true, Err(StreamFault::Write(4)), 5),
        (3, 7, FAILS, true, Err(StreamFault::Write(7)), 4),
        (1, 9, FAILS, true, Err(StreamFault::Write(9)), 10),
        (1, 10, FAILS, false, Err(StreamFault::Write(10)), 10),
    ] {
        let mut writer = Sluggish {
            step,
            failure,
            flushes,
            ..Sluggish::new(rt.alloc(), room)
        };
        let written = write_text(&mut writer, text);
        assert_eq!(rt;
            (written, writer.calls),
            (expected, calls),
            "at {step} {room}"
        );
        let (front, _) = text.split_at(room.min(text.len()));
        assert_eq!(rt; writer.taken.as_slice(), front, "at {step} {room}");
    }
    Ok(())
}

// Writes a text by the writer of a terminal to one that takes one byte per call up to `room`, and then fails. No line
// shows the progress, as nothing takes long.
fn written_at_a_terminal<R: Eprint + Clock + Env>(
    rt: &R,
    alloc: Global,
    text: &[u8],
    room: usize,
) -> Result<(), StreamFault> {
    let progress = progress_of(rt, alloc, &[]);
    let mut writer = Sluggish::new(alloc, room);
    writer.failure = FAILS;
    write_text(&mut Cleared::new(writer, progress.as_ref()), text)
}

// The writer of a terminal does not take a part of a text for all of it.
#[test]
fn a_text_at_a_terminal_is_written_up_to_where_the_writer_stops(
    rt: HostRuntime,
) -> Result<(), Fail> {
    for (room, expected) in [(10, Ok(())), (4, Err(StreamFault::Write(4)))] {
        let written = written_at_a_terminal(&rt, rt.alloc(), b"3 1\n0 4 0\n", room);
        assert_eq!(rt; written, expected, "at {room}");
    }
    Ok(())
}
