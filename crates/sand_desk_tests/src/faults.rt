//! Fault lines that no command writes, and the numbers of faults. Names and numbers are in docs/FORMATS.md.

use crate::readings::has_line;
use crate::runs::{fault_of, sent};
use crate::stopping::{Failing, Sluggish};
use sand_desk::DeskFault::{
    Full, Length, Memory, Narrow, NoSite, NotRecurrent, Read, Shapes, Side, Taken, Text, TooLarge,
    TooLong, TooManyGrains, Unstable, Write,
};
use sand_desk::{DeskFault, status, write_fault};
use sand_text::{ReadFault, StreamFault, TextFault};
use std::test::Fail;

#[test]
fn lines_that_no_command_writes(rt: HostRuntime) {
    for (fault, line) in [
        (Taken, "fault 17 Taken\n"),
        (Write(44), "fault 21 Write after 44\n"),
        (
            Write(usize::MAX),
            "fault 21 Write after 18446744073709551615\n",
        ),
    ] {
        assert!(rt; has_line(rt.alloc(), &fault, line), "{line}");
        drop(fault);
    }
}

#[test]
fn a_line_that_does_not_fit(rt: HostRuntime) {
    let mut writer = Sluggish::new(rt.alloc(), 7);
    let written = write_fault(&Write(44), &mut writer);
    assert!(rt; sent(written.err()) == Some(7));
    assert!(rt; writer.taken.as_slice() == b"fault 2".as_slice());
}

// The faults of a command but misuse, their numbers, and what they say.
const SENTENCES: [(DeskFault, u32, &str); 16] = [
    (Side, 1, "width or height is outside 1 to 256"),
    (Length, 2, "wrong number of heights"),
    (TooManyGrains, 3, "too many grains"),
    (Memory, 4, "out of memory"),
    (Full, 6, "one more drop would exceed the grain limit"),
    (Unstable, 7, "a height is over 3"),
    (NotRecurrent, 8, "there is a forbidden set"),
    (Shapes, 9, "the two piles have different shapes"),
    (Taken, 17, "an epoch's place in the album is already set"),
    (Text(7), 18, "unexpected byte or end of input, at byte 7"),
    (
        TooLarge(7),
        19,
        "the number at byte 7 is over the grain limit",
    ),
    (Read, 20, "the reader failed"),
    (Write(7), 21, "the writer failed after 7 bytes"),
    (TooLong, 22, "too much input"),
    (Narrow, 24, "a cylinder is less than 3 wide"),
    (NoSite(7), 25, "drop 7 is outside the grid"),
];

// `sandpile explain` says more about each fault (cases/explain.txt).
#[test]
fn what_a_fault_says(rt: HostRuntime) -> Result<(), Fail> {
    for (fault, number, expected) in SENTENCES {
        assert_eq!(rt; fault.number(), number, "{expected}");
        let sentence = format!(in rt.alloc(); "{fault}")?;
        assert_eq!(rt; sentence.as_str(), expected);
        drop(fault);
    }
    Ok(())
}

#[test]
fn numbers_and_statuses_of_misuse_and_of_help(rt: HostRuntime) -> Result<(), Fail> {
    for (line, expected) in [("", 2), ("settle --pile --pgm", 2), ("--help", 0)] {
        let mut reader = Failing(b"");
        let mut writer = Sluggish::new(rt.alloc(), 0);
        let fault = fault_of(&rt, rt.alloc(), line, &mut reader, &mut writer)?;
        let told = fault.map(|fault| (fault.number(), status(&fault)));
        assert_eq!(rt; told, Some((23, expected)));
    }
    Ok(())
}

#[test]
fn numbers_of_the_faults_of_texts_and_streams(rt: HostRuntime) {
    for (number, expected) in [
        (TextFault::Side.number(), 1),
        (TextFault::Length.number(), 2),
        (TextFault::TooManyGrains.number(), 3),
        (TextFault::Text(7).number(), 18),
        (TextFault::TooLarge(7).number(), 19),
        (TextFault::Narrow.number(), 24),
        (TextFault::NoSite(7).number(), 25),
        (ReadFault::Text(TextFault::NoSite(7)).number(), 25),
        (ReadFault::Memory.number(), 4),
        (StreamFault::Memory.number(), 4),
        (StreamFault::Read.number(), 20),
        (StreamFault::Write(7).number(), 21),
        (StreamFault::TooLong.number(), 22),
    ] {
        assert_eq!(rt; number, expected);
    }
}
