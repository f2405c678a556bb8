//! Texts that the parsers accept or reject, and the fault line of each rejection.

use sand_desk::{DeskFault, read_drops, read_pile, read_two, status, write_fault};
use std::alloc::Global;
use std::test::Fail;

/// Whether this line reports a fault, and the program ends with status 1.
pub(crate) fn has_line(alloc: Global, fault: &DeskFault, line: &str) -> bool {
    if fault.number() == 23 || status(fault) != 1 {
        return false;
    }
    let mut actual = Vec::new(alloc);
    write_fault(fault, &mut actual).is_ok() && actual.as_slice() == line.as_bytes()
}

// Whether parsing failed with the fault of this line.
fn is_refused<T: Drop>(alloc: Global, read: Result<T, DeskFault>, line: &str) -> bool {
    read.is_err_and(|fault| has_line(alloc, &fault, line))
}

#[test]
fn texts_that_are_no_pile(rt: HostRuntime) {
    for (text, line) in [
        ("", "fault 18 Text at 0\n"),
        ("2 1\n3 x", "fault 18 Text at 6\n"),
        ("1 1\n-1", "fault 18 Text at 4\n"),
        ("3 c 1\n0 0 0", "fault 18 Text at 2\n"),
        ("3 1c\n0 0 0", "fault 18 Text at 3\n"),
        ("1 1\n1099511627776", "fault 19 TooLarge at 4\n"),
        ("0 1\n", "fault 1 Side\n"),
        ("0 1 c", "fault 1 Side\n"),
        ("2 1 c\n0 0", "fault 24 Narrow\n"),
        ("2 1\n3", "fault 2 Length\n"),
        ("3 1 c", "fault 2 Length\n"),
        ("2 1\n1099511627775 1", "fault 3 TooManyGrains\n"),
    ] {
        let read = read_pile(rt.alloc(), text.as_bytes());
        assert!(rt; is_refused(rt.alloc(), read, line), "{text}");
    }
}

#[test]
fn texts_that_are_no_two_piles_and_no_drops(rt: HostRuntime) {
    let alloc = rt.alloc();
    let one = read_two(alloc, b"2 1\n0 0\n");
    assert!(rt; is_refused(alloc, one, "fault 18 Text at 8\n"));
    let short = read_two(alloc, b"2 1\n0");
    assert!(rt; is_refused(alloc, short, "fault 2 Length\n"));
    let outside = read_drops(alloc, b"1 1\n0 0 1");
    assert!(rt; is_refused(alloc, outside, "fault 25 NoSite at 1\n"));
}

#[test]
fn a_pile_with_white_space_and_leading_zeros(rt: HostRuntime) -> Result<(), Fail> {
    let pile = read_pile(rt.alloc(), b" 01\t1\r\n007 ");
    let (shape, heights) = pile.ok().ok_or("no pile")?.into_parts();
    assert!(rt; (shape.width(), shape.height()) == (1, 1));
    assert!(rt; heights.as_slice() == [7].as_slice());
    Ok(())
}
