//! Pictures of stable piles.

use sand_model::Pile;
use sand_testing::piles::open_pile;
use std::alloc::Global;
use std::test::Fail;

/// A line of 35 zeros.
const LINE: &str = "0 0 0 0 0 0 0 0 0 0 0 0 0 0 0 0 0 0 0 0 0 0 0 0 0 0 0 0 0 0 0 0 0 0 0\n";

// Whether a text consists of these parts, in this order.
fn has_parts(text: &[u8], parts: &[&str]) -> bool {
    let mut rest = text;
    for part in parts {
        let Some(after) = rest.strip_prefix(part.as_bytes()) else {
            return false;
        };
        rest = after;
    }
    rest.is_empty()
}

// Whether a pile is stable, and the calls of `sand_text` and `sand_desk` both write this picture of it.
fn is_drawn(alloc: Global, pile: &Pile, parts: &[&str]) -> bool {
    pile.is_stable()
        && sand_text::pgm_text(alloc, pile).is_ok_and(|text| has_parts(text.as_slice(), parts))
        && sand_desk::pgm_text(alloc, pile).is_ok_and(|text| has_parts(text.as_slice(), parts))
}

// Each row of the grid starts a new line; a line has at most 35 values and is never empty.
#[test]
fn pictures_of_narrow_and_wide_piles(rt: HostRuntime) -> Result<(), Fail> {
    for (width, height, heights, parts) in [
        (2, 2, [2; 4].as_slice(), ["P2\n2 2\n3\n", "2 2\n", "2 2\n"]),
        (1, 2, &[3; 2], ["P2\n1 2\n3\n", "3\n", "3\n"]),
        (35, 1, &[0; 35], ["P2\n35 1\n3\n", LINE, ""]),
        (36, 1, &[0; 36], ["P2\n36 1\n3\n", LINE, "0\n"]),
        (70, 1, &[0; 70], ["P2\n70 1\n3\n", LINE, LINE]),
    ] {
        let pile = open_pile(rt.alloc(), width, height, heights)?;
        assert!(rt; is_drawn(rt.alloc(), &pile, &parts), "{width} by {height}");
    }
    Ok(())
}
