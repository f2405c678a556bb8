//! What the command `explain` says: what each fault means that a command may report, and what to do about it.

use std::alloc::{AllocError, Global};

/// The explanation of a fault. Its lines are at most 76 bytes long, because they are indented by two spaces.
#[derive(Clone, Copy)]
pub struct Explained {
    pub number: u32,
    pub name: &'static str,
    pub meaning: &'static str,
    pub remedy: &'static str,
}

/// All faults that a command may report, by number.
static FAULTS: [Explained; 16] = [
    Explained {
        number: 1,
        name: "Side",
        meaning: "The width or the height of a grid is outside 1 to 256.",
        remedy: "\
The first two numbers of a pile are its width and its height. If they are
missing, put them on a line before the grid.",
    },
    Explained {
        number: 2,
        name: "Length",
        meaning: "The number of heights is not width times height.",
        remedy: "\
Give one height per site, row by row. Only 'drops' without --count accepts
numbers after the heights: the sites of the drops.",
    },
    Explained {
        number: 3,
        name: "TooManyGrains",
        meaning: "\
The pile has more than 1,099,511,627,775 grains, or would have with all
drops of 'lab'.",
        remedy: "Use smaller heights, or fewer drops.",
    },
    Explained {
        number: 4,
        name: "Memory",
        meaning: "The program ran out of memory.",
        remedy: "\
Free some memory, or use a smaller pile. 'lab' needs less for fewer drops,
'drops' for fewer sites in the input.",
    },
    Explained {
        number: 6,
        name: "Full",
        meaning: "The pile and its drops exceed 1,099,511,627,775 grains together.",
        remedy: "Drop fewer grains.",
    },
    Explained {
        number: 7,
        name: "Unstable",
        meaning: "A site has more than 3 grains, but the command needs a stable pile.",
        remedy: "\
Settle the pile first: 'sandpile settle --pile' writes only the settled
pile.",
    },
    Explained {
        number: 8,
        name: "NotRecurrent",
        meaning: "A pile is not recurrent: some of its sites form a forbidden set.",
        remedy: "\
'sandpile burn' lists these sites. 'sandpile recurrent' writes the
equivalent recurrent pile.",
    },
    Explained {
        number: 9,
        name: "Shapes",
        meaning: "The two piles differ in width or height, or only one is a cylinder.",
        remedy: "Give two piles of the same shape.",
    },
    Explained {
        number: 18,
        name: "Text",
        meaning: "\
Byte N of the input, counted from 0, cannot be part of a pile; or the input
ends there, without a width and a height.",
        remedy: "\
Write a pile as numbers separated by white space: its width, its height,
and the grains on each site, row by row. To pass on the pile of 'settle',
'drops' or 'lab', run them with --pile.",
    },
    Explained {
        number: 19,
        name: "TooLarge",
        meaning: "\
The number at byte N of the input, counted from 0, is over
1,099,511,627,775.",
        remedy: "Use smaller numbers.",
    },
    Explained {
        number: 20,
        name: "Read",
        meaning: "Standard input could not be read.",
        remedy: "Check the file or the pipe: a directory or a closed input cannot be read.",
    },
    Explained {
        number: 21,
        name: "Write",
        meaning: "Writing to standard output failed after the first N bytes of the result.",
        remedy: "\
Check the file or the pipe: the disk may be full, or the program that reads
the pipe may have ended.",
    },
    Explained {
        number: 22,
        name: "TooLong",
        meaning: "The input has more than 1,048,576 bytes.",
        remedy: "\
Check that the input is a pile. With 'drops --count' the sites are drawn,
and need not be in the input.",
    },
    Explained {
        number: 23,
        name: "Usage",
        meaning: "\
The command line is invalid. A message about it replaces the fault line, and
the status is 2.",
        remedy: "'sandpile help COMMAND' lists the options of a command.",
    },
    Explained {
        number: 24,
        name: "Narrow",
        meaning: "A cylinder is less than 3 wide.",
        remedy: "Make it wider, or omit the letter c after the height, or --cylinder.",
    },
    Explained {
        number: 25,
        name: "NoSite",
        meaning: "Drop N, counted from 0, is outside the grid.",
        remedy: "\
Sites are numbered from 0, row by row; the last one is width times height
minus 1.",
    },
];

/// The help of `sandpile explain`.
pub const EXPLAIN_HELP: &str = "\
Explains a fault and what to do about it

Usage: sandpile explain [FAULT]

Arguments:
  [FAULT]  Number or name of a fault, such as 18 or Text [default: all faults]

Options:
  -h, --help  Print help

Output: the fault line, what it means, and what to do.

Example:

  $ sandpile explain 24
  fault 24 Narrow
    A cylinder is less than 3 wide.
    Make it wider, or omit the letter c after the height, or --cylinder.
";

/// The explanation of the fault with this number or name, if a command may report it.
pub fn fault_named(word: &str) -> Option<&'static Explained> {
    let number = word.parse::<u32>().ok();
    FAULTS
        .iter()
        .find(|fault| number == Some(fault.number) || word == fault.name)
}

/// The explanation of the fault with this number, if a command may report it.
pub fn fault_numbered(number: u32) -> Option<&'static Explained> {
    FAULTS.iter().find(|fault| fault.number == number)
}

// Appends lines, each indented by two spaces.
fn push_indented(text: &mut String, lines: &str) -> Result<(), AllocError> {
    for line in lines.split('\n') {
        text.push_str("  ")?;
        text.push_str(line)?;
        text.push_str("\n")?;
    }
    Ok(())
}

fn push_explained(text: &mut String, fault: &Explained) -> Result<(), AllocError> {
    let place = match fault.number {
        18 | 19 | 25 => " at N",
        21 => " after N",
        _ => "",
    };
    write!(text, "fault {} {}{place}\n", fault.number, fault.name)?;
    push_indented(text, fault.meaning)?;
    push_indented(text, fault.remedy)
}

/// The text of the explanation of the fault with this number, or of all, separated by empty lines. Fails if memory runs
/// out.
pub fn explained_text(alloc: Global, number: Option<u32>) -> Result<String, AllocError> {
    let mut text = String::new(alloc);
    for fault in &FAULTS {
        if number.is_some() && number != Some(fault.number) {
            continue;
        }
        if !text.is_empty() {
            text.push_str("\n")?;
        }
        push_explained(&mut text, fault)?;
    }
    Ok(text)
}
