//! Advice to a person on a fault, in addition to its line: what was found in the input, where, and what to do.
//!
//! It examines the bytes of the input again. No promise of a command depends on any of this.

use crate::pushing::{push_grouped, push_place, push_sides};
use crate::rejected::{Rejected, Surveyed};
use crate::strange;
use sand_cli::{Explained, fault_numbered};
use sand_model::{GRAIN_LIMIT, SIDE_LIMIT};
use sand_text::Survey;
use std::alloc::{AllocError, Global};

const SIDES: &str = "must be from 1 to 256";

const CYLINDER: &str = "must be at least 3 on a cylinder";

const HIGH: &str = "must be at most 3";

const NO_SITE: &str = "the grid has no such site";

const ONE_PILE: &str =
    "Write width, height and grains, such as: echo '3 1  0 4 0' | sandpile settle";

const TWO_PILES: &str = "'add' reads two piles: cat FIRST SECOND | sandpile add";

// An input that ends before both sides of a pile.
fn push_end(text: &mut String, input: &[u8], pile: &Survey, name: &str) -> Result<(), AllocError> {
    let side = if pile.count == 0 { "width" } else { "height" };
    push_place(text, input, input.len())?;
    write!(text, "the input ends before the {side} of {name}\n")
}

// A byte that cannot be in the text of a pile: `'x'`, or `byte 255` if it is not a letter, digit or punctuation mark.
fn push_strange(text: &mut String, input: &[u8], place: usize, byte: u8) -> Result<(), AllocError> {
    push_place(text, input, place)?;
    if byte.is_ascii_graphic() {
        let letter = char::from(byte);
        write!(text, "'{letter}'")?;
    } else {
        write!(text, "byte {byte}")?;
    }
    text.push_str(" is neither a digit nor white space\n")
}

fn push_large(text: &mut String, input: &[u8], place: usize) -> Result<(), AllocError> {
    push_place(text, input, place)?;
    text.push_str("the number is over 1,099,511,627,775\n")
}

fn push_length(text: &mut String, pile: &Survey, name: &str) -> Result<(), AllocError> {
    let sites = pile.sites();
    let count = pile.count.saturating_sub(2);
    write!(text, "{name} begins with its sides, ")?;
    push_sides(text, pile)?;
    write!(
        text,
        ", so the number of heights must be {sites}, but it is {count}\n"
    )
}

// More grains than the limit, in a pile or with all drops.
fn push_grains(text: &mut String, pile: &Survey, name: &str) -> Result<(), AllocError> {
    if pile.grains > GRAIN_LIMIT {
        write!(text, "{name} has more than 1,099,511,627,775 grains\n")
    } else {
        write!(text, "{name} has ")?;
        push_grouped(text, pile.grains)?;
        text.push_str(" grains; at most 1,099,511,627,775 are allowed, including all drops\n")
    }
}

fn push_shapes(text: &mut String, first: &Survey, second: &Survey) -> Result<(), AllocError> {
    text.push_str("the first pile is ")?;
    push_sides(text, first)?;
    text.push_str(", but the second is ")?;
    push_sides(text, second)?;
    text.push_str("\n")
}

// What was found in the piles of the input, if the fault with this name is in them. `name` is the last one's.
fn push_found_in(
    text: &mut String,
    rejected: &Rejected<'_>,
    fault: &str,
    first: &Surveyed<'_>,
    last: &Surveyed<'_>,
    name: &str,
) -> Result<(), AllocError> {
    let Rejected { input, place, .. } = *rejected;
    let survey = &last.survey;
    let drop_index = survey.sites().saturating_add(2).saturating_add(place);
    let (number, what, limit) = match fault {
        "Text" => return push_end(text, input, survey, name),
        "Length" => return push_length(text, survey, name),
        "TooManyGrains" | "Full" => return push_grains(text, survey, name),
        "Shapes" => return push_shapes(text, &first.survey, survey),
        "Side" if (1..=SIDE_LIMIT as u64).contains(&survey.width) => {
            (last.number(1), "the height", SIDES)
        }
        "Side" => (last.number(0), "the width", SIDES),
        "Narrow" => (last.number(0), "the width", CYLINDER),
        "NoSite" => (last.number(drop_index), "the site", NO_SITE),
        "Unstable" => {
            let high = first.unstable().or(last.unstable());
            (high, "the number of grains", HIGH)
        }
        _ => return Ok(()),
    };
    let Some((start, value)) = number else {
        return Ok(());
    };
    push_place(text, input, start)?;
    write!(text, "{what} is {value}, but {limit}\n")
}

// What was found in the input, if the fault with this name is in the input.
fn push_found(text: &mut String, rejected: &Rejected<'_>, fault: &str) -> Result<(), AllocError> {
    let Rejected { input, place, .. } = *rejected;
    match (fault, input.get(place), rejected.piles()) {
        ("Text", Some(byte), _) => push_strange(text, input, place, *byte),
        ("TooLarge", _, _) => push_large(text, input, place),
        (_, _, Some((first, last, name))) => {
            push_found_in(text, rejected, fault, &first, &last, name)
        }
        _ => Ok(()),
    }
}

// What to do about a fault, given the input.
fn remedy(rejected: &Rejected<'_>, fault: &Explained) -> &'static str {
    let Rejected { input, place, .. } = *rejected;
    match (fault.name, rejected.command) {
        ("Text", "add") if place == input.len() => TWO_PILES,
        ("Text", _) if place == input.len() => ONE_PILE,
        ("Text", _) => strange::meaning(input, place).unwrap_or(fault.remedy),
        _ => fault.remedy,
    }
}

/// The advice on a command's fault, by its number: one or two sentences, each with its line end. `place` is the number at
/// the end of the fault's line, or 0. `input` is what the command read, if known. Fails if memory runs out.
pub fn advice(
    alloc: Global,
    command: &str,
    input: Option<&[u8]>,
    number: u32,
    place: usize,
) -> Result<String, AllocError> {
    let mut text = String::new(alloc);
    let Some(fault) = fault_numbered(number) else {
        return Ok(text);
    };
    let mut what_to_do = fault.remedy;
    if let Some(input) = input {
        let rejected = Rejected {
            command,
            input,
            place,
        };
        push_found(&mut text, &rejected, fault.name)?;
        what_to_do = remedy(&rejected, fault);
    }
    if text.is_empty() {
        write!(text, "{}\n", fault.meaning)?;
    }
    write!(text, "{what_to_do}\n")?;
    Ok(text)
}
