//! Numbers and positions as they are written in a sentence.

use sand_model::Edge;
use sand_text::{Survey, column, line};
use std::alloc::AllocError;

/// Appends a position in an input: `line 2, column 3: `. An offset past the end counts as the end.
pub(crate) fn push_place(text: &mut String, input: &[u8], at: usize) -> Result<(), AllocError> {
    let at = at.min(input.len());
    let line = line(input, at);
    let column = column(input, at);
    write!(text, "line {line}, column {column}: ")
}

/// Appends a number with a comma between groups of three digits, such as `1,099,511,627,775`.
pub(crate) fn push_grouped(text: &mut String, number: u64) -> Result<(), AllocError> {
    let thousands = number / 1000;
    if thousands == 0 {
        return write!(text, "{number}");
    }
    push_grouped(text, thousands)?;
    let rest = number % 1000;
    write!(text, ",{rest:03}")
}

/// Appends the sides of a pile: `3 by 2`, and whether it is a cylinder.
pub(crate) fn push_sides(text: &mut String, pile: &Survey) -> Result<(), AllocError> {
    let Survey { width, height, .. } = pile;
    let edge = match pile.edge {
        Edge::Open => "",
        Edge::Cylinder => " (a cylinder)",
    };
    write!(text, "{width} by {height}{edge}")
}
