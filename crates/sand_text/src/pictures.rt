//! The picture of a stable pile, as plain PGM.
//!
//! A height of a stable pile is one digit, so 35 of them, each followed by one byte, are the 70 characters that a line
//! of plain PGM may have, line end included. Each grid row starts a new line and takes as many lines as it needs.

ghost use Rattle.std.specs.Prelude.{◌≡◌, ◌++◌, OnOk, IfOk};
ghost use Rattle.sand_model.specs.Sand.{IsStable};
ghost use Rattle.sand_model.specs.Piles.{height_of};
ghost use Rattle.sand_text.specs.Pictures.{lines_text, head_text, pgm_text_of, NoLongLine};

use crate::rows::{push_number, push_row};
use sand_model::{Pile, Shape};
use std::alloc::{AllocError, Global};

const LINE_VALUES: usize = 35;

/// The most bytes before the first value, with sides of four digits.
const HEAD_BYTES: usize = 15;

fn push_head(text: &mut Vec<u8>, shape: Shape) -> Result<(), AllocError>
    ensures { OnOk result (text.new.items ≡ text.old.items ++ head_text shape) }
{
    text.extend_from_slice(b"P2\n")?;
    push_number(text, shape.width() as u64)?;
    text.extend_from_slice(b" ")?;
    push_number(text, shape.height() as u64)?;
    text.extend_from_slice(b"\n3\n")?;
    Ok(())
}

fn push_lines(text: &mut Vec<u8>, row: &[u64]) -> Result<(), AllocError>
    ensures { OnOk result (text.new.items ≡ text.old.items ++ lines_text row.now) }
{
    for line in row.chunks(LINE_VALUES) {
        push_row(text, line)?;
    }
    Ok(())
}

/// The picture of a stable pile as plain PGM: a pixel for each site, from black (height 0) to white (height 3). The
/// edge of the grid is not shown.
pub fn pgm_text(alloc: Global, pile: &Pile) -> Result<Vec<u8>, AllocError>
    requires { IsStable pile.now.grid (height_of pile.now) }
    ensures { IfOk result (λ text. text.items ≡ pgm_text_of pile.now) }
{
    let shape = pile.shape();
    let heights = pile.heights();

    // Each value takes two bytes, so all memory is allocated here.
    let mut text = Vec::with_capacity(alloc, HEAD_BYTES + 2 * heights.len())?;
    push_head(&mut text, shape)?;
    for row in heights.chunks(shape.width()) {
        push_lines(&mut text, row)?;
    }
    Ok(text)
}

/// No line of the picture of a stable pile is empty, and none has more than 70 characters.
pub fn no_long_line()
    ensures { NoLongLine }
{}
