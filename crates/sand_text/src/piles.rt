//! Reading and writing a pile, and reading the sites of the grains to be dropped on it.

ghost use Rattle.std.specs.Prelude.{◌≡◌, ◌+◌, ◌*◌, ◌≤◌, ◌++◌, length, sum, vec_len, vec_capacity, IsOk, OnOk, IfOk, IfErr};
ghost use Rattle.sand_model.specs.Grid.{sites};
ghost use Rattle.sand_text.specs.Tokens.{tokens, numbers};
ghost use Rattle.sand_text.specs.Reading.{Reads, ReadsAs, drops_of, pile_of, heights_on, behind_heights};
ghost use Rattle.sand_text.specs.Texts.{shape_text, text_of, odometer_text};
ghost use Rattle.sand_model.specs.Piles.{most_grains_on};

use crate::fault::{ReadFault, TextFault};
use crate::numbers::Numbers;
use crate::rows::{push_number, push_sites};
use crate::survey::plain_survey;
use sand_model::{Edge, Pile, Shape};
use std::alloc::{AllocError, Global};

// The shape and the grains of the pile, if the text has no fault.
fn shape_of(text: &[u8]) -> Result<(Shape, u64), TextFault>
    ensures pile { IfOk result
        (λ (g, _). pile_of text.now ≡ Ok (record { grid = g; heights = heights_on g text.now })) }
    ensures enough { IfOk result (λ (g, _). 2 + sites g ≤ length (numbers (tokens text.now))) }
    ensures len { IfOk result (λ (g, _). length (heights_on g text.now) ≡ sites g) }
    ensures grains { IfOk result (λ (g, grains). (grains ≡ sum (heights_on g text.now)) × (grains ≤ most_grains_on g)) }
    ensures err { IfErr result (λ e. pile_of text.now ≡ Err e) }
{
    let survey = plain_survey(text)?;
    let shape = survey.shape(true, text.len())?;
    Ok((shape, survey.grains))
}

/// The pile in a text, or its first fault. Every fault except out of memory is found before anything is allocated.
pub fn read_pile(alloc: Global, text: &[u8]) -> Result<Pile, ReadFault>
    ensures { Reads result (pile_of text.now) }
{
    let (shape, grains) = shape_of(text)?;
    let heights = Numbers::new(text).next_heights(alloc, shape.sites())?;
    Ok(Pile::from_counted(shape, heights, grains))
}

// The shape and the grains of the pile, and the number of drops after it, if the text has no fault.
fn shape_before_drops(text: &[u8]) -> Result<(Shape, u64, usize), TextFault>
    ensures drops { IfOk result (λ (g, _, _).
        drops_of text.now ≡ Ok (record { grid = g; heights = heights_on g text.now }, behind_heights g text.now)) }
    ensures enough { IfOk result (λ (g, _, _). 2 + sites g ≤ length (numbers (tokens text.now))) }
    ensures len { IfOk result (λ (g, _, _). length (heights_on g text.now) ≡ sites g) }
    ensures grains { IfOk result (λ (g, grains, _).
        (grains ≡ sum (heights_on g text.now)) × (grains ≤ most_grains_on g)) }
    ensures count { IfOk result (λ (g, _, count). length (behind_heights g text.now) ≡ count) }
    ensures err { IfErr result (λ e. drops_of text.now ≡ Err e) }
{
    let survey = plain_survey(text)?;
    let shape = survey.shape(false, text.len())?;
    match survey.no_site {
        Some(index) => Err(TextFault::NoSite(index)),
        None => Ok((shape, survey.grains, survey.count - 2 - shape.sites())),
    }
}

/// The pile in a text and the sites of the drops after it, or its first fault. Every fault except out of memory is
/// found before anything is allocated.
pub fn read_drops(alloc: Global, text: &[u8]) -> Result<(Pile, Vec<usize>), ReadFault>
    ensures { ReadsAs (λ (pile, drops). (pile, drops.items)) result (drops_of text.now) }
{
    let (shape, grains, count) = shape_before_drops(text)?;
    let mut numbers = Numbers::new(text);
    let heights = numbers.next_heights(alloc, shape.sites())?;
    let drops = numbers.sites(alloc, count)?;
    Ok((Pile::from_counted(shape, heights, grains), drops))
}

/// Writes the first line of a pile's text.
pub(crate) fn push_shape(text: &mut Vec<u8>, shape: Shape) -> Result<(), AllocError>
    ensures written { OnOk result (text.new.items ≡ text.old.items ++ shape_text shape) }

    // It succeeds if there is room for two numbers and what follows each.
    ensures room { vec_len text.old + 44 ≤ vec_capacity text.old → IsOk result }
    ensures bound { vec_len text.new ≤ vec_len text.old + 44 }
    ensures capacity { vec_capacity text.old ≤ vec_capacity text.new }
{
    push_number(text, shape.width() as u64)?;
    text.extend_from_slice(b" ")?;
    push_number(text, shape.height() as u64)?;
    match shape.edge() {
        Edge::Open => text.extend_from_slice(b"\n")?,
        Edge::Cylinder => text.extend_from_slice(b" c\n")?,
    }
    Ok(())
}

/// Writes the text of a pile.
pub fn push_pile(text: &mut Vec<u8>, pile: &Pile) -> Result<(), AllocError>
    ensures written { OnOk result (text.new.items ≡ text.old.items ++ text_of pile.now) }

    // It succeeds if there is room for two sides, the heights, and what follows each.
    ensures room { vec_len text.old + (44 + 21 * sites pile.now.grid) ≤ vec_capacity text.old → IsOk result }
    ensures capacity { vec_capacity text.old ≤ vec_capacity text.new }
{
    push_shape(text, pile.shape())?;
    push_sites(text, pile.shape(), pile.heights())
}

/// Writes how often each site toppled, by grid rows.
pub fn push_odometer(text: &mut Vec<u8>, shape: Shape, odometer: &[u64]) -> Result<(), AllocError>
    requires { length odometer.now ≡ sites shape }
    ensures { OnOk result (text.new.items ≡ text.old.items ++ odometer_text shape odometer.now) }
{
    text.extend_from_slice(b"odometer\n")?;
    push_sites(text, shape, odometer)
}

/// The text of a pile: its sides, with a `c` for a cylinder, and a line of heights for each grid row.
pub fn pile_text(alloc: Global, pile: &Pile) -> Result<Vec<u8>, AllocError>
    ensures { IfOk result (λ text. text.items ≡ text_of pile.now) }
{
    let mut text = Vec::new(alloc);
    push_pile(&mut text, pile)?;
    Ok(text)
}
