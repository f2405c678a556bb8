//! The commands that write a pile or a result of the burning test: `settle`, `burn`, `identity`, `add`, `inverse`,
//! `multiple` and `recurrent`.

ghost use Rattle.std.specs.Prelude.{◌≡◌, IfOk, IfErr};
ghost use Rattle.sand_model.specs.Piles.{height_of};
ghost use Rattle.sand_model.specs.Sand.{IsStable};
ghost use Rattle.sand_text.specs.Reading.{pile_of};
ghost use Rattle.sand_commands.specs.Answers.{IsText};
ghost use Rattle.sand_commands.specs.Commands.{IsBurnFault, IsShapeless, IsSumFault, IsElementFault, IsUnreadable, Finds};
ghost use Rattle.sand_commands.specs.GroupCommands.{IsBurnText, IsIdentityText, IsSumText, IsInverseText, IsMultipleText, IsRecurrentText, edge_of};
ghost use Rattle.sand_commands.specs.SettleCommand.{IsSettleText, pile_or_graymap};

use crate::faults::DeskFault;
use crate::results::{burn_text, settle_text};
use crate::texts::{pgm_text, pile_text, read_pile, read_two};
use sand_cli::Form;
use sand_group::{Recurrent, add, burn, equivalent_recurrent, identity, inverse, multiple};
use sand_model::{Edge, Pile, Shape};
use sand_settle::settle;
use std::alloc::Global;

/// The settled record of the pile in the input as text, or only its pile, as text or as a picture.
pub(crate) fn settle_output(alloc: Global, input: &[u8], form: Form) -> Result<Vec<u8>, DeskFault>
    ensures text { IfOk result (λ text. IsSettleText form input.now text.items) }
    ensures fault { IfErr result (Finds (IsUnreadable (pile_of input.now))) }
{
    let pile = read_pile(alloc, input)?;
    let settled = settle(alloc, &pile)?;
    match form {
        Form::Text => settle_text(alloc, &settled),
        Form::Pile => pile_text(alloc, settled.pile()),
        Form::Graymap => pgm_text(alloc, settled.pile()),
    }
}

// A stable pile, as text or as a picture.
fn pile_or_graymap(alloc: Global, pile: &Pile, pgm: bool) -> Result<Vec<u8>, DeskFault>
    requires { IsStable pile.now.grid (height_of pile.now) }
    ensures { IsText result (pile_or_graymap pgm pile.now) }
{
    if pgm {
        pgm_text(alloc, pile)
    } else {
        pile_text(alloc, pile)
    }
}

/// The result of the burning test on the pile in the input. Fails if the pile is not stable (`Unstable`).
pub(crate) fn burn_output(alloc: Global, input: &[u8]) -> Result<Vec<u8>, DeskFault>
    ensures text { IfOk result (λ text. IsBurnText input.now text.items) }
    ensures fault { IfErr result (Finds (IsBurnFault input.now)) }
{
    let pile = read_pile(alloc, input)?;
    let burned = burn(alloc, &pile)?;
    burn_text(alloc, pile.shape(), &burned)
}

fn edge_of(cylinder: bool) -> Edge
    ensures { result ≡ edge_of cylinder }
{
    if cylinder { Edge::Cylinder } else { Edge::Open }
}

/// The identity of the group on a grid, as text or as a picture. Fails for an invalid shape (`Side`, `Narrow`).
pub(crate) fn identity_text(
    alloc: Global,
    width: usize,
    height: usize,
    cylinder: bool,
    pgm: bool,
) -> Result<Vec<u8>, DeskFault>
    ensures text { IfOk result (λ text. IsIdentityText width height cylinder pgm text.items) }
    ensures fault { IfErr result (Finds (IsShapeless width height cylinder)) }
{
    let shape = Shape::with_edge(width, height, edge_of(cylinder))?;
    let neutral = identity(alloc, shape)?;
    pile_or_graymap(alloc, neutral.pile(), pgm)
}

/// The sum of the two piles in the input, as text or as a picture. Fails if the first pile is not recurrent, then if
/// the second is not (`Unstable`, `NotRecurrent`), then if the shapes differ (`Shapes`).
pub(crate) fn sum_output(alloc: Global, input: &[u8], pgm: bool) -> Result<Vec<u8>, DeskFault>
    ensures text { IfOk result (λ text. IsSumText pgm input.now text.items) }
    ensures fault { IfErr result (Finds (IsSumFault input.now)) }
{
    let (first, second) = read_two(alloc, input)?;
    let first = Recurrent::from_pile(alloc, &first)?;
    let second = Recurrent::from_pile(alloc, &second)?;
    let sum = add(alloc, &first, &second)?;
    pile_or_graymap(alloc, sum.pile(), pgm)
}

/// The inverse of the pile in the input, as text or as a picture. Fails if that pile is not recurrent (`Unstable`,
/// `NotRecurrent`).
pub(crate) fn inverse_output(alloc: Global, input: &[u8], pgm: bool) -> Result<Vec<u8>, DeskFault>
    ensures text { IfOk result (λ text. IsInverseText pgm input.now text.items) }
    ensures fault { IfErr result (Finds (IsElementFault input.now)) }
{
    let pile = read_pile(alloc, input)?;
    let recurrent = Recurrent::from_pile(alloc, &pile)?;
    let inverse = inverse(alloc, &recurrent)?;
    pile_or_graymap(alloc, inverse.pile(), pgm)
}

/// The sum of `times` copies of the pile in the input, as text or as a picture. Fails if that pile is not recurrent
/// (`Unstable`, `NotRecurrent`).
pub(crate) fn multiple_output(
    alloc: Global,
    input: &[u8],
    times: u64,
    pgm: bool,
) -> Result<Vec<u8>, DeskFault>
    ensures text { IfOk result (λ text. IsMultipleText times pgm input.now text.items) }
    ensures fault { IfErr result (Finds (IsElementFault input.now)) }
{
    let pile = read_pile(alloc, input)?;
    let recurrent = Recurrent::from_pile(alloc, &pile)?;
    let sum = multiple(alloc, &recurrent, times)?;
    pile_or_graymap(alloc, sum.pile(), pgm)
}

/// The recurrent pile equivalent to the pile in the input, as text or as a picture. Every pile has one, so only the
/// input text can be at fault.
pub(crate) fn recurrent_output(alloc: Global, input: &[u8], pgm: bool) -> Result<Vec<u8>, DeskFault>
    ensures text { IfOk result (λ text. IsRecurrentText pgm input.now text.items) }
    ensures fault { IfErr result (Finds (IsUnreadable (pile_of input.now))) }
{
    let pile = read_pile(alloc, input)?;
    let recurrent = equivalent_recurrent(alloc, &pile)?;
    pile_or_graymap(alloc, recurrent.pile(), pgm)
}
