//! The texts of a settled pile, and of a result of the burning test.

ghost use Rattle.std.specs.Prelude.{◌≡◌, ◌++◌, ◌<◌, All, OnOk};
ghost use Rattle.std.specs.List.{flat_map};
ghost use Rattle.sand_model.specs.Grid.{sites};
ghost use Rattle.sand_commands.specs.Answers.{IsText};
ghost use Rattle.sand_commands.specs.Results.{AreSitesOf, burn_text_of, place_text, settle_text_of};

use crate::faults::DeskFault;
use sand_group::Burned;
use sand_model::Shape;
use sand_settle::Settled;
use sand_text::{pile_text, push_number, push_odometer, push_sum};
use std::alloc::{AllocError, Global};

/// The text of a settled pile: the pile, how often each site toppled, by grid rows, the grains lost, and the total
/// topplings.
pub fn settle_text(alloc: Global, settled: &Settled) -> Result<Vec<u8>, DeskFault>
    ensures { IsText result (settle_text_of settled.now) }
{
    let mut text = pile_text(alloc, settled.pile())?;
    push_odometer(&mut text, settled.pile().shape(), settled.odometers())?;
    push_sum(&mut text, "lost ", settled.lost())?;
    push_sum(&mut text, "topplings ", settled.topplings())?;
    Ok(text)
}

// Writes the line of a site: its column and its row.
fn push_place(text: &mut Vec<u8>, shape: Shape, site: usize) -> Result<(), AllocError>
    requires { site < sites shape }
    ensures { OnOk result (text.new.items ≡ text.old.items ++ place_text shape site) }
{
    let (x, y) = shape.place(site);
    push_number(text, x as u64)?;
    text.extend_from_slice(b" ")?;
    push_number(text, y as u64)?;
    text.extend_from_slice(b"\n")
}

fn push_places(text: &mut Vec<u8>, shape: Shape, list: &[usize]) -> Result<(), AllocError>
    requires { All (λ i. i < sites shape) list.now }
    ensures { OnOk result (text.new.items ≡ text.old.items ++ flat_map (place_text shape) list.now) }
{
    for site in list {
        push_place(text, shape, *site)?;
    }
    Ok(())
}

/// The text of the result of the burning test on a grid of this shape: that the pile is recurrent; or the number of
/// sites in its largest forbidden set, and a line for each with its column and its row.
pub fn burn_text(alloc: Global, shape: Shape, burned: &Burned) -> Result<Vec<u8>, DeskFault>
    requires { AreSitesOf shape burned.now }
    ensures { IsText result (burn_text_of shape burned.now) }
{
    let mut text = Vec::new(alloc);
    match burned {
        Burned::Recurrent(_) => text.extend_from_slice(b"recurrent\n")?,
        Burned::Forbidden(set) => {
            text.extend_from_slice(b"forbidden ")?;
            push_number(&mut text, set.len() as u64)?;
            text.extend_from_slice(b"\n")?;
            push_places(&mut text, shape, set)?;
        }
    }
    Ok(text)
}
