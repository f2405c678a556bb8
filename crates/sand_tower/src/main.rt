//! Puts a tower of grains in the middle of a grid, settles it, and prints how many grains are lost and how many are
//! left. The text is proved to say that these are all grains of the tower.
#![tactic(auto)]

ghost use Rattle.std.specs.Prelude.{◌≡◌, ℕ, ◌+◌, ◌++◌, IfOk, sum, string_bytes, codes, decimal};

use sand_model::{Pile, PileFault, Shape, ShapeFault};
use sand_settle::{SettleFault, settle};
use std::alloc::{AllocError, Global};
use thiserror::Error;

#[derive(Debug, Drop, Error)]
pub enum TowerFault {
    #[error(transparent)]
    Shape(#[from] ShapeFault),
    #[error(transparent)]
    Pile(#[from] PileFault),
    #[error(transparent)]
    Settle(#[from] SettleFault),
    #[error(transparent)]
    Memory(#[from(alloc)] AllocError),
}

// All grains on one site.
fn tower(alloc: Global, shape: Shape, grains: u64) -> Result<Pile, PileFault>
    ensures { IfOk result (λ p. sum p.heights ≡ grains) }
{
    let mut heights = vec![in alloc; 0u64; shape.sites()]?;
    heights[shape.middle()] = grains;
    Pile::new(alloc, shape, heights.as_slice())
}

pub fn text_of_tower(
    alloc: Global,
    width: usize,
    height: usize,
    grains: u64,
) -> Result<String, TowerFault>
    ensures { IfOk result (λ text. (lost : ℕ) × (left : ℕ) × (lost + left ≡ grains)
        × (string_bytes text ≡ decimal lost ++ (codes " lost and " ++ (decimal left ++ codes " left")))) }
{
    let pile = tower(alloc, Shape::new(width, height)?, grains)?;
    let settled = settle(alloc, &pile)?;
    Ok(format!(in alloc;
        "{} lost and {} left",
        settled.lost(),
        settled.pile().grains()
    )?)
}

fn main(rt: HostRuntime) -> anyhow::Result<()> {
    let text = text_of_tower(rt.alloc(), 11, 9, 1000)?;
    println!(rt; "{text}")?;
    Ok(())
}
