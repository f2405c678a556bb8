//! Drops a grain in the middle of a full grid, prints its avalanche, and then what the burning test says of the pile.
#![tactic(auto)]

use sand_group::burn;
use sand_model::{Pile, Shape};
use sand_settle::DrivenPile;

fn main(rt: HostRuntime) -> anyhow::Result<()> {
    let alloc = rt.alloc();
    let shape = Shape::new(3, 3)?;
    let full = Pile::new(alloc, shape, &[3; 9])?;
    let mut driven = DrivenPile::new(alloc, &full)?;
    let (_, avalanche) = driven.drop_at(shape.middle())?;
    println!(rt;
        "{} topplings at {} sites, {} grains lost",
        avalanche.size, avalanche.area, avalanche.lost
    )?;
    let settled = driven.finish();
    let burned = burn(alloc, settled.pile())?;
    println!(rt; "recurrent: {}", burned.is_recurrent())?;
    Ok(())
}
