//! A race: threads drop lists of grains on one shared pile. Then one thread settles the start with the same grains on
//! it, and the two odometers are compared.
#![tactic(auto)]

mod race;

use crate::race::race;
use sand_model::{Pile, Shape};
use sand_settle::settle;

fn main(rt: HostRuntime) -> anyhow::Result<()> {
    let alloc = rt.alloc();
    let shape = Shape::new(3, 3)?;
    let start = Pile::new(alloc, shape, &[3; 9])?;
    let lists = [
        vec![in alloc; 4usize, 4, 4, 4]?,
        vec![in alloc; 0usize, 8, 0, 8]?,
        vec![in alloc; 1usize, 3, 5, 7]?,
    ];
    let raced = race(&rt, alloc, &start, &lists)?;
    let grains = Pile::new(alloc, shape, &[2, 1, 0, 1, 4, 1, 0, 1, 2])?;
    let settled = settle(alloc, &start.plus(alloc, &grains)?)?;
    let same = raced.odometers() == settled.odometers();
    println!(rt; "{} topplings, as on one thread: {same}", raced.topplings())?;
    Ok(())
}
