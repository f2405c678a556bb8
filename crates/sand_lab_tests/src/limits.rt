//! The limits of a plan and of a run.

use sand_lab::{Album, Open, Plan, Wish};
use sand_testing::piles::one_site;
use sand_testing::runs::run_into;
use sand_testing::wish;
use std::test::Fail;

// Droppers, drops, epochs, workers, sweeps and observers.
const GREATEST: [u32; 6] = [64, 1_000_000, 100, 16, 1000, 16];

const LEAST: [u32; 6] = [1, 0, 1, 1, 0, 0];

// The number of the fault of a plan; 0 if there is a plan, which has its wish.
fn fault_of(fields: [u32; 6]) -> u32 {
    let [droppers, drops, epochs, workers, sweeps, observers] = fields;
    let wish = Wish {
        seed: u64::MAX,
        droppers,
        drops,
        epochs,
        workers,
        sweeps,
        observers,
    };
    match Plan::new(wish) {
        Ok(plan) if plan.wish() == wish => 0,
        Ok(_) => u32::MAX,
        Err(fault) => fault.number(),
    }
}

#[test]
fn each_field_within_its_limits(rt: HostRuntime) -> Result<(), Fail> {
    assert_eq!(rt; [fault_of(LEAST), fault_of(GREATEST)], [0, 0]);
    for field in 0..6 {
        let (mut more, mut none) = (GREATEST, GREATEST);
        more[field] += 1;
        none[field] = 0;
        assert_eq!(rt; fault_of(more), 15, "field {field}");
        let due = if LEAST[field] == 0 { 0 } else { 15 };
        assert_eq!(rt; fault_of(none), due, "field {field}");
    }
    Ok(())
}

// The fault that two epochs do not fit an album with one place comes first.
#[test]
fn too_many_grains_or_too_few_places(rt: HostRuntime) -> Result<(), Fail> {
    for (height, epochs, number) in [
        (1_099_511_627_774, 1, 0),
        (1_099_511_627_775, 1, 3),
        (0, 2, 16),
        (1_099_511_627_775, 2, 16),
    ] {
        let start = one_site(rt.alloc(), height)?;
        let wish = wish!(drops: 1, epochs: epochs);
        let album = Album::new(rt.alloc(), 1)?;
        let ran = run_into(&rt, rt.alloc(), &start, wish, &Open, &album);
        drop((start, album));
        let fault = ran.map_or_else(|fault| fault.number(), |_| 0);
        assert_eq!(rt; fault, number, "{height} grains, {epochs} epochs");
    }
    Ok(())
}
