//! How often a gate is called.

use crate::setup::run_gated;
use sand_testing::counting::Count;
use sand_testing::piles::one_site;
use sand_testing::wish;
use std::test::Fail;

// Rounds of sweeps follow each epoch's turns, without calling the gate.
#[test]
fn a_gate_is_called_before_each_turn(rt: HostRuntime) -> Result<(), Fail> {
    let wish = wish!(droppers: 2, drops: 5, epochs: 3, workers: 2, sweeps: 4, observers: 2);
    let gate = Count::new(true, [5, 4, 16]);
    drop(run_gated(&rt, rt.alloc(), one_site(rt.alloc(), 0)?, wish, &gate)?);
    assert!(rt; gate.are_all(3));
    Ok(())
}

// These numbers of drops make batches of several drops, and a shorter last batch.
#[test]
fn a_gate_is_called_before_each_drop_of_a_batch(rt: HostRuntime) -> Result<(), Fail> {
    for drops in [17, 33, 100] {
        let wish = wish!(droppers: 2, drops: drops, epochs: 2);
        let gate = Count::new(false, [drops, 0, 0]);
        drop(run_gated(&rt, rt.alloc(), one_site(rt.alloc(), 0)?, wish, &gate)?);
        assert!(rt; gate.are_all(2), "{drops} drops");
    }
    Ok(())
}
