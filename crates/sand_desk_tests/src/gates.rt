//! How often a command calls its gate.

use crate::runs::command;
use crate::stopping::Sluggish;
use sand_desk::run_gated_command;
use sand_testing::counting::Count;
use std::alloc::Global;
use std::io::Write;
use std::test::Fail;
use std::thread::Threads;

/// A gate for one dropper.
pub(crate) fn one_dropper() -> Count {
    Count::new(true, [u32::MAX, 0, 0])
}

/// Runs a command on one empty site. Returns whether it succeeds, and one dropper takes its turns in order.
pub(crate) fn is_run<T: Threads + Sync, W: Write>(
    rt: &T,
    alloc: Global,
    line: &str,
    gate: &Count,
    writer: &mut W,
) -> Result<bool, Fail> {
    let words = command(alloc, line)?;
    let mut reader = b"1 1\n0\n".as_slice();
    let ended = run_gated_command(rt, alloc, gate, words.as_slice(), &mut reader, writer);
    let is_done = ended.is_ok() && gate.is_in_order();
    drop((ended, words));
    Ok(is_done)
}

#[test]
fn a_gate_is_called_before_each_drop(rt: HostRuntime) -> Result<(), Fail> {
    for line in [
        "drops --count 7 --from 5",
        "drops --count 7 --from 5 --table",
        "drops --count 7 --from 5 --pile",
        "lab --droppers 1 --drops 7",
    ] {
        let gate = one_dropper();
        let mut writer = Sluggish::new(rt.alloc(), 1_000_000);
        assert!(rt;
            is_run(&rt, rt.alloc(), line, &gate, &mut writer)?,
            "{line}"
        );
        assert_eq!(rt; gate.drops(), 7, "{line}");
    }
    Ok(())
}
