//! What a writer gets in each call: a long text in blocks, a short one whole.

use crate::gates::{is_run, one_dropper};
use sand_testing::counting::Count;
use std::alloc::Global;
use std::io;
use std::io::Write;
use std::test::Fail;
use std::thread::Threads;

/// Takes everything. Notes the number of bytes of each call, and the number of turns before it.
#[derive(Drop)]
struct Noting<'a> {
    gate: &'a Count,
    calls: Vec<(usize, u32)>,
}

impl Write for Noting<'_> {
    fn write(&mut self, bytes: &[u8]) -> io::Result<usize> {
        self.calls.push((bytes.len(), self.gate.drops()))?;
        Ok(bytes.len())
    }

    fn flush(&mut self) -> io::Result<()> {
        Ok(())
    }
}

// The writes of a command on one empty site: the bytes of each, and the turns before it.
fn writes_of<T: Threads + Sync>(
    rt: &T,
    alloc: Global,
    line: &str,
) -> Result<Vec<(usize, u32)>, Fail> {
    let gate = one_dropper();
    let mut writer = Noting {
        gate: &gate,
        calls: Vec::new(alloc),
    };
    if !is_run(rt, alloc, line, &gate, &mut writer)? {
        return Err("a fault".into());
    }
    Ok(writer.calls)
}

// The head of the table has 33 bytes, each row 18. So the first block is full after 3,640 rows, the second after 3,641
// more. Each waits for one more row, whose drop has had its turn by then.
#[test]
fn a_full_block_is_written_after_the_turn_of_the_next_drop(rt: HostRuntime) -> Result<(), Fail> {
    let line = "drops --count 10000 --from 1000000 --table";
    let writes = writes_of(&rt, rt.alloc(), line)?;
    assert!(rt; writes.len() == 3);
    assert_eq!(rt;
        writes.as_slice(),
        [(65_553, 3_641), (65_538, 7_282), (48_942, 10_000)].as_slice()
    );
    Ok(())
}

#[test]
fn a_short_text_is_one_write(rt: HostRuntime) -> Result<(), Fail> {
    for (line, bytes, turns) in [
        ("drops --count 3 --from 1000000", 112, 3),
        ("lab --droppers 1 --drops 3", 75, 3),
        ("settle", 36, 0),
    ] {
        let writes = writes_of(&rt, rt.alloc(), line)?;
        assert_eq!(rt; writes.as_slice(), [(bytes, turns)].as_slice(), "{line}");
    }
    Ok(())
}
