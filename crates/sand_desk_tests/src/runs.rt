//! Runs a command with a reader of the tests and a writer that may stop.

ghost use Rattle.std.specs.Prelude.{◌<◌, length, IfOk};

use crate::stopping::Sluggish;
use sand_desk::{DeskFault, run_command};
use std::alloc::{AllocError, Global};
use std::io::Read;
use std::test::Fail;
use std::thread::Threads;

/// The words of a command: the program's name, and those of a line.
pub(crate) fn command(alloc: Global, line: &str) -> Result<Vec<String>, AllocError>
    ensures { IfOk result (λ words. 0 < length words.items) }
{
    let mut words = Vec::new(alloc);
    for word in line.split_whitespace() {
        words.push(String::from_str(alloc, word)?)?;
    }
    words.insert(0, String::from_str(alloc, "sandpile")?)?;
    Ok(words)
}

// The fault that a command line ends with, if any. No clause says so, because the clauses of `run_command` lengthen the
// proofs of the callers.
pub(crate) fn fault_of<T: Threads + Sync, R: Read>(
    rt: &T,
    alloc: Global,
    line: &str,
    reader: &mut R,
    writer: &mut Sluggish,
) -> Result<Option<DeskFault>, Fail> {
    let words = command(alloc, line)?;
    let ended = run_command(rt, alloc, words.as_slice(), reader, writer);
    drop(words);
    Ok(ended.err())
}

// The number of bytes written before the writer failed, if that is the fault.
pub(crate) fn sent(fault: Option<DeskFault>) -> Option<usize> {
    match fault {
        Some(DeskFault::Write(after)) => Some(after),
        _ => None,
    }
}
