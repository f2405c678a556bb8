//! Runs a command: from its words and its input to the text that it writes.
//!
//! Nothing is written before the whole text is ready or, in `drops --count`, before only the writer can fail.

ghost use Rattle.std.specs.Prelude.{◌≡◌, ◌<◌, length, map, string_bytes, IfErr, OnOk};
ghost use Rattle.sand_cli.specs.Asked.{IsWithin};
ghost use Rattle.sand_commands.specs.Commands.{IsWritten, WorkEnds};
ghost use Rattle.sand_desk.specs.Commands.{CommandEnds, IsFaultOf, IsTextOf, call_of};

use crate::laboratory::{Output, lab_output};
use sand_cli::{Task, task_of};
use sand_commands::{DeskFault, take_input};
use sand_text::write_text;
use sand_wish::{Gate, Open};
use std::alloc::Global;
use std::io::{Read, Write};
use std::thread::Threads;

// Does a task and writes its text.
fn do_task<T: Threads + Sync, G: Gate, W: Write>(
    rt: &T,
    alloc: Global,
    gate: &G,
    task: Task,
    input: &[u8],
    writer: &mut W,
) -> Result<(), DeskFault>
    requires { IsWithin task }
    ensures done { OnOk result (IsWritten (IsTextOf task input.now) (W.contents writer.old) (W.contents writer.new)) }
    ensures fault { IfErr result (WorkEnds (IsTextOf task input.now) (IsFaultOf task input.now)
        (W.contents writer.old) (W.contents writer.new)) }
{
    let Task::Lab {
        wish,
        journal,
        form,
    } = task
    else {
        return sand_commands::do_task_without_lab(alloc, gate, task, input, writer);
    };
    let text = lab_output(rt, alloc, gate, input, wish, Output { journal, form })?;
    write_text(writer, text.as_slice())?;
    Ok(())
}

/// Runs the command that the words name (the first word is the program's name). Reads all input, then writes the whole
/// text or, if there is a fault, nothing.
///
/// Faults, in this order: words that the command line rejects (`Usage`) or options that exclude each other (`Clash`),
/// before anything is read; a reader that fails (`Read`), more than 1,048,576 bytes (`TooLong`) or out of memory,
/// whichever comes first; faults of the text; faults of the command; out of memory for the text; a writer that fails
/// (`Write`, with the number of bytes it took).
pub fn run_command<T: Threads + Sync, R: Read, W: Write>(
    rt: &T,
    alloc: Global,
    words: &[String],
    reader: &mut R,
    writer: &mut W,
) -> Result<(), DeskFault>
    requires { 0 < length words.now }
    ensures { CommandEnds (call_of (map string_bytes words.now) (R.remaining reader.old) (R.remaining reader.new)
        (W.contents writer.old) (W.contents writer.new)) result }
{
    run_gated_command(rt, alloc, &Open, words, reader, writer)
}

/// Like `run_command`, with a gate that is called before each drop of `drops --count`, and before the turns of `lab` as
/// in `sand_lab::run`.
pub fn run_gated_command<T: Threads + Sync, G: Gate, R: Read, W: Write>(
    rt: &T,
    alloc: Global,
    gate: &G,
    words: &[String],
    reader: &mut R,
    writer: &mut W,
) -> Result<(), DeskFault>
    requires { 0 < length words.now }
    ensures { CommandEnds (call_of (map string_bytes words.now) (R.remaining reader.old) (R.remaining reader.new)
        (W.contents writer.old) (W.contents writer.new)) result }
{
    let task = task_of(alloc, words)?;
    let input = take_input(alloc, task, reader)?;
    do_task(rt, alloc, gate, task, input.as_slice(), writer)
}
