//! Does a task: from its input to the text that it writes.
//!
//! Nothing is written before the whole text is ready or, in `drops --count`, before only the writer can fail.

ghost use Rattle.std.specs.Prelude.{◌≡◌, ◌≢◌, ◌+◌, ◌≤◌, false, true, length, IfOk, IfErr, OnOk, IsErrOf};
ghost use Rattle.sand_text.specs.Flow.{IsFurther, IsFurtherByAtMost, IsOfReading, most_bytes};
ghost use Rattle.sand_cli.specs.Asked.{IsWithin};
ghost use Rattle.sand_commands.specs.Commands.{IsFaultWithoutLab, IsTextWithoutLab, IsWritten, Finds, Takes, WorkEnds, is_lab, reads_input, writes_whole};

use crate::drawn_drops::drawn_drops;
use crate::faults::DeskFault;
use crate::listed_drops::listed_drops;
use crate::pile_commands::{
    burn_output, identity_text, inverse_output, multiple_output, recurrent_output, settle_output,
    sum_output,
};
use sand_cli::Task;
use sand_text::{StreamFault, read_all, write_text};
use sand_wish::Gate;
use std::alloc::Global;
use std::io::{Read, Write};

/// The task's input: everything the reader has, or nothing if the task reads none.
pub fn take_input<R: Read>(
    alloc: Global,
    task: Task,
    reader: &mut R,
) -> Result<Vec<u8>, StreamFault>
    ensures taken { IfOk result (λ input.
        Takes (reads_input task) (R.remaining reader.old) (R.remaining reader.new) input.items) }
    ensures within { IfOk result (λ input. length input.items ≤ most_bytes) }
    ensures reads { IfErr result (λ e. reads_input task ≡ true) }
    ensures too_long { IsErrOf result StreamFault.TooLong
        → IsFurther (R.remaining reader.old) (R.remaining reader.new) (most_bytes + 1) }
    ensures failed { IfErr result (λ e. e ≢ StreamFault.TooLong
        → IsFurtherByAtMost (R.remaining reader.old) (R.remaining reader.new) most_bytes) }
    ensures fault { IfErr result IsOfReading }
{
    match task {
        Task::Identity { .. } => Ok(Vec::new(alloc)),
        _ => read_all(alloc, reader),
    }
}

// The text that a task without the laboratory writes for an input.
fn perform(alloc: Global, task: Task, input: &[u8]) -> Result<Vec<u8>, DeskFault>
    requires alone { is_lab task ≡ false }
    requires whole { writes_whole task ≡ true }
    ensures text { IfOk result (λ text. IsTextWithoutLab task input.now text.items) }
    ensures fault { IfErr result (Finds (IsFaultWithoutLab task input.now)) }
{
    match task {
        Task::Settle { form } => settle_output(alloc, input, form),
        Task::Burn => burn_output(alloc, input),
        Task::Identity {
            width,
            height,
            cylinder,
            pgm,
        } => identity_text(alloc, width, height, cylinder, pgm),
        Task::Drops { drawn: None, part } => listed_drops(alloc, input, part),
        Task::Drops { drawn: Some(_), .. } => unreachable!(),
        Task::Add { pgm } => sum_output(alloc, input, pgm),
        Task::Inverse { pgm } => inverse_output(alloc, input, pgm),
        Task::Multiple { times, pgm } => multiple_output(alloc, input, times, pgm),
        Task::Recurrent { pgm } => recurrent_output(alloc, input, pgm),
        Task::Lab { .. } => unreachable!(),
    }
}

/// Does a task without the laboratory and writes its text: drops at random are written as they are made, any other text
/// once it is complete. The gate is called before each drop at random.
// It is not inlined, so that its stack frame does not exist while the words are read.
#[inline(never)]
pub fn do_task_without_lab<G: Gate, W: Write>(
    alloc: Global,
    gate: &G,
    task: Task,
    input: &[u8],
    writer: &mut W,
) -> Result<(), DeskFault>
    requires within { IsWithin task }
    requires alone { is_lab task ≡ false }
    ensures done { OnOk result (IsWritten (IsTextWithoutLab task input.now)
        (W.contents writer.old) (W.contents writer.new)) }
    ensures fault { IfErr result (WorkEnds (IsTextWithoutLab task input.now) (IsFaultWithoutLab task input.now)
        (W.contents writer.old) (W.contents writer.new)) }
{
    if let Task::Drops {
        drawn: Some(draw),
        part,
    } = task
    {
        return drawn_drops(alloc, gate, input, draw, part, writer);
    }
    let text = perform(alloc, task, input)?;
    write_text(writer, text.as_slice())?;
    Ok(())
}
