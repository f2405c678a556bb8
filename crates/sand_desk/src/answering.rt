//! Does what the words ask for: runs a command or shows its help, or writes a text of the program itself.

ghost use Rattle.std.specs.Prelude.{◌<◌, length, map, string_bytes};
ghost use Rattle.sand_desk.specs.Answering.{RequestEnds};
ghost use Rattle.sand_desk.specs.Commands.{call_of};

use crate::commands::run_gated_command;
use sand_cli::{Asked, Request};
use sand_commands::{
    DeskFault, show_help, status, write_explain_help, write_explained, write_version,
};
use sand_wish::Gate;
use std::alloc::Global;
use std::io::{Read, Write};
use std::thread::Threads;

// Like `run_gated_command`, but shows the help if the words ask for it.
fn run_or_help<T: Threads + Sync, G: Gate, R: Read, W: Write>(
    rt: &T,
    alloc: Global,
    gate: &G,
    words: &[String],
    reader: &mut R,
    writer: &mut W,
) -> Result<(), DeskFault>
    requires { 0 < length words.now }
    ensures { RequestEnds Request.Command (call_of (map string_bytes words.now) (R.remaining reader.old)
        (R.remaining reader.new) (W.contents writer.old) (W.contents writer.new)) result }
{
    let Err(fault) = run_gated_command(rt, alloc, gate, words, reader, writer) else {
        return Ok(());
    };
    if status(&fault) != 0 {
        return Err(fault);
    }
    show_help(alloc, fault, writer)
}

/// Does what the words ask for. The gate is called as in `run_gated_command`.
pub fn answer<T: Threads + Sync, G: Gate, R: Read, W: Write>(
    rt: &T,
    alloc: Global,
    gate: &G,
    asked: Asked<'_>,
    input: &mut R,
    output: &mut W,
) -> Result<(), DeskFault>
    requires { 0 < length asked.words.now }
    ensures { RequestEnds asked.entry.request (call_of (map string_bytes asked.entry.words.now) (R.remaining input.old)
        (R.remaining input.new) (W.contents output.old) (W.contents output.new)) result }
{
    match asked.request {
        Request::Version => write_version(output),
        Request::Explain(number) => write_explained(alloc, number, output),
        Request::ExplainHelp => write_explain_help(output),
        Request::Command => run_or_help(rt, alloc, gate, asked.words, input, output),
    }
}
