//! Writes what words may ask for instead of a command: its help, an explanation of faults, or the version, with the
//! logic of the proofs, which is the same in several kits of Rattle.

ghost use Rattle.std.specs.Prelude.{◌≢◌, None, Some, IfErr, OnOk};
ghost use Rattle.sand_commands.specs.Faults.{status_of};
ghost use Rattle.sand_commands.specs.Help.{IsHelped, IsShown, IsShownInPart, IsUnhelped, IsUnshown};
ghost use Rattle.sand_commands.specs.Version.{version_text};

use crate::faults::DeskFault;
use sand_cli::{EXPLAIN_HELP, explained_text};
use sand_text::write_text;
use std::alloc::Global;
use std::fmt::Display;
use std::io::Write;

// Writes the text of a value. It is generic so that its contract can name the text as `D.output`; clap's error does not
// specify its own.
fn show<D: Display, W: Write>(alloc: Global, value: &D, writer: &mut W) -> Result<(), DeskFault>
    ensures shown { OnOk result (IsShown (D.output value.now) (W.contents writer.old) (W.contents writer.new)) }
    ensures fault { IfErr result (IsUnshown (D.output value.now) (W.contents writer.old) (W.contents writer.new)) }
{
    let text = value.to_string(alloc)?;
    write_text(writer, text.as_str().as_bytes())?;
    Ok(())
}

/// Writes the help that the words asked for, given the fault that `run_command` returned.
///
/// Fails if the writer fails (`Write`, with the number of bytes it took) or memory runs out for the text (`Memory`).
/// Any other fault is returned unchanged, and nothing is written. No returned fault has status 0.
pub fn show_help<W: Write>(alloc: Global, fault: DeskFault, writer: &mut W) -> Result<(), DeskFault>
    ensures shown { OnOk result (IsHelped fault (W.contents writer.old) (W.contents writer.new)) }
    ensures fault { IfErr result (IsUnhelped fault (W.contents writer.old) (W.contents writer.new)) }
    ensures status { IfErr result (λ e. status_of e ≢ 0) }
{
    match &fault {
        DeskFault::Usage(error) if !error.use_stderr() => show(alloc, error, writer),
        _ => Err(fault),
    }
}

/// Writes the explanation of the fault with this number, or of all, separated by empty lines. Fails if memory runs out
/// for the text (`Memory`) or the writer fails (`Write`, with the number of bytes it took).
pub fn write_explained<W: Write>(
    alloc: Global,
    number: Option<u32>,
    writer: &mut W,
) -> Result<(), DeskFault>
    ensures shown { OnOk result (IsShown None (W.contents writer.old) (W.contents writer.new)) }
    ensures fault { IfErr result (IsUnshown None (W.contents writer.old) (W.contents writer.new)) }
{
    let text = explained_text(alloc, number)?;
    write_text(writer, text.as_str().as_bytes())?;
    Ok(())
}

/// Writes the help of `sandpile explain`. Allocates nothing. Fails if the writer fails (`Write`, with the number of
/// bytes it took).
pub fn write_explain_help<W: Write>(writer: &mut W) -> Result<(), DeskFault>
    ensures shown { OnOk result (IsShown None (W.contents writer.old) (W.contents writer.new)) }
    ensures fault { IfErr result (IsUnshown None (W.contents writer.old) (W.contents writer.new)) }
{
    write_text(writer, EXPLAIN_HELP.as_bytes())?;
    Ok(())
}

/// Writes the version. Allocates nothing. Fails if the writer fails (`Write`, with the number of bytes it took).
pub fn write_version<W: Write>(writer: &mut W) -> Result<(), DeskFault>
    ensures shown { OnOk result (IsShown (Some version_text) (W.contents writer.old) (W.contents writer.new)) }
    ensures fault { IfErr result (IsShownInPart (Some version_text) (W.contents writer.old) (W.contents writer.new)) }
{
    // `tools/try-examples` compares the logic with that of `rt version`.
    write_text(
        writer,
        b"sandpile 1.0.0, proved with Rattle, logic dac8208d650f15bf\n",
    )?;
    Ok(())
}
