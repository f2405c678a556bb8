//! The faults of commands: number, name, line and exit status.

ghost use Rattle.std.specs.Prelude.{◌≡◌, ◌≢◌, ℕ, ◌+◌, ◌<◌, ◌≤◌, List, [], ◌++◌, length, take, codes, decimal, OnOk, IfErr};
ghost use Rattle.std.specs.Io.KnownBytes.{Appends};
ghost use Rattle.std.specs.Process.{exit_status};
ghost use Rattle.arrayvec.specs.ArrayString.{array_string_len};
ghost use Rattle.sand_commands.specs.Faults.{number_of, name_of, status_of, fault_line, place_of, of_text, of_read, of_stream, of_words, of_one, of_group, of_shape};
ghost use Rattle.sand_commands.specs.declared.faults.DeskFault.TheVariants as desk;

use arrayvec::ArrayString;
use clap::error::ErrorKind;
use itoa::Buffer;
use sand_cli::{Conflict, WordsFault};
use sand_group::GroupFault;
use sand_model::ShapeFault;
use sand_settle::{OneFault, SettleFault};
use sand_text::{ReadFault, StreamFault, TextFault, write_text};
use std::alloc::AllocError;
use std::io::Write;
use std::process::ExitCode;
use thiserror::Error;

/// Why a command ended without writing all of its text.
#[derive(Debug, Drop, Error)]
pub enum DeskFault {
    #[error("width or height is outside 1 to 256")]
    Side,
    #[error("wrong number of heights")]
    Length,
    #[error("too many grains")]
    TooManyGrains,
    #[error("out of memory")]
    Memory,
    #[error("one more drop would exceed the grain limit")]
    Full,
    #[error("a height is over 3")]
    Unstable,
    #[error("there is a forbidden set")]
    NotRecurrent,
    #[error("the two piles have different shapes")]
    Shapes,
    #[error("an epoch's place in the album is already set")]
    Taken,
    /// A byte that cannot be in the text of a pile, with its offset; or fewer than two numbers, with the text's length.
    #[error("unexpected byte or end of input, at byte {0}")]
    Text(usize),
    /// A number over the grain limit, with the offset of its first byte.
    #[error("the number at byte {0} is over the grain limit")]
    TooLarge(usize),
    #[error("the reader failed")]
    Read,
    /// The writer failed, with the number of bytes it took.
    #[error("the writer failed after {0} bytes")]
    Write(usize),
    #[error("too much input")]
    TooLong,
    /// The command line was rejected, or it asks for help.
    #[error("{0}")]
    Usage(clap::Error),
    /// The command line combines options that exclude each other.
    #[error("{0}")]
    Clash(Conflict),
    #[error("a cylinder is less than 3 wide")]
    Narrow,
    /// A drop at a site outside the grid, with its index among the drops, from 0.
    #[error("drop {0} is outside the grid")]
    NoSite(usize),
}

impl DeskFault {
    // The number and the name.
    fn row(&self) -> (u32, &'static str)
        ensures number { result.0 ≡ number_of self.now }
        ensures name { result.1.now ≡ name_of self.now }
        ensures short { length result.1.now ≤ 16 }
    {
        match self {
            DeskFault::Side => (1, "Side"),
            DeskFault::Length => (2, "Length"),
            DeskFault::TooManyGrains => (3, "TooManyGrains"),
            DeskFault::Memory => (4, "Memory"),
            DeskFault::Full => (6, "Full"),
            DeskFault::Unstable => (7, "Unstable"),
            DeskFault::NotRecurrent => (8, "NotRecurrent"),
            DeskFault::Shapes => (9, "Shapes"),
            DeskFault::Taken => (17, "Taken"),
            DeskFault::Text(_) => (18, "Text"),
            DeskFault::TooLarge(_) => (19, "TooLarge"),
            DeskFault::Read => (20, "Read"),
            DeskFault::Write(_) => (21, "Write"),
            DeskFault::TooLong => (22, "TooLong"),
            DeskFault::Usage(_) | DeskFault::Clash(_) => (23, "Usage"),
            DeskFault::Narrow => (24, "Narrow"),
            DeskFault::NoSite(_) => (25, "NoSite"),
        }
    }

    pub fn number(&self) -> u32
        ensures { result ≡ number_of self.now }
    {
        self.row().0
    }

    /// The number at the end of the fault's line, or 0.
    pub fn place(&self) -> usize {
        match self {
            DeskFault::Text(place)
            | DeskFault::TooLarge(place)
            | DeskFault::NoSite(place)
            | DeskFault::Write(place) => *place,
            _ => 0,
        }
    }
}

impl From<TextFault> for DeskFault {
    ghost from_gives = { λ fault e. e ≡ of_text fault };

    fn from(fault: TextFault) -> DeskFault {
        match fault {
            TextFault::Text(offset) => DeskFault::Text(offset),
            TextFault::TooLarge(offset) => DeskFault::TooLarge(offset),
            TextFault::Side => DeskFault::Side,
            TextFault::Narrow => DeskFault::Narrow,
            TextFault::Length => DeskFault::Length,
            TextFault::TooManyGrains => DeskFault::TooManyGrains,
            TextFault::NoSite(index) => DeskFault::NoSite(index),
        }
    }
}

impl From<ReadFault> for DeskFault {
    ghost from_gives = { λ fault e. e ≡ of_read fault };

    fn from(fault: ReadFault) -> DeskFault {
        match fault {
            ReadFault::Memory => DeskFault::Memory,
            ReadFault::Text(fault) => DeskFault::from(fault),
        }
    }
}

impl From<StreamFault> for DeskFault {
    ghost from_gives = { λ fault e. e ≡ of_stream fault };

    fn from(fault: StreamFault) -> DeskFault {
        match fault {
            StreamFault::Memory => DeskFault::Memory,
            StreamFault::Read => DeskFault::Read,
            StreamFault::Write(sent) => DeskFault::Write(sent),
            StreamFault::TooLong => DeskFault::TooLong,
        }
    }
}

impl From<WordsFault> for DeskFault {
    ghost from_gives = { λ fault e. e ≡ of_words fault };

    fn from(fault: WordsFault) -> DeskFault {
        match fault {
            WordsFault::Memory => DeskFault::Memory,
            WordsFault::Usage(error) => DeskFault::Usage(error),
            WordsFault::Clash(conflict) => DeskFault::Clash(conflict),
        }
    }
}

impl From<SettleFault> for DeskFault {
    ghost from_gives = { λ _ e. e ≡ desk.Memory };

    fn from(_refused: SettleFault) -> DeskFault {
        DeskFault::Memory
    }
}

impl From<OneFault> for DeskFault {
    ghost from_gives = { λ fault e. e ≡ of_one fault };

    fn from(fault: OneFault) -> DeskFault {
        match fault {
            OneFault::Full => DeskFault::Full,
            OneFault::Memory(_) => DeskFault::Memory,
        }
    }
}

impl From<GroupFault> for DeskFault {
    ghost from_gives = { λ fault e. e ≡ of_group fault };

    fn from(fault: GroupFault) -> DeskFault {
        match fault {
            GroupFault::Unstable => DeskFault::Unstable,
            GroupFault::NotRecurrent => DeskFault::NotRecurrent,
            GroupFault::Shapes => DeskFault::Shapes,
            GroupFault::Memory(_) => DeskFault::Memory,
        }
    }
}

impl From<ShapeFault> for DeskFault {
    ghost from_gives = { λ fault e. e ≡ of_shape fault };

    fn from(fault: ShapeFault) -> DeskFault {
        match fault {
            ShapeFault::Side => DeskFault::Side,
            ShapeFault::Narrow => DeskFault::Narrow,
        }
    }
}

impl From<AllocError> for DeskFault {
    ghost from_gives = { λ _ e. e ≡ desk.Memory };

    fn from(_refused: AllocError) -> DeskFault {
        DeskFault::Memory
    }
}

/// The exit status of a program that ends with this fault: 2 for misuse, 0 for a call for help, 1 otherwise.
pub fn status(fault: &DeskFault) -> u8
    ensures { result ≡ status_of fault.now }
{
    match fault {
        DeskFault::Usage(error) => match error.kind() {
            ErrorKind::DisplayHelp | ErrorKind::DisplayVersion => 0,
            _ => 2,
        },
        DeskFault::Clash(_) => 2,
        _ => 1,
    }
}

/// The maximum length of a fault's line, in bytes.
const LINE_ROOM: usize = 64;

fn push(line: &mut ArrayString<LINE_ROOM>, part: &str)
    requires { array_string_len line.old + length part.now ≤ 64 }
    ensures { line.new.bytes ≡ line.old.bytes ++ part.now }
{
    let _ = line.try_push_str(part);
}

// Appends where in the input the fault is, or how many bytes of the output were written.
fn push_place(line: &mut ArrayString<LINE_ROOM>, fault: &DeskFault)
    requires { array_string_len line.old ≤ 34 }
    ensures place { line.new.bytes ≡ line.old.bytes ++ place_of fault.now }
    ensures room { array_string_len line.new ≤ 63 }
{
    let mut buffer = Buffer::new();
    match fault {
        DeskFault::Text(place) | DeskFault::TooLarge(place) | DeskFault::NoSite(place) => {
            push(line, " at ");
            push(line, buffer.format(*place));
        }
        DeskFault::Write(sent) => {
            push(line, " after ");
            push(line, buffer.format(*sent));
        }
        _ => (),
    }
}

fn line_of(fault: &DeskFault) -> ArrayString<LINE_ROOM>
    ensures { result.bytes ≡ fault_line fault.now }
{
    let mut line = ArrayString::new();
    let mut buffer = Buffer::new();
    let (number, name) = fault.row();
    push(&mut line, "fault ");
    push(&mut line, buffer.format(number));
    push(&mut line, " ");
    push(&mut line, name);
    push_place(&mut line, fault);
    push(&mut line, "\n");
    line
}

/// Writes the line of a fault, such as `fault 18 Text at 6`, and a newline. Allocates nothing. Fails if the writer
/// fails (`Write`, with the number of bytes it took).
pub fn write_fault<W: Write>(fault: &DeskFault, writer: &mut W) -> Result<(), DeskFault>
    requires { number_of fault.now ≢ 23 }
    ensures ok { OnOk result (Appends (W.contents writer.old) (W.contents writer.new) (fault_line fault.now)) }
    ensures err { IfErr result (λ e. (sent : ℕ) × (e ≡ DeskFault.Write sent) × (sent ≤ length (fault_line fault.now))
        × Appends (W.contents writer.old) (W.contents writer.new) (take sent (fault_line fault.now))) }
{
    write_text(writer, line_of(fault).as_str().as_bytes())?;
    Ok(())
}

// Writes the line of a fault, or as much of it as the writer takes.
fn write_line<W: Write>(fault: &DeskFault, writer: &mut W)
    ensures { (sent : ℕ) × Appends (W.contents writer.old) (W.contents writer.new) (take sent (fault_line fault.now)) }
{
    let _ = write_text(writer, line_of(fault).as_str().as_bytes());
}

/// Reports a fault on standard error, to which `errors` writes, and returns the exit status of a program that ends with
/// it. For misuse, a message about the words replaces the line. A call for help is no fault: `show_help` handles it.
pub fn report_fault<R: Eprint, W: Write>(rt: &R, errors: &mut W, fault: &DeskFault) -> ExitCode
    requires { status_of fault.now ≢ 0 }
    ensures status { exit_status result ≡ status_of fault.now }
    ensures line { number_of fault.now ≢ 23 → (sent : ℕ) ×
        Appends (W.contents errors.old) (W.contents errors.new) (take sent (fault_line fault.now)) }
    ensures misuse { number_of fault.now ≡ 23 → W.contents errors.new ≡ W.contents errors.old }
{
    match fault {
        DeskFault::Usage(error) => {
            let _ = eprint!(rt; "{error}");
        }
        DeskFault::Clash(conflict) => {
            let _ = eprintln!(rt; "{conflict}");
        }
        _ => write_line(fault, errors),
    }
    ExitCode::from(status(fault))
}
