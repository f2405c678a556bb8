//! The two loops over a stream: reading to the end, and writing a whole text.
//!
//! Each iteration moves at least one byte or ends the loop. Every error is final, even an interruption.

ghost use Rattle.std.specs.Prelude.{◌≡◌, ◌≢◌, ℕ, ◌+◌, ◌≤◌, ◌<◌, length, take, IfOk, IfErr, OnOk, IsErrOf};
ghost use Rattle.std.specs.Io.KnownBytes.{Appends};
ghost use Rattle.sand_text.specs.Flow.{GivesAll, IsFurther, IsFurtherByAtMost, IsOfReading, most_bytes};

use crate::fault::StreamFault;
use std::alloc::Global;
use std::io::{Read, Write};

/// The largest number of bytes of an input.
pub const INPUT_LIMIT: usize = 1_048_576;

/// The most bytes requested from a reader at once. The buffer for them is on the stack.
const CHUNK: usize = 4_096;

/// Reads a reader to its end. Returns Read if the reader fails; TooLong if it has more than `INPUT_LIMIT` bytes, after
/// taking one byte over the limit; Memory if an allocation fails.
pub fn read_all<R: Read>(alloc: Global, reader: &mut R) -> Result<Vec<u8>, StreamFault>
    ensures all { IfOk result (λ text. GivesAll (R.remaining reader.old) (R.remaining reader.new) text.items) }
    ensures within { IfOk result (λ text. length text.items ≤ most_bytes) }

    // How far the reader was read before a fault.
    ensures too_long { IsErrOf result StreamFault.TooLong
        → IsFurther (R.remaining reader.old) (R.remaining reader.new) (most_bytes + 1) }
    ensures failed { IfErr result (λ e.
        e ≢ StreamFault.TooLong → IsFurtherByAtMost (R.remaining reader.old) (R.remaining reader.new) most_bytes) }
    ensures fault { IfErr result IsOfReading }
{
    let mut text = Vec::new(alloc);
    let mut chunk = [0u8; CHUNK];
    'reading: loop {
        let room = chunk.len().min(INPUT_LIMIT + 1 - text.len());
        let window = &mut chunk[..room];
        let Ok(count) = reader.read(window) else {
            return Err(StreamFault::Read);
        };
        if count == 0 {
            return Ok(text);
        }
        if count > INPUT_LIMIT - text.len() {
            return Err(StreamFault::TooLong);
        }
        text.extend_from_slice(&window[..count])?;
    }
}

/// Writes a whole text, and flushes the writer. If a write fails or takes nothing, or if the flush fails, returns Write
/// with the number of bytes that the writer took.
pub fn write_text<W: Write>(writer: &mut W, text: &[u8]) -> Result<(), StreamFault>
    ensures ok { OnOk result (Appends (W.contents writer.old) (W.contents writer.new) text.now) }
    ensures err { IfErr result (λ e. (sent : ℕ) × (e ≡ StreamFault.Write sent) × (sent ≤ length text.now)
        × Appends (W.contents writer.old) (W.contents writer.new) (take sent text.now)) }
{
    let mut sent = 0;
    'writing: while sent < text.len() {
        let (_, rest) = text.split_at(sent);
        match writer.write(rest) {
            Ok(0) | Err(_) => return Err(StreamFault::Write(sent)),
            Ok(count) => sent += count,
        }
    }
    match writer.flush() {
        Ok(()) => Ok(()),
        Err(_) => Err(StreamFault::Write(sent)),
    }
}
