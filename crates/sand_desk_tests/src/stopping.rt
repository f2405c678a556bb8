//! For the tests: readers and a writer that stop, and move few bytes per call.
//!
//! A contract of a command says most if the contents of its reader and writer are known. So these specify theirs: what
//! the writer has taken, and what a reader has left. A reader that only counts cannot.

ghost use Rattle.std.specs.Prelude.{Some};

use std::alloc::Global;
use std::io;
use std::io::{ErrorKind, Read, Write};

/// Takes at most `step` bytes per call, up to `room` bytes; then fails, or takes nothing, once. Counts its calls.
#[derive(Drop)]
pub struct Sluggish {
    pub taken: Vec<u8>,
    pub calls: usize,
    pub step: usize,
    pub room: usize,
    /// How it fails; if not at all, it takes nothing.
    pub failure: Option<ErrorKind>,
    pub flushes: bool,
}

impl Sluggish {
    /// A writer that has taken nothing yet, takes one byte per call, and stops with an error.
    pub fn new(alloc: Global, room: usize) -> Sluggish {
        Sluggish {
            taken: Vec::new(alloc),
            calls: 0,
            step: 1,
            room,
            failure: Some(ErrorKind::Other),
            flushes: true,
        }
    }
}

impl Write for Sluggish {
    ghost contents = { λ w. Some w.taken.items };

    fn write(&mut self, bytes: &[u8]) -> io::Result<usize> {
        self.calls = self.calls.saturating_add(1);
        let room = self.room.saturating_sub(self.taken.len());
        if room == 0 {
            self.room = usize::MAX;
            return match self.failure {
                Some(kind) => Err(io::Error::from(kind)),
                None => Ok(0),
            };
        }
        let count = bytes.len().min(self.step).min(room);
        self.taken.extend_from_slice(&bytes[..count])?;
        Ok(count)
    }

    fn flush(&mut self) -> io::Result<()> {
        if self.flushes {
            Ok(())
        } else {
            Err(io::Error::from(ErrorKind::Other))
        }
    }
}

/// Gives these bytes, one per call; then fails.
#[derive(Drop)]
pub struct Failing<'a>(pub &'a [u8]);

impl Read for Failing<'_> {
    ghost remaining = { λ r. Some r.0.now };

    fn read(&mut self, room: &mut [u8]) -> io::Result<usize> {
        let (Some(slot), [first, rest @ ..]) = (room.first_mut(), self.0) else {
            return Err(io::Error::from(ErrorKind::Other));
        };
        *slot = *first;
        self.0 = rest;
        Ok(1)
    }
}

/// Gives as many of these bytes as requested; then fails.
#[derive(Drop)]
pub struct Cut<'a>(pub &'a [u8]);

impl Read for Cut<'_> {
    ghost remaining = { λ r. Some r.0.now };

    fn read(&mut self, room: &mut [u8]) -> io::Result<usize> {
        if self.0.is_empty() {
            return Err(io::Error::from(ErrorKind::Other));
        }
        self.0.read(room)
    }
}

/// Gives `left` spaces, at most `step` per call; fails in call `fails_at`. Counts its calls.
#[derive(Drop)]
pub struct Giver {
    pub left: usize,
    pub step: usize,
    pub calls: usize,
    pub fails_at: usize,
}

impl Read for Giver {
    fn read(&mut self, room: &mut [u8]) -> io::Result<usize> {
        self.calls = self.calls.saturating_add(1);
        if self.calls == self.fails_at {
            return Err(io::Error::from(ErrorKind::Interrupted));
        }
        let count = self.left.min(self.step).min(room.len());
        room[..count].fill(b' ');
        self.left -= count;
        Ok(count)
    }
}
