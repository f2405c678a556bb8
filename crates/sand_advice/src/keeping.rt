//! A reader that keeps a copy of what it reads, so that the program can say what was wrong with it.

ghost use Rattle.std.specs.Prelude.{length, ◌≤◌};

use std::io;
use std::io::Read;

/// Passes on what another reader gives. If it starts with a copy, it extends that copy as long as memory lasts.
#[derive(Drop)]
pub struct Kept<R> {
    reader: R,
    copy: Option<Vec<u8>>,
}

impl<R> Kept<R> {
    pub fn new(reader: R, copy: Option<Vec<u8>>) -> Kept<R> {
        Kept { reader, copy }
    }

    /// What was read, if the copy is complete.
    pub fn copy(&self) -> Option<&[u8]> {
        self.copy.as_ref().map(|copy| copy.as_slice())
    }
}

// Appends bytes to a copy; drops the copy if memory runs out.
fn with_bytes(copy: Option<Vec<u8>>, bytes: &[u8]) -> Option<Vec<u8>> {
    let mut copy = copy?;
    copy.extend_from_slice(bytes).ok()?;
    Some(copy)
}

impl<R: Read> Read for Kept<R> {
    ghost remaining = { λ kept. R.remaining kept.reader };

    fn read(&mut self, room: &mut [u8]) -> io::Result<usize> {
        let count = self.reader.read(room)?;
        self.copy = with_bytes(self.copy.take(), &room[..count]);
        Ok(count)
    }
}
