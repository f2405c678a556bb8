//! The progress line of a long command on a terminal, and the writer that clears it before anything else is written
//! there.
//!
//! The cursor is on the row below the line. A program in Rattle cannot catch a signal, so Ctrl-C leaves the line on the
//! screen; what the terminal and the shell write then comes below it.

use crate::progress_text::progress_line;
use sand_cli::{Task, task_of};
use sand_wish::{Gate, Role};
use std::alloc::{AllocError, Global};
use std::env::FillError;
use std::io;
use std::io::Write;
use std::rt::{Clock, Env};
use std::sync::atomic::Ordering::SeqCst;
use std::sync::atomic::{AtomicBool, AtomicU64};
use std::time::Instant;

/// The number of drops that a dropper makes between two looks at the clock.
const STEP: u32 = 1024;

/// Moves the cursor from the row below the line to the line.
const TO_LINE: &str = "\x1b[A\r";

/// Clears from the cursor to the end of its row.
const CLEAR: &str = "\x1b[K";

/// Long work: the command's name, the number of dropping threads, the drops of each of them per epoch, and the number of
/// all drops.
#[derive(Clone, Copy)]
struct Work {
    name: &'static str,
    droppers: u32,
    turns: u32,
    drops: u64,
}

// The long work that the words ask for, if any: drops at random, or a run of the laboratory.
fn work_of(alloc: Global, words: &[String]) -> Option<Work> {
    match task_of(alloc, words).ok()? {
        Task::Drops {
            drawn: Some(draw),
            ..
        } => Some(Work {
            name: "drops",
            droppers: 1,
            turns: draw.count,
            drops: u64::from(draw.count),
        }),
        Task::Lab { wish, .. } => Some(Work {
            name: "lab",
            droppers: wish.droppers,
            turns: wish.drops,
            drops: u64::from(wish.droppers)
                .saturating_mul(u64::from(wish.drops))
                .saturating_mul(u64::from(wish.epochs)),
        }),
        _ => None,
    }
}

// Whether the terminal is known by a name, and can rewrite a line.
fn rewrites_lines<R: Env>(rt: &R) -> bool {
    let mut name = [0u8; 8];
    match rt.var("TERM", &mut name) {
        Ok(length) => !matches!(&name[..length], b"" | b"dumb"),
        Err(FillError::TooLong) => true,
        Err(FillError::NotPresent) => false,
    }
}

/// The progress of the work that the words ask for, from now on: none if it is not long, if the terminal cannot rewrite
/// a line, or if memory runs out.
pub fn progress_of<'a, R: Eprint + Clock + Env>(
    rt: &'a R,
    alloc: Global,
    words: &[String],
) -> Option<Progress<'a, R>> {
    if rewrites_lines(rt) {
        Progress::new(rt, alloc, work_of(alloc, words)?).ok()
    } else {
        None
    }
}

// A counter for each dropper, written by that dropper alone: the drops it has begun, except those since its last step.
fn counts_of(alloc: Global, droppers: u32) -> Result<Vec<AtomicU64>, AllocError> {
    let mut begun = Vec::with_capacity(alloc, droppers as usize)?;
    for _ in 0..droppers {
        begun.push(AtomicU64::new(0))?;
    }
    Ok(begun)
}

/// A gate that holds no thread, and writes the line once a second, the first time after one second.
#[derive(Drop)]
pub struct Progress<'a, R> {
    rt: &'a R,
    alloc: Global,
    work: Work,
    start: Instant,
    begun: Vec<AtomicU64>,
    /// The second in which the line was last written.
    shown: AtomicU64,
    is_over: AtomicBool,
}

impl<'a, R: Eprint + Clock> Progress<'a, R> {
    fn new(rt: &'a R, alloc: Global, work: Work) -> io::Result<Progress<'a, R>> {
        Ok(Progress {
            rt,
            alloc,
            work,
            start: Instant::now(rt)?,
            begun: counts_of(alloc, work.droppers)?,
            shown: AtomicU64::new(0),
            is_over: AtomicBool::new(false),
        })
    }

    /// Clears the line, and writes no more.
    pub fn end(&self) {
        self.is_over.store(true, SeqCst);
        if self.shown.swap(0, SeqCst) > 0 {
            let _ = eprint!(self.rt; "{TO_LINE}{CLEAR}");
        }
    }

    // The number of drops begun.
    fn made(&self) -> u64 {
        let mut made: u64 = 0;
        for begun in &self.begun {
            made = made.saturating_add(begun.load(SeqCst));
        }
        made
    }

    // Writes the line if a second has passed since it was last written. Only one of several threads does.
    fn show(&self) {
        let Ok(time) = self.start.elapsed(self.rt) else {
            return;
        };
        let seconds = time.as_secs();
        let shown = self.shown.load(SeqCst);
        let is_due = seconds > shown && !self.is_over.load(SeqCst);
        if is_due
            && self
                .shown
                .compare_exchange(shown, seconds, SeqCst, SeqCst)
                .is_ok()
        {
            let Work { name, drops, .. } = self.work;
            if let Ok(line) = progress_line(self.alloc, name, self.made(), drops, seconds) {
                self.write_line(line.as_str(), shown == 0);
            }
        }
    }

    // Writes the line in place of the one before, and ends on the row below. It is cut at the right edge, where a
    // terminal would otherwise go on in the next row. One write has all of this, so that no signal comes in between.
    fn write_line(&self, line: &str, is_first: bool) {
        let start = if is_first { "\r" } else { TO_LINE };
        if let Ok(text) = format!(in self.alloc; "{start}\x1b[?7l{line}{CLEAR}\x1b[?7h\n") {
            let _ = eprint!(self.rt; "{text}");
        }
    }

    // Counts a step that a dropper has begun. The first step of an epoch comes after all drops of the epochs before it.
    fn note(&self, who: u32, turn: u32) {
        let Some(begun) = self.begun.get(who as usize) else {
            return;
        };
        let before = begun.load(SeqCst);
        let after = if turn == 0 {
            let turns = u64::from(self.work.turns.max(1));
            let epochs = before.div_ceil(turns);
            epochs.saturating_mul(turns).saturating_add(1)
        } else {
            before.saturating_add(u64::from(STEP))
        };
        begun.store(after, SeqCst);
    }
}

impl<R: Eprint + Clock + Sync> Gate for Progress<'_, R> {
    fn turn(&self, role: Role, who: u32, turn: u32) {
        match role {
            Role::Dropper if turn % STEP == 0 => {
                self.note(who, turn);
                self.show();
            }
            Role::Worker => self.show(),
            _ => (),
        }
    }

    fn holds(&self) -> bool {
        false
    }
}

/// Passes on what is written. If that goes to the same terminal, it clears the line first.
#[derive(Drop)]
pub struct Cleared<'a, 'b, W, R> {
    writer: W,
    progress: Option<&'a Progress<'b, R>>,
}

impl<'a, 'b, W, R> Cleared<'a, 'b, W, R> {
    /// A writer that clears the line of `progress`, if given.
    pub fn new(writer: W, progress: Option<&'a Progress<'b, R>>) -> Cleared<'a, 'b, W, R> {
        Cleared { writer, progress }
    }
}

impl<W: Write, R: Eprint + Clock> Write for Cleared<'_, '_, W, R> {
    ghost contents = { λ cleared. W.contents cleared.writer };

    fn write(&mut self, bytes: &[u8]) -> io::Result<usize> {
        if let Some(progress) = self.progress {
            progress.end();
        }
        self.writer.write(bytes)
    }

    fn flush(&mut self) -> io::Result<()> {
        self.writer.flush()
    }
}
