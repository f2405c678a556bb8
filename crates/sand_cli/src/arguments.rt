//! The words of the command line. The program's name is not read, so it need not be text.

ghost use Rattle.std.specs.Prelude.{◌≡◌, ◌<◌, false, true, length};

use std::alloc::Global;
use std::env::FillError;
use std::rt::Env;
use std::{env, io};

// The arguments that come after the program's name.
#[derive(Drop)]
struct AfterName<'a, R> {
    rt: &'a R,
}

impl<R: Env> Env for AfterName<'_, R> {
    fn arg(&self, i: usize, buf: &mut [u8]) -> Result<usize, FillError> {
        self.rt.arg(i.saturating_add(1), buf)
    }

    fn var(&self, name: &str, buf: &mut [u8]) -> Result<usize, FillError> {
        self.rt.var(name, buf)
    }

    fn var_at(&self, i: usize, buf: &mut [u8]) -> Result<usize, FillError> {
        self.rt.var_at(i, buf)
    }
}

// Whether the program was called by a name.
fn is_named<R: Env>(rt: &R) -> bool {
    let mut start = [0u8; 1];
    !matches!(rt.arg(0, &mut start), Ok(0) | Err(FillError::NotPresent))
}

/// The words, after `sandpile` in place of the program's name; if that is empty or missing, after an empty word. `help`
/// is replaced by `--help` at the end. Fails if a word is not text, or memory runs out.
pub fn words_of<R: Env>(rt: &R, alloc: Global) -> io::Result<Vec<String>> {
    let name = if is_named(rt) { "sandpile" } else { "" };
    let args = env::args(&(AfterName { rt }, alloc))?;
    let mut words = Vec::with_capacity(alloc, args.len().saturating_add(1))?;
    words.push(String::from_str(alloc, name)?)?;
    for word in args {
        words.push(word)?;
    }
    if asks_for_help(words.as_slice()) {
        let _ = words.remove(1);
        words.push(String::from_str(alloc, "--help")?)?;
    }
    Ok(words)
}

// Whether the words are `help`, alone or with a command. They are then read as `--help`, alone or after the command.
fn asks_for_help(words: &[String]) -> bool
    ensures { result ≡ true → 1 < length words.now }
{
    match words {
        [_, word] | [_, word, _] => word.as_str() == "help",
        _ => false,
    }
}

/// Whether the program was started without any word. Current kernels then pass one empty word.
pub fn is_nothing(words: &[String]) -> bool
    ensures { result ≡ false → 0 < length words.now }
{
    match words {
        [] => true,
        [only] => only.is_empty(),
        _ => false,
    }
}
