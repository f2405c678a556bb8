//! Tips for words that the command line rejects: a file's name, or a value that is not a whole number.

use sand_cli::{is_command, is_flag};
use std::alloc::{AllocError, Global};

/// A rejected word, and what may be wrong with it.
#[derive(Clone, Copy)]
enum Mistake<'a> {
    /// A word that the command does not take. It may be a file's name.
    Stray(&'a str),
    /// A value that is not a whole number.
    NotWhole(&'a str),
}

// Whether a word is a command that reads a pile from standard input.
fn reads_a_pile(word: &str) -> bool {
    is_command(word) && word != "identity"
}

// Whether a word is a whole number as options accept it.
fn is_whole(word: &str) -> bool {
    let digits = word.strip_prefix('+').unwrap_or(word);
    !digits.is_empty() && digits.as_bytes().iter().all(|byte| byte.is_ascii_digit())
}

// Whether a shell takes a word literally.
fn is_plain(word: &str) -> bool {
    word.as_bytes().iter().all(|byte| byte.is_ascii_alphanumeric()
        || matches!(byte, b'.' | b'_' | b'-' | b'/'))
}

// Whether the word is an option that takes the next word as its value.
fn awaits_value(word: &str) -> bool {
    word.strip_prefix("--").is_some_and(|name| {
        !name.contains('=') && !is_flag(name) && !matches!(name, "help" | "version")
    })
}

// The mistake in a value, if there is one. For an empty value clap's message is enough.
fn mistake_in_value(value: &str) -> Option<Mistake<'_>> {
    if value.is_empty() || value.starts_with("--") || is_whole(value) {
        None
    } else {
        Some(Mistake::NotWhole(value))
    }
}

// The mistake in a word that follows another word.
fn mistake_in<'a>(before: &str, word: &'a str) -> Option<Mistake<'a>> {
    match word.split_once('=') {
        _ if awaits_value(before) => mistake_in_value(word),
        Some((option, value)) if awaits_value(option) => mistake_in_value(value),
        Some(_) => None,
        None if word.starts_with('-') || is_whole(word) => None,
        None => Some(Mistake::Stray(word)),
    }
}

// The mistake with this index in the words after a command.
fn mistake_at<'a>(words: &'a [String], index: usize) -> Option<Mistake<'a>> {
    words
        .iter()
        .zip(words.iter().skip(1))
        .filter_map(|(before, word)| mistake_in(before.as_str(), word.as_str()))
        .nth(index)
}

// The tip to read one file.
fn push_reading(text: &mut String, command: &str, file: &str) -> Result<(), AllocError> {
    let file = if is_plain(file) { file } else { "FILE" };
    write!(
        text,
        "tip: piles are read from standard input: sandpile {command} < {file}\n"
    )
}

// The tip to read two files.
fn push_joining(text: &mut String, first: &str, second: &str) -> Result<(), AllocError> {
    let (first, second) = if is_plain(first) && is_plain(second) {
        (first, second)
    } else {
        ("FIRST", "SECOND")
    };
    write!(
        text,
        "tip: both piles are read from standard input: cat {first} {second} | sandpile add\n"
    )
}

// A tip on the words after a command.
fn push_tip(text: &mut String, command: &str, words: &[String]) -> Result<(), AllocError> {
    match (mistake_at(words, 0), mistake_at(words, 1)) {
        (Some(Mistake::NotWhole(value)), _) => {
            let value = if is_plain(value) { value } else { "the value" };
            write!(
                text,
                "tip: {value} is not a whole number; use only digits, such as 1000000\n"
            )
        }
        (Some(Mistake::Stray(first)), Some(Mistake::Stray(second))) if command == "add" => {
            push_joining(text, first, second)
        }
        (Some(Mistake::Stray(file)), _) if reads_a_pile(command) => {
            push_reading(text, command, file)
        }
        _ => Ok(()),
    }
}

// Whether a word in place of a command looks like a file's name.
fn is_file(word: &str) -> bool {
    !word.starts_with('-') && (word.contains('.') || word.contains('/'))
}

/// A tip on words that the command line rejects, or nothing. The first word is the program's name. Fails if memory runs
/// out.
pub fn tip(alloc: Global, words: &[String]) -> Result<String, AllocError> {
    let mut text = String::new(alloc);
    match words {
        [_, file, ..] if is_file(file.as_str()) => {
            push_reading(&mut text, "settle", file.as_str())?;
        }
        [_, command, ..] => push_tip(&mut text, command.as_str(), &words[1..])?,
        _ => (),
    }
    Ok(text)
}
