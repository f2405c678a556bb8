//! What the words ask for: a command's task, or something of the program itself.

ghost use Rattle.std.specs.Prelude.{◌≡◌, IfErr, IfOk, map, string_bytes, true};
ghost use Rattle.sand_cli.specs.Requests.{IsAsked, IsOfExplain, is_command, is_version, wants_explanation, wants_version};

use crate::explain::fault_named;
use crate::names;

/// What the words ask for; the first word is the program's name.
#[derive(Clone, Copy)]
pub enum Request {
    Version,
    /// The meaning of the fault with this number, or of all.
    Explain(Option<u32>),
    /// The help of `explain`.
    ExplainHelp,
    /// A command's task, or its help.
    Command,
}

/// What was asked for, and the words that ask for it.
#[derive(Clone, Copy)]
pub struct Asked<'a> {
    pub request: Request,
    pub words: &'a [String],
}

/// What is wrong with the words after `explain`.
#[derive(Clone, Copy)]
pub enum Misuse<'a> {
    /// This word is not a fault.
    NoFault(&'a str),
    ManyFaults,
}

fn is_version(word: &str) -> bool
    ensures { result ≡ is_version word.now }
{
    matches!(word, "--version" | "-V")
}

// Whether a word is a command, or `explain`.
fn is_command(word: &str) -> bool
    ensures { result ≡ is_command word.now }
{
    names::is_command(word) || word == "explain"
}

fn wants_version(words: &[String]) -> bool
    ensures { result ≡ wants_version (map string_bytes words.now) }
{
    match words {
        [_, word] => is_version(word.as_str()),
        [_, command, word] => is_command(command.as_str()) && is_version(word.as_str()),
        _ => false,
    }
}

fn wants_explanation(words: &[String]) -> bool
    ensures { result ≡ wants_explanation (map string_bytes words.now) }
{
    match words {
        [_, command, ..] => command.as_str() == "explain",
        _ => false,
    }
}

// What the words after `explain` ask for.
fn explanation_in(words: &[String]) -> Result<Request, Misuse<'_>>
    ensures { IfOk result IsOfExplain }
{
    match words {
        [] => Ok(Request::Explain(None)),
        [word] if matches!(word.as_str(), "--help" | "-h") => Ok(Request::ExplainHelp),
        [word] => match fault_named(word.as_str()) {
            Some(fault) => Ok(Request::Explain(Some(fault.number))),
            None => Err(Misuse::NoFault(word.as_str())),
        },
        _ => Err(Misuse::ManyFaults),
    }
}

/// What the words ask for. Fails if `explain` is followed by anything but one fault, or a word that asks for help or
/// the version.
pub fn request_of(words: &[String]) -> Result<Request, Misuse<'_>>
    ensures asked { IfOk result (IsAsked (map string_bytes words.now)) }
    ensures misuse { IfErr result (λ _. wants_explanation (map string_bytes words.now) ≡ true) }
{
    if wants_version(words) {
        return Ok(Request::Version);
    }
    match words {
        [_, _, after @ ..] if wants_explanation(words) => explanation_in(after),
        _ => Ok(Request::Command),
    }
}
