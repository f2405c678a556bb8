//! The tokens of a text, in order. Each byte of a token is read once.

ghost use Rattle.std.specs.Prelude.{◌≡◌, ℕ, ◌+◌, ◌<◌, ◌≤◌, ◌^◌, length, take};
ghost use Rattle.std.specs.Iterator.{item_count, YieldsFirst};
ghost use Rattle.std.specs.Str.Parse.{digits_value};
ghost use Rattle.sand_text.specs.Bytes.{digits_len, capped};
ghost use Rattle.sand_text.specs.Tokens.{token_of};

use crate::bytes::{Span, space_len, span_of};

/// A token of a text, with its offset.
#[derive(Clone, Copy)]
pub enum Token {
    /// Digits only. A value over the grain limit counts as one over it.
    Number { start: usize, value: u64 },
    /// A single letter `c`.
    Letter(usize),
    /// Anything else, with the offset of its first byte that is not a digit.
    Strange(usize),
}

/// The tokens of a text from an offset on that is not inside a token.
#[derive(Clone, Copy)]
pub struct Tokens<'a> {
    at: usize,
    rest: &'a [u8],
    ghost room: { at + length rest.now < 2 ^ 63 },
}

// The token at an offset, by its span.
#[tactic(auto, unfolding(crate::specs::Tokens::token_of))]
fn token_at(start: usize, token: &[u8], span: Span) -> Token
    requires len { span.len ≡ length token.now }
    requires digits { span.digits ≡ digits_len token.now }
    requires value { span.value ≡ capped (digits_value 10 (take span.digits token.now)) }
    requires room { start + length token.now < 2 ^ 64 }
    ensures { result ≡ token_of start token.now }
{
    if span.digits == span.len {
        Token::Number {
            start,
            value: span.value,
        }
    } else if token.len() == 1 && token[0] == b'c' {
        Token::Letter(start)
    } else {
        Token::Strange(start + span.digits)
    }
}

impl<'a> Tokens<'a> {
    ghost use Rattle.sand_text.specs.Tokens.{tokens};
    ghost use Rattle.sand_text.specs.Left.{tokens_left};

    /// All tokens of a text.
    pub fn new(text: &'a [u8]) -> Tokens<'a>
        ensures { tokens_left result ≡ tokens text.entry.now }
    {
        Tokens { at: 0, rest: text }
    }
}

impl<'a> Iterator for Tokens<'a> {
    ghost use Rattle.sand_text.specs.Left.{tokens_left};

    type Item = Token;

    ghost next_gives = { YieldsFirst tokens_left };

    ghost remaining = { item_count tokens_left };

    fn next(&mut self) -> Option<Token> {
        let skipped = space_len(self.rest);
        let (_, text) = self.rest.split_at(skipped);
        if text.is_empty() {
            return None;
        }
        let start = self.at + skipped;
        let span = span_of(text);
        let (token, rest) = text.split_at(span.len);
        *self = Tokens {
            at: start + span.len,
            rest,
        };
        Some(token_at(start, token, span))
    }
}
