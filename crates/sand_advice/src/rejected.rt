//! A rejected input, and its piles as far as they go, by the survey that finds the faults of a text.

use sand_model::TOPPLING_HEIGHT;
use sand_text::{Survey, Token, Tokens, first_survey, plain_survey, second_survey};

/// A command, the bytes that it read, and the number at the end of the fault's line, or 0.
#[derive(Clone, Copy)]
pub(crate) struct Rejected<'a> {
    pub command: &'a str,
    pub input: &'a [u8],
    pub place: usize,
}

/// A pile in an input: what the survey says of it, and the tokens from its width on.
#[derive(Clone, Copy)]
pub(crate) struct Surveyed<'a> {
    pub survey: Survey,
    tokens: Tokens<'a>,
}

// The offset and the value of a token that is a number.
fn number_of(token: Token) -> Option<(usize, u64)> {
    match token {
        Token::Number { start, value } => Some((start, value)),
        Token::Letter(_) | Token::Strange(_) => None,
    }
}

impl Surveyed<'_> {
    /// The offset and the value of the number with this index, from the width on.
    pub(crate) fn number(&self, index: usize) -> Option<(usize, u64)> {
        self.tokens.filter_map(number_of).nth(index)
    }

    /// The offset and the value of the first height over 3.
    pub(crate) fn unstable(&self) -> Option<(usize, u64)> {
        self.tokens
            .filter_map(number_of)
            .skip(2)
            .take(self.survey.sites())
            .find(|(_, height)| *height >= TOPPLING_HEIGHT)
    }
}

impl<'a> Rejected<'a> {
    /// The first pile, the last one, and the last one's name in a sentence. They are the same pile, except for `add` if the
    /// first one has no fault of its own.
    pub(crate) fn piles(&self) -> Option<(Surveyed<'a>, Surveyed<'a>, &'static str)> {
        let tokens = Tokens::new(self.input);
        if self.command != "add" {
            let survey = plain_survey(self.input).ok()?;
            let pile = Surveyed { survey, tokens };
            return Some((pile, pile, "the pile"));
        }
        let mut rest = tokens;
        let survey = first_survey(&mut rest).ok()?;
        let first = Surveyed { survey, tokens };
        if survey.shape(false, self.input.len()).is_err() {
            return Some((first, first, "the first pile"));
        }
        let survey = second_survey(rest, self.input).ok()?;
        let tokens = rest;
        Some((first, Surveyed { survey, tokens }, "the second pile"))
    }
}
