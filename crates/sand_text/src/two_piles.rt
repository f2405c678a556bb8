//! Reading two piles, one after the other, from one text.
//!
//! One pass over the tokens surveys the first pile until it is full, and then the second. The tokens before a letter
//! decide whether the second pile may have it there, with one exception: in a text with a number over the limit
//! anywhere, the second pile may have no letter. So at a letter the whole text is searched for such a number.

ghost use Rattle.std.specs.Prelude.{◌≡◌, ◌+◌, ◌≤◌, List, [], ◌∷◌, Bool, length, take, drop, sum, None, IfOk, IfErr};
ghost use Rattle.sand_model.specs.Grid.{sites};
ghost use Rattle.sand_text.specs.declared.tokens.Token.{Token};
ghost use Rattle.sand_text.specs.Tokens.{tokens, first_strange, numbers};
ghost use Rattle.sand_text.specs.Left.{tokens_left};
ghost use Rattle.sand_text.specs.Bytes.{has_large};
ghost use Rattle.sand_text.specs.Reading.{ReadsAs, plain_tokens, second_letter, second_spared, two_letters, two_of, heights_on, behind_heights, heights_behind};
ghost use Rattle.sand_text.specs.Surveys.{IsSurvey, IsFront, IsFirstStrange, barred_at};
ghost use Rattle.sand_model.specs.Piles.{most_grains_on};

use crate::bytes::has_large;
use crate::fault::{ReadFault, TextFault};
use crate::numbers::Numbers;
use crate::survey::Survey;
use crate::tokens::{Token, Tokens};
use sand_model::{Pile, Shape};
use std::alloc::Global;

/// The survey of the first pile, up to its last height or the end of the text; else Text at the first strange byte. The
/// tokens after the pile are left.
pub fn first_survey(tokens: &mut Tokens<'_>) -> Result<Survey, TextFault>
    ensures ok { IfOk result (IsFront (tokens_left tokens.old) (tokens_left tokens.new)) }
    ensures err { IfErr result (λ e. (over : Bool)
        → IsFirstStrange (2 ∷ second_letter over (numbers (tokens_left tokens.old))) (tokens_left tokens.old) e) }
{
    let mut survey = Survey::new();
    'pile: while !survey.is_full() {
        let Some(token) = tokens.next() else {
            break;
        };
        survey.take(token)?;
    }
    Ok(survey)
}

// The offset of a letter that the second pile may not have, because the text has a number over the limit.
fn barred_at(token: Token, text: &[u8]) -> Option<usize>
    ensures { result ≡ barred_at (has_large text.now) token }
{
    match token {
        Token::Letter(at) if has_large(text) => Some(at),
        _ => None,
    }
}

/// The survey of the second pile of a text, which has all these tokens; else Text at the first strange byte.
pub fn second_survey(tokens: Tokens<'_>, text: &[u8]) -> Result<Survey, TextFault>
    ensures ok { IfOk result (IsSurvey (tokens_left tokens.entry) []) }
    ensures plain { IfOk result (λ s. first_strange (second_spared text.now) 0 (tokens_left tokens.entry) ≡ None) }
    ensures err { IfErr result (IsFirstStrange (second_spared text.now) (tokens_left tokens.entry)) }
{
    let mut survey = Survey::new();
    for token in tokens {
        if let Some(at) = barred_at(token, text) {
            return Err(TextFault::Text(at));
        }
        survey.take(token)?;
    }
    Ok(survey)
}

// The surveys of the two piles of a text; else Text at the first strange byte, else TooLarge at the first number over
// the limit.
fn two_surveys(text: &[u8]) -> Result<(Survey, Survey), TextFault>
    ensures piles { IfOk result
        (λ (first, second). (rest : List Token) × IsFront (tokens text.now) rest first × IsSurvey rest [] second) }
    ensures plain { IfOk result (λ _. plain_tokens (two_letters text.now) text.now ≡ Ok (tokens text.now)) }
    ensures err { IfErr result (λ e. plain_tokens (two_letters text.now) text.now ≡ Err e) }
{
    let mut tokens = Tokens::new(text);
    let first = first_survey(&mut tokens)?;
    let second = second_survey(tokens, text)?;
    match first.large.or(second.large) {
        Some(at) => Err(TextFault::TooLarge(at)),
        None => Ok((first, second)),
    }
}

// The shapes and the grains of the two piles, if the text has no fault.
fn shapes_of(text: &[u8]) -> Result<((Shape, u64), (Shape, u64)), TextFault>
    ensures piles { IfOk result (λ ((g, _), (h, _)). two_of text.now ≡ Ok (
      record { grid = g; heights = heights_on g text.now },
      record { grid = h; heights = heights_behind g h text.now },
    )) }
    ensures enough { IfOk result (λ ((g, _), (h, _)).
        (2 + sites g ≤ length (numbers (tokens text.now))) × (2 + sites h ≤ length (behind_heights g text.now))) }
    ensures len { IfOk result (λ ((g, _), (h, _)).
        (length (heights_on g text.now) ≡ sites g) × (length (heights_behind g h text.now) ≡ sites h)) }
    ensures grains { IfOk result
        (λ ((g, n), (h, m)). (n ≡ sum (heights_on g text.now)) × (m ≡ sum (heights_behind g h text.now))) }
    ensures limit { IfOk result (λ ((g, n), (h, m)). (n ≤ most_grains_on g) × (m ≤ most_grains_on h)) }
    ensures err { IfErr result (λ e. two_of text.now ≡ Err e) }
{
    let (first, second) = two_surveys(text)?;
    let first_shape = first.shape(false, text.len())?;
    let second_shape = second.shape(true, text.len())?;
    Ok(((first_shape, first.grains), (second_shape, second.grains)))
}

/// The two piles in a text, or its first fault. Every fault except out of memory is found before anything is allocated.
pub fn read_two(alloc: Global, text: &[u8]) -> Result<(Pile, Pile), ReadFault>
    ensures { ReadsAs (λ piles. piles) result (two_of text.now) }
{
    let ((first, first_grains), (second, second_grains)) = shapes_of(text)?;
    let mut numbers = Numbers::new(text);
    let first_heights = numbers.next_heights(alloc, first.sites())?;
    let second_heights = numbers.next_heights(alloc, second.sites())?;
    Ok((
        Pile::from_counted(first, first_heights, first_grains),
        Pile::from_counted(second, second_heights, second_grains),
    ))
}
