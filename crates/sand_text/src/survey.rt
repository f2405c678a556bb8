//! What the tokens of a text say of a pile: its sides, its edge, the sum of its heights, and the places of faults.
//!
//! A survey keeps only what the faults require, and no list. So every fault is found before anything is allocated.

ghost use Rattle.std.specs.Prelude.{◌≡◌, ℕ, ◌+◌, ◌^◌, List, [], ◌∷◌, ◌<◌, ◌≤◌, ◌↔◌, IsTrue, IfOk, IfErr, OnOk, if◌then◌else◌};
ghost use Rattle.std.specs.Option.{option_or};
ghost use Rattle.sand_text.specs.Tokens.{tokens, edge_behind, numbers};
ghost use Rattle.sand_text.specs.Reading.{is_count, pile_at, plain_tokens};
ghost use Rattle.sand_text.specs.Surveys.{IsNoted, IsSurvey, IsStrangeAt, IsFull, IsEnd, IsShaped, edge_with, sites_of, grains_with, if_no_site};

use crate::fault::TextFault;
use crate::tokens::{Token, Tokens};
use sand_model::{Edge, GRAIN_LIMIT, SIDE_LIMIT, Shape};

/// What the tokens of a pile's text say so far, none of them strange.
#[derive(Clone, Copy)]
pub struct Survey {
    /// How many numbers there are.
    pub count: usize,
    /// The first number.
    pub width: u64,
    /// The second number.
    pub height: u64,
    /// A cylinder if a letter follows the second number.
    pub edge: Edge,
    /// The sum of the heights, or one over the grain limit if it is larger.
    pub grains: u64,
    /// The offset of the first number over the limit.
    pub large: Option<usize>,
    /// The index of the first drop outside the grid, among the drops.
    pub no_site: Option<usize>,
}

// Whether the number of heights is right: `expected`, or more if the pile is not the last in its text.
fn is_count(last: bool, count: usize, expected: usize) -> bool
    ensures { result ≡ is_count last count expected }
{
    if last {
        count == expected
    } else {
        expected <= count
    }
}

impl Survey {
    pub(crate) fn new() -> Survey
        ensures underway { (ws : List Token) → IsSurvey ws ws result }
        ensures empty { (result.count ≡ 0) × (result.edge ≡ Edge.Open) }
    {
        Survey {
            count: 0,
            width: 0,
            height: 0,
            edge: Edge::Open,
            grains: 0,
            large: None,
            no_site: None,
        }
    }

    /// Width times height.
    pub fn sites(&self) -> usize
        ensures { result ≡ sites_of self.now }
    {
        self.width.saturating_mul(self.height) as usize
    }

    // Takes number `index` after the sides: a height, or the site of a drop.
    fn note_behind(&mut self, index: usize, value: u64)
        ensures { self.new ≡ record self.old {
          grains = grains_with self.old index value;
          no_site = option_or self.old.no_site (if_no_site self.old index value);
        } }
    {
        let sites = self.sites();
        if index < sites {
            self.grains = self.grains.saturating_add(value).min(GRAIN_LIMIT + 1);
        } else if value as usize >= sites && self.no_site.is_none() {
            self.no_site = Some(index - sites);
        }
    }

    // Takes a number whose token starts at `start`.
    fn note(&mut self, start: usize, value: u64)
        requires { self.old.count < 2 ^ 63 }
        ensures { IsNoted self.old self.new start value }
    {
        match self.count {
            0 => self.width = value,
            1 => self.height = value,
            _ => self.note_behind(self.count - 2, value),
        }
        if value > GRAIN_LIMIT && self.large.is_none() {
            self.large = Some(start);
        }
        self.count += 1;
    }

    // Takes a letter if it is allowed, and returns whether it is.
    fn spare(&mut self) -> bool
        ensures spared { IsTrue result ↔ ((self.old.count ≡ 2) × (self.old.edge ≡ Edge.Open)) }
        ensures edge { self.new ≡ record self.old { edge = (if result then Edge.Cylinder else self.old.edge) } }
    {
        if self.count != 2 || self.edge != Edge::Open {
            return false;
        }
        self.edge = Edge::Cylinder;
        true
    }

    /// Takes a token. Returns Text if it is strange.
    pub(crate) fn take(&mut self, token: Token) -> Result<(), TextFault>
        requires { self.old.count < 2 ^ 63 }
        ensures taken { OnOk result
            ((ws rest : List Token) → IsSurvey ws (token ∷ rest) self.old → IsSurvey ws rest self.new) }
        ensures strange { IfErr result
            (λ e. (ws rest : List Token) → IsSurvey ws (token ∷ rest) self.old → IsStrangeAt ws self.old e) }
        ensures edge { OnOk result (self.new.edge ≡ edge_with self.old.edge token) }
        ensures count { OnOk result (self.new.count ≤ self.old.count + 1) }
    {
        match token {
            Token::Number { start, value } => self.note(start, value),
            Token::Letter(at) => {
                if !self.spare() {
                    return Err(TextFault::Text(at));
                }
            }
            Token::Strange(at) => return Err(TextFault::Text(at)),
        }
        Ok(())
    }

    /// Whether the sides are in range and followed by a height for each site.
    pub(crate) fn is_full(&self) -> bool
        ensures { IsTrue result ↔ IsFull self.now }
    {
        let most = SIDE_LIMIT as u64;
        let sides = 1..=most;
        sides.contains(&self.width)
            && sides.contains(&self.height)
            && self.count as u64 == self.width * self.height + 2
    }

    /// The shape of the surveyed pile, in a text of `end` bytes, or the first fault other than a strange byte or a
    /// number over the limit: fewer than two numbers (Text), Side, Narrow, Length, TooManyGrains. If the pile is not
    /// the last in its text, more numbers may follow than it has sites.
    pub fn shape(&self, last: bool, end: usize) -> Result<Shape, TextFault>
        ensures ok { IfOk result (λ g. (ws rest : List Token) → IsSurvey ws rest self.now → IsEnd last rest self.now
            → IsShaped last end ws self.now g) }
        ensures err { IfErr result (λ e. (ws rest : List Token) → IsSurvey ws rest self.now → IsEnd last rest self.now
            → pile_at (edge_behind 2 0 ws) last end (numbers ws) ≡ Err e) }
    {
        if self.count < 2 {
            return Err(TextFault::Text(end));
        }
        let shape = Shape::with_edge(self.width as usize, self.height as usize, self.edge)?;
        if !is_count(last, self.count - 2, shape.sites()) {
            return Err(TextFault::Length);
        }
        if self.grains > GRAIN_LIMIT {
            return Err(TextFault::TooManyGrains);
        }
        Ok(shape)
    }
}

/// The survey of a whole text; else Text at the first strange byte, else TooLarge at the first number over the limit.
pub fn plain_survey(text: &[u8]) -> Result<Survey, TextFault>
    ensures ok { IfOk result (IsSurvey (tokens text.now) []) }
    ensures plain { IfOk result (λ s. plain_tokens (2 ∷ []) text.now ≡ Ok (tokens text.now)) }
    ensures err { IfErr result (λ e. plain_tokens (2 ∷ []) text.now ≡ Err e) }
{
    let mut survey = Survey::new();
    for token in Tokens::new(text) {
        survey.take(token)?;
    }
    match survey.large {
        Some(at) => Err(TextFault::TooLarge(at)),
        None => Ok(survey),
    }
}
