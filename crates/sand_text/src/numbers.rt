//! The numbers of a text, in order.

ghost use Rattle.std.specs.Prelude.{◌≡◌, ◌+◌, ◌≤◌, length, take, drop, IfOk, OnOk};
ghost use Rattle.std.specs.Iterator.{item_count, YieldsFirst};
ghost use Rattle.sand_text.specs.Tokens.{tokens, numbers};
ghost use Rattle.sand_text.specs.Left.{numbers_left};

use crate::tokens::{Token, Tokens};
use std::alloc::{AllocError, Global};

/// The values of the tokens that are numbers.
#[derive(Clone, Copy)]
pub(crate) struct Numbers<'a> {
    tokens: Tokens<'a>,
}

impl<'a> Numbers<'a> {
    pub(crate) fn new(text: &'a [u8]) -> Numbers<'a>
        ensures { numbers_left result ≡ numbers (tokens text.entry.now) }
    {
        Numbers {
            tokens: Tokens::new(text),
        }
    }

    /// The heights of the next pile, after its sides.
    pub(crate) fn next_heights(
        &mut self,
        alloc: Global,
        sites: usize,
    ) -> Result<Vec<u64>, AllocError>
        requires { 2 + sites ≤ length (numbers_left self.old) }
        ensures heights { IfOk result (λ v. v.items ≡ take sites (drop 2 (numbers_left self.old))) }
        ensures left { OnOk result (numbers_left self.new ≡ drop sites (drop 2 (numbers_left self.old))) }
    {
        let mut heights = Vec::with_capacity(alloc, sites)?;
        let _width = self.next();
        let _height = self.next();
        'sites: for _ in 0..sites {
            if let Some(height) = self.next() {
                heights.push_reserved(height);
            }
        }
        Ok(heights)
    }

    /// All `count` numbers left, as sites.
    pub(crate) fn sites(self, alloc: Global, count: usize) -> Result<Vec<usize>, AllocError>
        requires { length (numbers_left self) ≡ count }
        ensures { IfOk result (λ v. v.items ≡ numbers_left self.entry) }
    {
        let mut sites = Vec::with_capacity(alloc, count)?;
        for site in self {
            sites.push_reserved(site as usize);
        }
        Ok(sites)
    }
}

impl<'a> Iterator for Numbers<'a> {
    ghost use Rattle.sand_text.specs.Left.{numbers_left};

    type Item = u64;

    ghost next_gives = { YieldsFirst numbers_left };

    ghost remaining = { item_count numbers_left };

    fn next(&mut self) -> Option<u64> {
        'tokens: while let Some(token) = self.tokens.next() {
            if let Token::Number { value, .. } = token {
                return Some(value);
            }
        }
        None
    }
}
