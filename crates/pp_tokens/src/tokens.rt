// The tokens of a stretch of a lexed file, one after another.
ghost use Rattle.std.specs.Prelude.{◌≡◌, ◌-◌, [], length, take, drop, IfOk};
ghost use Rattle.pp_tokens.specs.Lines.{all_tokens};
ghost use Rattle.pp_tokens.specs.Tokens.{rest_of};

use crate::excerpt::Excerpt;
use crate::lexer::Lexed;
use crate::token::{Token, TokenRef};
use base_types::List;
use std::alloc::{AllocError, Global};

/// The tokens of a stretch of a lexed file that are still to come. A copy goes on by itself; each token costs the same,
/// wherever it stands.
#[derive(Clone, Copy, Drop)]
pub struct Tokens<'a> {
    lexed: &'a Lexed,
    at: usize,
    end: usize,
}

impl Lexed {
    /// The tokens from one number up to another, as `token_at` counts them.
    pub fn tokens(&self, from: usize, end: usize) -> Tokens<'_>
        ensures { rest_of result ≡ take (end - from) (drop from (all_tokens self.now)) }
    {
        Tokens {
            lexed: self,
            at: from,
            end,
        }
    }
}

impl<'a> Tokens<'a> {
    /// These tokens, before the first of them is taken to be copied.
    pub fn excerpt(self) -> Excerpt<'a>
        ensures { result ≡ record { taken = []; rest = rest_of self.entry } }
    {
        self.lexed.excerpt(self.at, self.end)
    }

    /// How many there are.
    pub fn len(&self) -> usize
        ensures { result ≡ length (rest_of self.now) }
    {
        let all = self.lexed.tokens_before(self.lexed.line_count());
        self.end.min(all).saturating_sub(self.at)
    }

    /// The first so many tokens, or all where there are fewer, and those behind them.
    pub fn split_at(self, count: usize) -> (Tokens<'a>, Tokens<'a>)
        ensures front { rest_of result.0 ≡ take count (rest_of self.entry) }
        ensures behind { rest_of result.1 ≡ drop count (rest_of self.entry) }
    {
        let middle = if count < self.end.saturating_sub(self.at) {
            self.at + count
        } else {
            self.end
        };
        let mut front = self;
        front.end = middle;
        let mut behind = self;
        behind.at = middle;
        (front, behind)
    }

    /// A copy of the tokens that are still to come, each with its own spelling. The only error is want of memory.
    pub fn to_list(self, alloc: Global) -> Result<List<Token>, AllocError>
        ensures { IfOk result (λ ts. ts ≡ rest_of self.entry) }
    {
        let mut tokens = Vec::with_capacity(alloc, self.len())?;
        for token in self {
            tokens.push(token.to_token(alloc)?)?;
        }
        Ok(List::of(tokens))
    }
}

impl<'a> Iterator for Tokens<'a> {
    ghost use Rattle.std.specs.Iterator.{YieldsFirstBy, item_count};
    ghost use Rattle.pp_tokens.specs.Tokens.{token_seen, rest_of};

    type Item = TokenRef<'a>;

    ghost next_gives = { YieldsFirstBy token_seen rest_of };

    ghost remaining = { item_count rest_of };

    fn next(&mut self) -> Option<TokenRef<'a>> {
        if self.at >= self.end {
            return None;
        }
        let token = self.lexed.token_at(self.at)?;
        self.at += 1;
        Some(token)
    }
}
