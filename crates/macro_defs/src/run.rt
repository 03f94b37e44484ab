// Tokens that are lent.
ghost use Rattle.std.specs.Prelude.{◌≡◌, ◌∷◌, [], MatchOption, length};
ghost use Rattle.pp_tokens.specs.Tokens.{token_seen};
ghost use Rattle.macro_defs.specs.Runs.{run_tokens};

use pp_tokens::{Token, TokenRef, Tokens};

/// Tokens that are still to come, lent by a list or by a lexed file: those of a run of text, or of a replacement list. A copy goes on by
/// itself.
#[derive(Clone, Copy, Drop)]
pub enum Run<'a> {
    Listed(&'a [Token]),
    Lexed(Tokens<'a>),
}

impl<'a> Run<'a> {
    /// Takes the first token.
    #[inline(always)]
    pub fn next(&mut self) -> Option<TokenRef<'a>>
        ensures { MatchOption result ((run_tokens self.old ≡ []) × (run_tokens self.new ≡ [])) (λ t. run_tokens self.old ≡ token_seen t ∷ run_tokens self.new) }
    {
        match self {
            Run::Listed(tokens) => {
                let [first, rest @ ..] = *tokens else {
                    return None;
                };
                *tokens = rest;
                Some(first.as_ref())
            }
            Run::Lexed(tokens) => tokens.next(),
        }
    }

    /// How many there are.
    pub fn len(&self) -> usize
        ensures { result ≡ length (run_tokens self.now) }
    {
        match self {
            Run::Listed(tokens) => tokens.len(),
            Run::Lexed(tokens) => tokens.len(),
        }
    }
}
